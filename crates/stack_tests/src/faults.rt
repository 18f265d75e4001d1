//! The first fault of rows and weights.
use crate::tables::{rows, weights};
use pop_stacks::{StackFault, StackSpec, Stacks, Weights};
use std::alloc::Global;
use std::process::Abort;

// Compares the fault of stacks with the expected one.
fn is_refused(rt: &impl Abort, spec: StackSpec, weights: Weights, wanted: StackFault) {
    let fault = Stacks::new(spec, weights, 1).err();
    assert!(rt; fault == Some(wanted), "not refused: {wanted}");
}

// Compares the fault of rows with the expected one. Each variable has two values.
fn are_refused(rt: &impl Abort, alloc: Global, table: &[&[u32]], count: u32, wanted: StackFault) {
    let rows = rows(rt, alloc, table);
    assert!(rt; count < 9);
    is_refused(rt, StackSpec::Given(rows), Weights::pairs(count), wanted);
}

// Compares the fault of rows if a sum of weights is too large.
fn too_heavy(rt: &impl Abort, alloc: Global, table: &[&[u32]]) {
    let heavy = weights(rt, alloc, &[&[u32::MAX], &[u32::MAX, 1], &[2, u32::MAX]]);
    let rows = rows(rt, alloc, table);
    is_refused(rt, StackSpec::Given(rows), heavy, StackFault::WeightSum(1));
}

// Each list of rows also has later faults, and the same fault at a later place.
#[test]
fn the_first_fault_is_named_at_its_least_place(rt: HostRuntime) {
    let alloc = rt.alloc();
    are_refused(&rt, alloc, &[&[9]], 2, StackFault::RowCount(1, 2));
    are_refused(&rt, alloc, &[&[9], &[], &[]], 3, StackFault::EmptyRow(1));
    let value = StackFault::ValueTooLarge(1, 1);
    are_refused(&rt, alloc, &[&[0, 1], &[1, 2, 2], &[9]], 3, value);
    too_heavy(&rt, alloc, &[&[0], &[1], &[1]]);
}

#[test]
fn keyed_stacks_are_refused_for_their_weights_alone(rt: HostRuntime) {
    let heavy = weights(&rt, rt.alloc(), &[&[1, u32::MAX - 1], &[u32::MAX, 1]]);
    is_refused(
        &rt,
        StackSpec::Key([7; 32]),
        heavy,
        StackFault::WeightSum(1),
    );
}
