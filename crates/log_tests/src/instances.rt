//! Instances in boxes. A function that owns an unboxed instance costs several times as much to
//! prove as one that owns a box.
use crate::comparing::made;
use pop_instance::Instance;
use std::alloc::Global;
use std::process::Abort;
use test_instances::{EventRow, arrows, cycles, listed};

/// The instance of these rows of entries and the events with these numbers and pairs.
pub fn of_events(
    rt: &impl Abort,
    alloc: Global,
    rows: &[&[u32]],
    events: &[EventRow],
) -> Box<Instance> {
    let instance = made(rt, listed(alloc, rows, events), "an instance");
    Box::new(alloc, instance).expect(rt, "memory")
}

/// The instance of these rows of entries and the cycles of these arrows.
pub fn of_arrows(
    rt: &impl Abort,
    alloc: Global,
    rows: &[&[u32]],
    heads: &[[Option<u32>; 2]],
) -> Box<Instance> {
    let arrows = made(rt, arrows(alloc, heads), "arrows");
    let instance = made(rt, cycles(alloc, rows, arrows), "an instance");
    Box::new(alloc, instance).expect(rt, "memory")
}
