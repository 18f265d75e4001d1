//! For how many rows rounds finish with each assignment, if clauses clash.
ghost use Rattle.std.specs.Prelude.{◌≡◌, length};
ghost use Rattle.pop_model.specs.Stacks.{variables_of};
ghost use Rattle.prs_rounds.specs.Units.{IsIndexOf};

use super::instances::index_of;
use crate::compare::same;
use crate::made::listed;
use pop_instance::{Index, Instance};
use prs_rounds::{RoundEnd, run_rounds};
use std::alloc::Global;
use std::process::Abort;
use std::thread::Threads;
use test_instances::EventRow;

// Two clauses that share a variable and can both be false.
static TWO: [EventRow; 2] = [(1, &[(0, 0), (1, 0)]), (2, &[(1, 0), (2, 0)])];

// These two and a third clause, which shares a variable with each. It demands the same value as
// the second and another value than the first.
static THREE: [EventRow; 3] = [
    (1, &[(0, 0), (1, 0)]),
    (2, &[(1, 0), (2, 0)]),
    (3, &[(0, 1), (2, 0)]),
];

// For how many of all rows of three entries rounds finish with each assignment. The bits of an
// assignment are its values, that of variable 0 lowest. The numbers are equal for all satisfying
// assignments, and 0 for the others. Two other programs counted them, each by the definition.
static COUNTS_OF_TWO: [u64; 8] = [0, 0, 97, 97, 0, 97, 97, 97];

static COUNTS_OF_THREE: [u64; 8] = [0, 0, 112, 0, 0, 112, 112, 112];

// The instance of these rows and clauses. Entry k of variable v is bit 3v + k.
fn instance(rt: &impl Abort, alloc: Global, rows: u32, clauses: &[EventRow]) -> Instance {
    let first = [rows % 2, rows / 2 % 2, rows / 4 % 2];
    let second = [rows / 8 % 2, rows / 16 % 2, rows / 32 % 2];
    let third = [rows / 64 % 2, rows / 128 % 2, rows / 256 % 2];
    listed(rt, alloc, &[&first, &second, &third], clauses)
}

// The assignment as a number.
fn number_of(rt: &impl Abort, values: &[u32]) -> u32 {
    assert!(rt; values.len() == 3);
    let (a, b, c) = (values[0], values[1], values[2]);
    assert!(rt; a < 2 && b < 2 && c < 2);
    a + 2 * b + 4 * c
}

// The assignment at an end of rounds. None if they are exhausted.
fn number_at(rt: &impl Abort, end: &RoundEnd) -> Option<u32> {
    if end.short.is_some() {
        return None;
    }
    Some(number_of(rt, &end.values))
}

// The assignment at the end of the rounds of an instance.
fn end_of<R: Threads + Abort + Sync>(
    rt: &R,
    alloc: Global,
    instance: &Instance,
    index: &Index,
) -> Option<u32>
    requires index { IsIndexOf instance.now.family index.now }
    requires variables { length index.now ≡ variables_of instance.now.stacks }
{
    let end = run_rounds(rt, alloc, instance, index).expect(rt, "memory");
    let number = number_at(rt, &end);
    drop(end);
    number
}

// The assignment at the end of the rounds of an instance, which builds its index.
fn indexed_end<R: Threads + Abort + Sync>(
    rt: &R,
    alloc: Global,
    instance: &Instance,
) -> Option<u32> {
    let index = index_of(rt, alloc, instance);
    let answer = end_of(rt, alloc, instance, &index);
    drop(index);
    answer
}

// The assignment at the end of the rounds of these rows.
fn sample_of<R: Threads + Abort + Sync>(
    rt: &R,
    alloc: Global,
    rows: u32,
    clauses: &[EventRow],
) -> Option<u32> {
    let instance = instance(rt, alloc, rows, clauses);
    let answer = indexed_end(rt, alloc, &instance);
    drop(instance);
    answer
}

// Compares how often an assignment is among these.
fn is_among(rt: &impl Abort, all: &[u32], sample: u32, want: u64) {
    let mut count: u64 = 0;
    for other in all {
        if *other == sample {
            count = count.checked_add(1).expect(rt, "a sum of 64 bits");
        }
    }
    same(rt, count, want, "rows of an assignment");
}

// The assignments at the ends of all rows, except those with exhausted rounds.
fn samples_of<R: Threads + Abort + Sync>(rt: &R, alloc: Global, clauses: &[EventRow]) -> Vec<u32> {
    let mut all = Vec::new(alloc);
    for rows in 0..512 {
        if let Some(sample) = sample_of(rt, alloc, rows, clauses) {
            all.push(sample).expect(rt, "memory");
        }
    }
    all
}

// Compares how often each assignment is among these.
fn are_among(rt: &impl Abort, all: &[u32], counts: &[u64; 8]) {
    for sample in 0..8 {
        is_among(rt, all, sample, counts[sample as usize]);
    }
}

// Compares how many of all rows end with each assignment.
fn are_counted<R: Threads + Abort + Sync>(
    rt: &R,
    alloc: Global,
    clauses: &[EventRow],
    counts: &[u64; 8],
) {
    let all = samples_of(rt, alloc, clauses);
    are_among(rt, &all, counts);
    drop(all);
}

#[test]
fn as_many_rows_end_with_each_sample_where_clauses_clash(rt: HostRuntime) {
    let alloc = rt.alloc();
    are_counted(&rt, alloc, &TWO, &COUNTS_OF_TWO);
    are_counted(&rt, alloc, &THREE, &COUNTS_OF_THREE);
}
