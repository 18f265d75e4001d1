//! How many rows finish with each sample, and the sum of their weights.
use super::instances::*;
use crate::compare::same_of;
use std::process::Abort;

// All cursors except those at which an event is stuck.
const ANY: u32 = 28;

// How many rows finish with a sample at these cursors, and the sum of their weights.
fn total(rt: &impl Abort, all: &[Finish], sample: u32, place: u32) -> (u64, u64) {
    let mut count = 0;
    let mut weight = 0;
    for end in all {
        let here = end.place == place || place == ANY && end.place != STUCK;
        if here && end.sample == sample {
            count = plus(rt, count, 1);
            weight = plus(rt, weight, end.weight);
        }
    }
    (count, weight)
}

// Compares how many rows finish with a sample at these cursors.
fn finish_with(rt: &impl Abort, all: &[Finish], sample: u32, place: u32, want: u64) {
    let (count, _) = total(rt, all, sample, place);
    same_of(rt, count, want, "rows of sample, at place", (sample, place));
}

// Compares the counts and the weights of two samples, unless one of them is not a sample. Pair 8x
// + w has the samples w and x.
fn are_proportional(rt: &impl Abort, which: usize, all: &[Finish], place: u32, pair: u32) {
    let (w, x) = (pair % 8, pair / 8);
    if !is_sample(rt, which, w) || !is_sample(rt, which, x) {
        return;
    }
    let (count, weight) = total(rt, all, w, place);
    let (other_count, other_weight) = total(rt, all, x, place);
    same_of(
        rt,
        count,
        other_count,
        "counts of pair, at place",
        (pair, place),
    );
    let one = times(rt, weight, sample_weight(rt, x));
    let other = times(rt, other_weight, sample_weight(rt, w));
    same_of(rt, one, other, "weights of pair, at place", (pair, place));
}

// Compares any two samples at these cursors.
fn all_proportional(rt: &impl Abort, which: usize, all: &[Finish], place: u32) {
    for pair in 0..64 {
        are_proportional(rt, which, all, place, pair);
    }
}

// Compares how many rows finish with each sample, at any cursors and at those of no pop.
fn finish_with_each(rt: &impl Abort, which: usize, all: &[Finish], rows: u64) {
    for sample in 0..8 {
        let one = is_sample(rt, which, sample);
        finish_with(rt, all, sample, ANY, if one { rows } else { 0 });
        finish_with(rt, all, sample, 0, if one { 64 } else { 0 });
    }
}

// Instances, and how many rows finish with each of their samples. Another program counted these
// numbers. If no cursor moved, all rows that have a sample as their first entries finish: 64.
static COUNTS: [(usize, u64); 3] = [(FORMULA, 112), (TRIANGLE, 154), (PATH, 112)];

#[test]
fn as_many_rows_finish_with_each_sample(rt: HostRuntime) {
    let alloc = rt.alloc();
    for (which, rows) in COUNTS.iter() {
        let all = finishes(&rt, alloc, *which);
        finish_with_each(&rt, *which, &all, *rows);
        all_proportional(&rt, *which, &all, ANY);
        drop(all);
    }
}

// Compares any two samples at all cursors.
fn proportional_at_each(rt: &impl Abort, which: usize, all: &[Finish]) {
    for place in 0..27 {
        all_proportional(rt, which, all, place);
    }
}

#[test]
fn as_many_rows_finish_with_each_sample_at_each_cursors(rt: HostRuntime) {
    let alloc = rt.alloc();
    for which in EXTREMAL.iter() {
        let all = finishes(&rt, alloc, *which);
        proportional_at_each(&rt, *which, &all);
        drop(all);
    }
}

// The samples of the clauses that clash, and how many rows finish with each. Another program
// counted these numbers.
static CLASHING_COUNTS: [(u32, u64); 5] = [
    (0b010, 84),
    (0b011, 108),
    (0b101, 108),
    (0b110, 84),
    (0b111, 108),
];

// Compares how many rows of the clauses that clash finish with each of these samples.
fn clashing_finish(rt: &impl Abort, all: &[Finish], counts: &[(u32, u64)]) {
    for (sample, rows) in counts {
        let one = is_sample(rt, CLASHING, *sample);
        assert!(rt; one);
        finish_with(rt, all, *sample, ANY, *rows);
    }
}

#[test]
fn not_as_many_finish_with_each_where_clauses_clash(rt: HostRuntime) {
    let all = finishes(&rt, rt.alloc(), CLASHING);
    clashing_finish(&rt, &all, &CLASHING_COUNTS);
    drop(all);
}
