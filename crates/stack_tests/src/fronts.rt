//! Rows that are prefixes of one list.
use crate::compare::same_row;
use pop_rows::Fronts;
use std::alloc::Global;
use std::process::Abort;

// Compares the numbers of each row.
fn are_rows(rt: &impl Abort, rows: &Fronts, want: &[&[u32]]) {
    assert!(rt; rows.count() as usize == want.len());
    for v in 0..rows.count() {
        same_row(rt, rows.row(v), want[v as usize], v);
    }
}

// Four rows of ones.
fn ones(rt: &impl Abort, alloc: Global) -> Fronts {
    let lengths = Vec::from_slice(alloc, &[2, 0, 3, 1]).expect(rt, "memory");
    Fronts::ones(alloc, lengths).expect(rt, "memory")
}

#[test]
fn rows_of_ones_sum_to_their_places(rt: HostRuntime) {
    let mut rows = ones(&rt, rt.alloc());
    are_rows(&rt, &rows, &[&[1, 1], &[], &[1, 1, 1], &[1]]);
    let heavy = rows.accumulate();
    assert!(&rt; heavy.is_none(), "a sum past 32 bits");
    are_rows(&rt, &rows, &[&[1, 2], &[], &[1, 2, 3], &[1]]);
    drop(rows);
}
