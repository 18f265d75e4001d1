//! Rows that are added one after another.
use crate::compare::same_row;
use pop_rows::RowList;
use std::alloc::Global;
use std::process::Abort;

// A list with room for this many rows and numbers, and with these rows pushed to it.
fn list(rt: &impl Abort, alloc: Global, room: (usize, usize), table: &[&[u32]]) -> RowList {
    let mut rows = RowList::with_room(alloc, room.0, room.1).expect(rt, "memory");
    assert!(rt; rows.count() == 0);
    for row in table {
        rows.push_row(row).expect(rt, "memory");
    }
    rows
}

// Compares the numbers of each row.
fn are_rows(rt: &impl Abort, rows: &RowList, want: &[&[u32]]) {
    assert!(rt; rows.count() as usize == want.len());
    for v in 0..rows.count() {
        same_row(rt, rows.row(v), want[v as usize], v);
    }
}

static ROWS: [&[u32]; 5] = [&[5, 6], &[], &[], &[7], &[8, 8, 9]];

// There are more rows and numbers than the list had room for.
#[test]
fn rows_come_back_in_order_with_empty_ones_between(rt: HostRuntime) {
    let rows = list(&rt, rt.alloc(), (3, 4), &ROWS);
    are_rows(&rt, &rows, &ROWS);
    drop(rows);
}

// Makes running sums of rows, and compares the first row with a sum past 32 bits.
fn sums_up_to(rt: &impl Abort, rows: &mut RowList, heavy: Option<u32>) {
    let found = rows.accumulate();
    assert!(rt; found == heavy, "the first row past 32 bits");
}

static LIGHT: [&[u32]; 4] = [&[3, 1, 2], &[], &[u32::MAX], &[5, 0]];

#[test]
fn running_sums_start_anew_in_each_row(rt: HostRuntime) {
    let mut rows = list(&rt, rt.alloc(), (4, 6), &LIGHT);
    sums_up_to(&rt, &mut rows, None);
    are_rows(&rt, &rows, &[&[3, 4, 6], &[], &[u32::MAX], &[5, 5]]);
    drop(rows);
}

static HEAVY: [&[u32]; 3] = [&[u32::MAX], &[1, u32::MAX], &[u32::MAX, 1]];

#[test]
fn the_least_row_past_32_bits_is_named(rt: HostRuntime) {
    let mut rows = list(&rt, rt.alloc(), (3, 5), &HEAVY);
    sums_up_to(&rt, &mut rows, Some(1));
    drop(rows);
}
