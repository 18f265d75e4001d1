//! Rows with room for a fixed number of items each.
use crate::compare::same_row;
use pop_rows::FlatRows;
use std::process::Abort;

// Compares the numbers of each row.
fn are_rows(rt: &impl Abort, rows: &FlatRows, want: &[&[u32]]) {
    assert!(rt; rows.count() as usize == want.len());
    for v in 0..rows.count() {
        same_row(rt, rows.row(v), want[v as usize], v);
    }
}

// The last row is not filled.
#[test]
fn rows_have_what_was_pushed_to_them_in_order(rt: HostRuntime) {
    let alloc = rt.alloc();
    let rooms = Vec::from_slice(alloc, &[2, 0, 1, 2]).expect(&rt, "memory");
    let mut rows = FlatRows::with_rooms(alloc, rooms).expect(&rt, "memory");
    rows.push(2, 7);
    rows.push(0, 5);
    rows.push(3, 9);
    rows.push(0, 6);
    are_rows(&rt, &rows, &[&[5, 6], &[], &[7], &[9]]);
    drop(rows);
}

#[test]
fn rooms_past_32_bits_find_no_memory(rt: HostRuntime) {
    let alloc = rt.alloc();
    let rooms = Vec::from_slice(alloc, &[1 << 31, 1 << 31]).expect(&rt, "memory");
    let made = FlatRows::with_rooms(alloc, rooms);
    assert!(&rt; made.is_err(), "rooms past 32 bits");
    drop(made);
}
