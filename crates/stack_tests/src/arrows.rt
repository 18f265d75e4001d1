//! Arrows in one array, in lists, and packed.
ghost use Rattle.std.specs.Prelude.{◌<◌, ◌^◌, length, All};
ghost use Rattle.pop_instance.specs.Arrows.{heads_of};

use crate::compare::is_so;
use pop_instance::Arrows;
use pop_rows::RowList;
use std::alloc::Global;
use std::process::Abort;

// Adds a row of fewer than nine numbers.
fn push(rt: &impl Abort, rows: &mut RowList, row: &[u32])
    requires { All (λ row. length row < 2 ^ 31) rows.old }
    ensures { All (λ row. length row < 2 ^ 31) rows.new }
{
    assert!(rt; row.len() < 9);
    rows.push_row(row).expect(rt, "memory");
}

// Rows of numbers in one array.
fn numbers(rt: &impl Abort, alloc: Global, table: &[&[u32]]) -> RowList
    ensures short { length result < 2 ^ 31 }
    ensures short_rows { All (λ row. length row < 2 ^ 31) result }
{
    let mut rows = RowList::with_room(alloc, 3, 8).expect(rt, "memory");
    for row in table {
        push(rt, &mut rows, row);
    }
    assert!(rt; rows.count() < 9);
    rows
}

// Rows of heads in an array each.
fn heads(rt: &impl Abort, alloc: Global, table: &[&[Option<u32>]]) -> Vec<Vec<Option<u32>>>
    ensures short { length result.items < 2 ^ 31 }
    ensures short_rows { All (λ row. length row < 2 ^ 31) (heads_of result.items) }
{
    let mut rows = Vec::new(alloc);
    for row in table {
        assert!(rt; row.len() < 9);
        let row = Vec::from_slice(alloc, row).expect(rt, "memory");
        rows.push(row).expect(rt, "memory");
    }
    assert!(rt; rows.len() < 9);
    rows
}

// Compares the heads of the slots of a variable.
fn leads(rt: &impl Abort, arrows: &Arrows, v: u32, want: &[Option<u32>])
    requires { v < length arrows.now }
{
    assert!(rt; arrows.slots(v) as usize == want.len());
    for slot in 0..arrows.slots(v) {
        let leads = arrows.head(v, slot) == want[slot as usize];
        is_so(rt, leads, "head of a slot of variable", v);
    }
}

// The case of the test below. The slots of variable 0 lead to the root and to variable 1.
static HEADS: [&[Option<u32>]; 3] = [&[None, Some(1)], &[Some(2)], &[Some(0), Some(0), None]];

// Compares arrows with those of the case.
fn is_worked_case(rt: &impl Abort, arrows: &Arrows) {
    assert!(rt; arrows.count() == 3);
    for v in 0..3 {
        leads(rt, arrows, v, HEADS[v as usize]);
    }
}

// Compares the same arrows packed with those of the case.
fn is_packed_case(rt: &impl Abort, alloc: Global, arrows: Arrows) {
    let packed = arrows.packed(alloc).expect(rt, "memory");
    is_worked_case(rt, &packed);
    drop(packed);
}

// Compares arrows that were made, and the same packed, with those of the case.
fn are_worked_case(rt: &impl Abort, alloc: Global, made: Option<Arrows>) {
    let arrows = made.expect(rt, "arrows");
    is_worked_case(rt, &arrows);
    is_packed_case(rt, alloc, arrows);
}

static NUMBERS: [&[u32]; 3] = [&[3, 1], &[2], &[0, 0, 3]];

// Worked by hand: of three variables, number 3 is the root.
#[test]
fn arrows_in_one_array_answer_like_lists(rt: HostRuntime) {
    let alloc = rt.alloc();
    are_worked_case(&rt, alloc, Arrows::flat(numbers(&rt, alloc, &NUMBERS)));
    are_worked_case(&rt, alloc, Arrows::new(heads(&rt, alloc, &HEADS)));
}

// One number for each variable, falling to 0, so that no two variables have the same pattern.
fn falling(rt: &impl Abort, alloc: Global, count: u32) -> RowList
    ensures short { length result < 2 ^ 31 }
    ensures short_rows { All (λ row. length row < 2 ^ 31) result }
{
    let mut rows = RowList::with_room(alloc, 0, 0).expect(rt, "memory");
    for v in 0..count {
        push(rt, &mut rows, &[count - 1 - v]);
    }
    assert!(rt; rows.count() < 999);
    rows
}

// Compares the heads that the falling numbers denote.
fn fall(rt: &impl Abort, arrows: &Arrows, count: u32) {
    assert!(rt; arrows.count() == count);
    for v in 0..count {
        leads(rt, arrows, v, &[Some(count - 1 - v)]);
    }
}

// Packs the arrows of falling numbers, and compares their heads.
fn packed_fall(rt: &impl Abort, alloc: Global, count: u32) {
    let arrows = Arrows::flat(falling(rt, alloc, count)).expect(rt, "arrows");
    let packed = arrows.packed(alloc).expect(rt, "memory");
    fall(rt, &packed, count);
    drop(packed);
}

// A byte has 256 values, for as many variables of different patterns.
#[test]
fn arrows_that_no_byte_tells_apart_are_packed_as_they_are(rt: HostRuntime) {
    packed_fall(&rt, rt.alloc(), 256);
    packed_fall(&rt, rt.alloc(), 257);
}

// Rows with no slot for a variable, and rows with a number past the root.
static BAD_NUMBERS: [&[&[u32]]; 2] = [&[&[3, 1], &[], &[0, 0, 3]], &[&[3, 1], &[2], &[0, 4, 3]]];

// Rows with no slot for a variable, and rows with a head past the last variable.
static BAD_HEADS: [&[&[Option<u32>]]; 2] = [&[&[Some(0)], &[]], &[&[Some(1), None]]];

// Whether these numbers are rejected.
fn are_no_arrows(rt: &impl Abort, alloc: Global, table: &[&[u32]]) -> bool {
    let made = Arrows::flat(numbers(rt, alloc, table));
    let are_none = made.is_none();
    drop(made);
    are_none
}

#[test]
fn no_slot_and_a_number_past_the_root_are_refused(rt: HostRuntime) {
    for table in BAD_NUMBERS.iter() {
        let refused = are_no_arrows(&rt, rt.alloc(), table);
        is_so(&rt, refused, "refusal of numbers", 0);
    }
}

// Whether these heads are rejected.
fn make_no_arrows(rt: &impl Abort, alloc: Global, table: &[&[Option<u32>]]) -> bool {
    let made = Arrows::new(heads(rt, alloc, table));
    let are_none = made.is_none();
    drop(made);
    are_none
}

#[test]
fn no_slot_and_a_head_past_the_last_variable_are_refused(rt: HostRuntime) {
    for table in BAD_HEADS.iter() {
        let refused = make_no_arrows(&rt, rt.alloc(), table);
        is_so(&rt, refused, "refusal of heads", 0);
    }
}
