//! Rows are a number of nine bits: entry k of variable v is bit 3v + k. A sample is a number of
//! three bits. Cursors are a number of three digits to base 3, that of variable 0 lowest.
ghost use Rattle.std.specs.Prelude.{◌≡◌, ◌<◌, length};

use crate::made::{arrows, cube, family, over, stacks};
use confluence_core::{End, run_first};
use pop_instance::{Cube, Cursors, Family, Instance};
use pop_stacks::Stacks;
use std::alloc::Global;
use std::process::Abort;

/// A formula of two clauses that share a variable and demand different values of it.
pub const FORMULA: usize = 0;
/// The sinks of the orientations of a triangle.
pub const TRIANGLE: usize = 1;
/// The cycles of arrows along a path with the root at both ends.
pub const PATH: usize = 2;
/// A formula of two clauses that share a variable and can both be false: it is not extremal.
pub const CLASHING: usize = 3;

/// The instances that are extremal.
pub static EXTREMAL: [usize; 3] = [FORMULA, TRIANGLE, PATH];

// The events of each instance: the variables that they name, and their values, as bits. If there
// are only two, the last one is repeated.
static EVENTS: [[(u32, u32); 3]; 4] = [
    [(0b011, 0b000), (0b110, 0b010), (0b110, 0b010)],
    [(0b101, 0b001), (0b011, 0b010), (0b110, 0b100)],
    [(0b011, 0b001), (0b110, 0b010), (0b110, 0b010)],
    [(0b011, 0b000), (0b110, 0b000), (0b110, 0b000)],
];

// The weights of the values 0 and 1 of each variable.
static WEIGHTS: [[u64; 2]; 3] = [[2, 1], [1, 3], [3, 2]];

/// The cursors of rows with a stuck event.
pub const STUCK: u32 = 27;

/// The end of the one-thread run of some rows: its cursors, its sample, its number of pops, and
/// the weight of the rows.
#[derive(Clone, Copy)]
pub struct Finish {
    pub place: u32,
    pub sample: u32,
    pub pops: u64,
    pub weight: u64,
}

/// A bit of a number.
pub fn bit(number: u32, at: u32) -> u32
    requires { at < 32 }
    ensures { result < 2 }
{
    (number >> at) % 2
}

/// A digit to base 3.
pub fn cursor(place: u32, v: u32) -> u32
    ensures { result < 3 }
{
    match v {
        0 => place % 3,
        1 => place / 3 % 3,
        _ => place / 9 % 3,
    }
}

/// The entries at the cursors.
pub fn sample_at(rows: u32, place: u32) -> u32 {
    let first = bit(rows, cursor(place, 0));
    let second = bit(rows, 3 + cursor(place, 1));
    first + 2 * second + 4 * bit(rows, 6 + cursor(place, 2))
}

pub fn event(rt: &impl Abort, which: usize, e: usize) -> (u32, u32) {
    assert!(rt; which < 4);
    assert!(rt; e < 3);
    EVENTS[which][e]
}

/// Whether the assignment is a sample: no event has all its values in it.
pub fn is_sample(rt: &impl Abort, which: usize, sample: u32) -> bool {
    for e in 0..3 {
        let (names, values) = event(rt, which, e);
        if sample & names == values {
            return false;
        }
    }
    true
}

pub fn plus(rt: &impl Abort, a: u64, b: u64) -> u64 {
    a.checked_add(b).expect(rt, "a sum of 64 bits")
}

pub fn times(rt: &impl Abort, a: u64, b: u64) -> u64 {
    a.checked_mul(b).expect(rt, "a product of 64 bits")
}

// The weight of a value of a variable.
fn weight(v: u32, value: u32) -> u64
    requires variable { v < 3 }
    requires value { value < 2 }
{
    WEIGHTS[v as usize][value as usize]
}

/// The product of the weights of a sample.
pub fn sample_weight(rt: &impl Abort, sample: u32) -> u64 {
    let mut product = 1;
    for v in 0..3 {
        product = times(rt, product, weight(v, bit(sample, v)));
    }
    product
}

// The product of the weights of all entries.
fn rows_weight(rt: &impl Abort, rows: u32) -> u64 {
    let mut product = 1;
    for at in 0..9 {
        product = times(rt, product, weight(at / 3, bit(rows, at)));
    }
    product
}

// The pairs of an event.
fn pairs(rt: &impl Abort, alloc: Global, names: u32, values: u32) -> Vec<(u32, u32)> {
    let mut pairs = Vec::new(alloc);
    for v in 0..3 {
        if bit(names, v) == 1 {
            pairs.push((v, bit(values, v))).expect(rt, "memory");
        }
    }
    pairs
}

// The cube of an event.
fn cube_of(rt: &impl Abort, alloc: Global, which: usize, e: usize) -> Cube {
    let (names, values) = event(rt, which, e);
    let pairs = pairs(rt, alloc, names, values);
    let cube = cube(rt, alloc, &pairs);
    drop(pairs);
    cube
}

// The heads of the path: variables 0, 1 and 2 in a row, with the root before and after them.
static HEADS: [[Option<u32>; 2]; 3] = [[None, Some(1)], [Some(0), Some(2)], [Some(1), None]];

// The listed events of an instance other than the path.
fn events(rt: &impl Abort, alloc: Global, which: usize) -> Vec<(u32, Cube)> {
    let mut rows = Vec::new(alloc);
    for e in 0..3 {
        let cube = cube_of(rt, alloc, which, e);
        rows.push((e as u32 + 1, cube)).expect(rt, "memory");
    }
    rows
}

// The events of an instance.
fn family_of(rt: &impl Abort, alloc: Global, which: usize) -> Family {
    if which != PATH {
        return family(rt, alloc, events(rt, alloc, which));
    }
    Family::Cycles(arrows(rt, alloc, &HEADS))
}

// The stacks of these rows. The weights are not used, since the rows are given.
fn stacks_of(rt: &impl Abort, alloc: Global, rows: u32) -> Stacks {
    let first = [bit(rows, 0), bit(rows, 1), bit(rows, 2)];
    let second = [bit(rows, 3), bit(rows, 4), bit(rows, 5)];
    let third = [bit(rows, 6), bit(rows, 7), bit(rows, 8)];
    stacks(rt, alloc, &[&first, &second, &third])
}

// The instance of these rows.
fn instance(rt: &impl Abort, alloc: Global, which: usize, rows: u32) -> Instance {
    let family = family_of(rt, alloc, which);
    let stacks = stacks_of(rt, alloc, rows);
    over(rt, stacks, family)
}

// Three cursors as one number.
fn place_of(rt: &impl Abort, cursors: &Cursors) -> u32
    requires { 3 ≡ length cursors.now }
{
    let (a, b, c) = (cursors.get(0), cursors.get(1), cursors.get(2));
    assert!(rt; a < 3);
    assert!(rt; b < 3);
    assert!(rt; c < 3);
    a + 3 * b + 9 * c
}

// The end of these rows, as numbers.
fn finish_at(rt: &impl Abort, end: &End, rows: u32) -> Finish
    requires { 3 ≡ length end.now.cursors }
{
    let place = place_of(rt, &end.cursors);
    Finish {
        place: if end.stuck.len() == 0 { place } else { STUCK },
        sample: sample_at(rows, place),
        pops: end.pops,
        weight: rows_weight(rt, rows),
    }
}

// Runs an instance of these rows.
fn run_of(rt: &impl Abort, alloc: Global, instance: &Instance, rows: u32) -> Finish {
    assert!(rt; instance.stacks().count() == 3);
    let end = run_first(alloc, instance).expect(rt, "memory");
    let answer = finish_at(rt, &end, rows);
    drop(end);
    answer
}

// Makes the instance of these rows, and runs it.
fn end_of(rt: &impl Abort, alloc: Global, which: usize, rows: u32) -> Finish {
    let instance = instance(rt, alloc, which, rows);
    let answer = run_of(rt, alloc, &instance, rows);
    drop(instance);
    answer
}

/// The ends of all rows.
pub fn finishes(rt: &impl Abort, alloc: Global, which: usize) -> Vec<Finish> {
    let mut all = Vec::new(alloc);
    for rows in 0..512 {
        let end = end_of(rt, alloc, which, rows);
        all.push(end).expect(rt, "memory");
    }
    all
}

/// The end of these rows.
pub fn finish_of(rt: &impl Abort, all: &[Finish], rows: u32) -> Finish {
    assert!(rt; (rows as usize) < all.len());
    all[rows as usize]
}
