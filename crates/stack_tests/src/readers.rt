//! Readers: the values of entries, under each kind of weights and in each order.
ghost use Rattle.std.specs.Prelude.{◌<◌, ◌^◌};
ghost use Rattle.pop_stacks.specs.Readers.{Belongs};

use crate::compare::same;
use crate::tables;
use pop_rows::RowList;
use pop_stacks::{Reader, Rows, StackSpec, Stacks, Weights};
use std::alloc::Global;
use std::process::Abort;

// Entry k of variable v.
fn entry_of(rt: &impl Abort, stacks: &Stacks, reader: &mut Reader, v: u32, k: u32) -> u32
    requires { Belongs stacks.now reader.old }
    ensures { Belongs stacks.now reader.new }
{
    let is_there = v < stacks.count() && k < stacks.height(v);
    assert!(rt; is_there);
    reader.entry(stacks, v, k)
}

// Compares entry k of variable v.
fn is_entry(rt: &impl Abort, v: u32, k: u32, found: u32, value: u32) {
    assert!(rt;
        found == value,
        "entry {k} of variable {v}: {found}, not {value}"
    );
}

/// Reads entry k of variable v, and compares its value.
pub fn look(rt: &impl Abort, stacks: &Stacks, reader: &mut Reader, v: u32, k: u32, value: u32)
    requires { Belongs stacks.now reader.old }
    ensures { Belongs stacks.now reader.new }
{
    let found = entry_of(rt, stacks, reader, v, k);
    is_entry(rt, v, k, found, value);
}

/// Reads entry k of variable v by a new reader without a cache, and compares its value.
pub fn look_afresh(rt: &impl Abort, stacks: &Stacks, v: u32, k: u32, value: u32) {
    let mut reader = Reader::new(stacks);
    look(rt, stacks, &mut reader, v, k, value);
    drop(reader);
}

// Reads entries of variable 0 in this order. `values` are the values of the first entries; later
// entries are not compared.
fn look_along(rt: &impl Abort, stacks: &Stacks, reader: &mut Reader, order: &[u32], values: &[u32])
    requires { Belongs stacks.now reader.old }
    ensures { Belongs stacks.now reader.new }
{
    for k in order {
        let found = entry_of(rt, stacks, reader, 0, *k);
        if (*k as usize) < values.len() {
            is_entry(rt, 0, *k, found, values[*k as usize]);
        }
    }
}

// A reader with a cache, or one without.
fn reader_of(rt: &impl Abort, alloc: Global, stacks: &Stacks, keeps: bool) -> Reader
    ensures { Belongs stacks.now result }
{
    if keeps {
        return Reader::keeping(alloc, stacks).expect(rt, "memory");
    }
    Reader::new(stacks)
}

// The first entries of variable 0, forwards, backwards, and with a later group in between.
static ORDER: [u32; 20] = [0, 1, 2, 3, 4, 5, 6, 7, 7, 6, 5, 4, 3, 2, 1, 0, 40, 3, 0, 5];

// Compares the first entries of variable 0, by a reader of this kind.
fn read(rt: &impl Abort, alloc: Global, stacks: &Stacks, keeps: bool, values: &[u32]) {
    let mut reader = reader_of(rt, alloc, stacks, keeps);
    look_along(rt, stacks, &mut reader, &ORDER, values);
    drop(reader);
}

// Compares the first entries of variable 0, by a reader of each kind.
fn read_by_both(rt: &impl Abort, alloc: Global, stacks: &Stacks, values: &[u32]) {
    read(rt, alloc, stacks, false, values);
    read(rt, alloc, stacks, true, values);
}

// Compares the first entries of variable 0 under the key of zeros.
fn has_values(rt: &impl Abort, alloc: Global, weights: Weights, values: &[u32]) {
    let stacks = Stacks::new(StackSpec::Key([0; 32]), weights, 64).expect(rt, "stacks");
    read_by_both(rt, alloc, &stacks, values);
    drop(stacks);
}

// Weights of variable 0, and the values of its entries 0 to 7. The numbers of these entries are
// the words of RFC 8439, A.1, vector 1. They were scaled and compared with the sums of the weights
// by hand.
static WEIGHTS: [(&[u32], &[u32]); 5] = [
    (&[1, 1], &[1, 0, 0, 1, 1, 0, 0, 1]),
    (&[1, 1, 1], &[1, 0, 0, 2, 1, 0, 0, 1]),
    (&[2, 1], &[0, 0, 0, 1, 0, 0, 0, 0]),
    (&[5, 1], &[0, 0, 0, 0, 0, 0, 0, 0]),
    (&[1, 5], &[1, 0, 0, 1, 1, 1, 0, 1]),
];

#[test]
fn a_value_is_the_least_whose_weights_exceed_the_scaled_number(rt: HostRuntime) {
    let alloc = rt.alloc();
    has_values(&rt, alloc, Weights::pairs(1), WEIGHTS[0].1);
    for (weights, values) in WEIGHTS.iter() {
        let weights = tables::weights(&rt, alloc, &[*weights]);
        has_values(&rt, alloc, weights, values);
    }
}

// These weights of variable 0, in one array with those of another variable.
fn flat(rt: &impl Abort, alloc: Global, weights: &[u32]) -> Weights {
    let is_good = tables::are_weights(weights) && weights.len() < 9;
    assert!(rt; is_good);
    let mut rows = RowList::with_room(alloc, 2, 8).expect(rt, "memory");
    rows.push_row(weights).expect(rt, "memory");
    rows.push_row(&[7]).expect(rt, "memory");
    Weights::of(Rows::flat(rows))
}

// The same weights in one array give the same values.
#[test]
fn weights_in_one_array_give_the_same_values(rt: HostRuntime) {
    let alloc = rt.alloc();
    for (weights, values) in WEIGHTS.iter() {
        let weights = flat(&rt, alloc, weights);
        has_values(&rt, alloc, weights, values);
    }
}

// Two weights of 1 for variable 0, and weights of other variables.
fn two_ones(rt: &impl Abort, alloc: Global) -> Weights {
    let lengths = Vec::from_slice(alloc, &[2, 4, 1]).expect(rt, "memory");
    Weights::of(Rows::ones(alloc, lengths).expect(rt, "memory"))
}

// Three weights of 1 for variable 0, and one for another variable.
fn three_ones(rt: &impl Abort, alloc: Global) -> Weights {
    let lengths = Vec::from_slice(alloc, &[3, 1]).expect(rt, "memory");
    Weights::of(Rows::ones(alloc, lengths).expect(rt, "memory"))
}

// The same weights as prefixes of one list give the same values.
#[test]
fn weights_of_one_give_the_same_values(rt: HostRuntime) {
    let alloc = rt.alloc();
    has_values(&rt, alloc, two_ones(&rt, alloc), WEIGHTS[0].1);
    has_values(&rt, alloc, three_ones(&rt, alloc), WEIGHTS[1].1);
}

// The first values of variable 0 under the key of zeros: RFC 8439, A.1, vector 1.
static VALUES: [u32; 8] = [1, 0, 0, 1, 1, 0, 0, 1];

// Reads variable 0 alternately with variables that share its place among the kept refills: 16 and
// 32 do.
fn looks_beside_others(rt: &impl Abort, stacks: &Stacks, reader: &mut Reader)
    requires { Belongs stacks.now reader.old }
{
    look_along(rt, stacks, reader, &[0, 7], &VALUES);
    let sixteenth = entry_of(rt, stacks, reader, 16, 1);
    look_along(rt, stacks, reader, &[1, 6], &VALUES);
    let _first = entry_of(rt, stacks, reader, 1, 63);
    look(rt, stacks, reader, 16, 1, sixteenth);
    look_along(rt, stacks, reader, &[3, 2], &VALUES);
    let _last = entry_of(rt, stacks, reader, 32, 32);
    look_along(rt, stacks, reader, &[4, 5], &VALUES);
    look(rt, stacks, reader, 16, 1, sixteenth);
}

// The reads of `looks_beside_others` by a reader of this kind.
fn read_beside(rt: &impl Abort, alloc: Global, stacks: &Stacks, keeps: bool) {
    let mut reader = reader_of(rt, alloc, stacks, keeps);
    looks_beside_others(rt, stacks, &mut reader);
    drop(reader);
}

#[test]
fn a_look_at_another_variable_changes_no_answer(rt: HostRuntime) {
    let spec = StackSpec::Key([0; 32]);
    let stacks = Stacks::new(spec, Weights::pairs(40), 64).expect(&rt, "stacks");
    same(&rt, stacks.count(), 40, "variables", 0);
    for v in [1, 16, 32].iter() {
        has_room(&rt, &stacks, *v, 64, 2);
    }
    read_beside(&rt, rt.alloc(), &stacks, false);
    read_beside(&rt, rt.alloc(), &stacks, true);
    drop(stacks);
}

/// Compares an entry from a reader with a cache with the entry from a new reader.
pub fn compare(rt: &impl Abort, stacks: &Stacks, keeping: &mut Reader, v: u32, k: u32)
    requires { Belongs stacks.now keeping.old }
    ensures { Belongs stacks.now keeping.new }
{
    let value = entry_of(rt, stacks, keeping, v, k);
    look_afresh(rt, stacks, v, k, value);
}

// Compares entries in steps that go over all variables, places and groups, back and forth.
fn compare_in_jumps(rt: &impl Abort, stacks: &Stacks, keeping: &mut Reader, count: u32, height: u32)
    requires belongs { Belongs stacks.now keeping.old }
    requires some { 0 < count }
    requires room { 0 < height }
    ensures { Belongs stacks.now keeping.new }
{
    for step in 0..300 {
        compare(rt, stacks, keeping, step % count, step * 37 % height);
        let place = height - 1 - step % height;
        compare(rt, stacks, keeping, step / 3 % count, place);
    }
}

// Compares entries of stacks of this height by a reader with a cache.
fn compare_kept(rt: &impl Abort, alloc: Global, stacks: &Stacks, height: u32)
    requires { 0 < height }
{
    let count = stacks.count();
    assert!(rt; count > 0);
    let mut keeping = Reader::keeping(alloc, stacks).expect(rt, "memory");
    compare_in_jumps(rt, stacks, &mut keeping, count, height);
    drop(keeping);
}

// Compares entries under these weights at a height.
fn compare_under(rt: &impl Abort, alloc: Global, weights: Weights, height: u32)
    requires { (0 < height) × (height < 2 ^ 31) }
{
    let stacks = Stacks::new(StackSpec::Key([3; 32]), weights, height).expect(rt, "stacks");
    compare_kept(rt, alloc, &stacks, height);
    drop(stacks);
}

// Rows of weights: a variable has up to two values, up to four, or more.
static DOMAINS: [&[&[u32]]; 3] = [
    &[&[9], &[2, 1], &[1, 5]],
    &[&[2, 1], &[1, 1, 1, 1]],
    &[&[1, 1, 1], &[3, 1, 4, 1, 5, 9]],
];

// Compares entries under the weights of each of these rows, and under pairs, at a height.
fn compare_at_height(rt: &impl Abort, alloc: Global, height: u32)
    requires { (0 < height) × (height < 2 ^ 31) }
{
    compare_under(rt, alloc, Weights::pairs(5), height);
    for table in DOMAINS.iter() {
        let weights = tables::weights(rt, alloc, table);
        compare_under(rt, alloc, weights, height);
    }
}

// A group has 32 entries. The last entry at the largest height is in the last group.
#[test]
fn kept_values_are_the_entries_at_any_height(rt: HostRuntime) {
    let alloc = rt.alloc();
    compare_at_height(&rt, alloc, 1);
    compare_at_height(&rt, alloc, 31);
    compare_at_height(&rt, alloc, 32);
    compare_at_height(&rt, alloc, 33);
    compare_at_height(&rt, alloc, 200);
    compare_at_height(&rt, alloc, (1 << 31) - 1);
}

// Compares the entries of the rows 0, 2, 1 and 1, by a reader of this kind.
fn read_rows(rt: &impl Abort, alloc: Global, stacks: &Stacks, keeps: bool) {
    let mut reader = reader_of(rt, alloc, stacks, keeps);
    look_along(rt, stacks, &mut reader, &[2, 0, 1], &[0, 2, 1]);
    look(rt, stacks, &mut reader, 1, 0, 1);
    drop(reader);
}

// Compares the number of entries of a variable, and of its values.
fn has_room(rt: &impl Abort, stacks: &Stacks, v: u32, height: u32, domain: u32) {
    assert!(rt; v < stacks.count());
    same(rt, stacks.height(v), height, "height of variable", v);
    same(rt, stacks.domain(v), domain, "domain of variable", v);
}

// The stacks of the rows 0, 2, 1 and 1 under weights of three values and of two.
fn given(rt: &impl Abort, alloc: Global) -> Stacks {
    let weights = tables::weights(rt, alloc, &[&[1, 1, 1], &[1, 3]]);
    let rows = tables::rows(rt, alloc, &[&[0, 2, 1], &[1]]);
    Stacks::new(StackSpec::Given(rows), weights, 1).expect(rt, "stacks")
}

// Compares the numbers of variables, entries and values, and the entries.
#[test]
fn given_rows_are_read_as_they_stand(rt: HostRuntime) {
    let alloc = rt.alloc();
    let stacks = given(&rt, alloc);
    same(&rt, stacks.count(), 2, "variables", 0);
    has_room(&rt, &stacks, 0, 3, 3);
    has_room(&rt, &stacks, 1, 1, 2);
    read_rows(&rt, alloc, &stacks, false);
    read_rows(&rt, alloc, &stacks, true);
    drop(stacks);
}

// RFC 8439, A.1, vector 5: the key of zeros, and a nonce with the last word 2^25. As a stream
// number of 64 bits that is stream 0 of sample 2^25. With two equal weights the top bit of the
// high word chooses.
#[test]
fn each_sample_has_streams_of_its_own(rt: HostRuntime) {
    let alloc = rt.alloc();
    let spec = StackSpec::Key([0; 32]);
    let first = Stacks::new(spec, Weights::pairs(1), 64).expect(&rt, "stacks");
    let stacks = first.for_sample(alloc, 1 << 25).expect(&rt, "memory");
    drop(first);
    read_by_both(&rt, alloc, &stacks, &[0, 1, 1, 1, 1, 1, 0, 0]);
    drop(stacks);
}

// The values are those of the first test, under the key of zeros.
#[test]
fn a_reader_goes_on_when_its_stacks_are_raised(rt: HostRuntime) {
    let spec = StackSpec::Key([0; 32]);
    let mut stacks = Stacks::new(spec, Weights::pairs(1), 8).expect(&rt, "stacks");
    let mut reader = Reader::keeping(rt.alloc(), &stacks).expect(&rt, "memory");
    look(&rt, &stacks, &mut reader, 0, 7, 1);
    stacks.raise(64);
    has_room(&rt, &stacks, 0, 64, 2);
    look_along(&rt, &stacks, &mut reader, &ORDER, &VALUES);
    drop(reader);
    drop(stacks);
}
