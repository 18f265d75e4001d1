ghost use Rattle.std.specs.Prelude.{◌<◌, ℕ, length};
ghost use Rattle.pop_model.specs.Stacks.{IsKeyed, variables_of};
ghost use Rattle.pop_model.specs.Extremal.{IsExtremal};
ghost use Rattle.confluence_core.specs.Runs.{IsEndOver};
ghost use Rattle.pop_batch.specs.Batches.{AreEnds};

use crate::compare::{is_so, same, same_at};
use confluence_core::{End, Stuck, run_first};
use instances::{cycles, listed};
use pop_batch::{Ends, batch, batch_alone};
use pop_instance::Instance;
use pop_stacks::Stacks;
use std::alloc::Global;
use std::process::Abort;
use std::thread::Threads;
use test_instances::EventRow;

mod instances;

// The cursor of a variable at an end, and its value there.
fn shown(stacks: &Stacks, end: &End, v: u32) -> (u32, u32)
    requires over { IsEndOver stacks.now end.now }
    requires variable { v < variables_of stacks.now }
{
    let _count = stacks.count();
    (end.cursors.get(v), end.values.get(v))
}

// Compares the cursor of a variable and its value there.
fn same_shown(rt: &impl Abort, found: (u32, u32), want: (u32, u32), v: u32) {
    same_at(rt, found.0, want.0, "cursor of variable", v as u64);
    same_at(rt, found.1, want.1, "value of variable", v as u64);
}

// Compares an event of two lists of stuck events.
fn same_stuck(rt: &impl Abort, stuck: &Stuck, others: &Stuck, i: u64)
    requires stuck { i < length stuck.now }
    requires others { i < length others.now }
{
    let (unit, cube) = stuck.at(i);
    let (other_unit, other_cube) = others.at(i);
    same_at(rt, unit, other_unit, "stuck event", i);
    is_so(rt, *cube == *other_cube, "stuck event", i);
}

// Compares two lists of stuck events.
fn are_stuck_alike(rt: &impl Abort, stuck: &Stuck, others: &Stuck) {
    let count = others.len();
    assert!(rt; stuck.len() == count);
    for i in 0..count {
        same_stuck(rt, stuck, others, i);
    }
}

// Compares two ends over the same stacks.
fn are_alike(rt: &impl Abort, stacks: &Stacks, end: &End, other: &End)
    requires over { IsEndOver stacks.now end.now }
    requires other { IsEndOver stacks.now other.now }
{
    for v in 0..stacks.count() {
        same_shown(rt, shown(stacks, end, v), shown(stacks, other, v), v);
    }
    same(rt, end.pops, other.pops, "pops");
    are_stuck_alike(rt, &end.stuck, &other.stuck);
}

// Compares an end with that of the one-thread run on an instance.
fn ends_as_first(rt: &impl Abort, alloc: Global, sample: &Instance, end: &End)
    requires { IsEndOver sample.now.stacks end.now }
{
    let first = run_first(alloc, sample).expect(rt, "memory");
    are_alike(rt, sample.stacks(), end, &first);
    drop(first);
}

// Compares the end of sample j with that of the one-thread run on an instance of its own.
fn is_that_of_first(rt: &impl Abort, alloc: Global, instance: &Instance, ends: &Ends, j: u32)
    requires keyed { IsKeyed instance.now.stacks.origin }
    requires ends { (count : ℕ) × AreEnds instance.now count ends.now }
    requires known { j < length ends.now }
{
    let end = ends.at(j);
    let sample = instance.for_sample(alloc, j).expect(rt, "memory");
    ends_as_first(rt, alloc, &sample, end);
    drop(sample);
}

// Compares the ends of three samples of an instance with those of one-thread runs.
fn are_those_of_first(rt: &impl Abort, alloc: Global, instance: &Instance, ends: &Ends)
    requires keyed { IsKeyed instance.now.stacks.origin }
    requires ends { (count : ℕ) × AreEnds instance.now count ends.now }
{
    assert!(rt; ends.len() == 3);
    for j in 0..3 {
        is_that_of_first(rt, alloc, instance, ends, j);
    }
}

// Compares three samples that are run on this thread with one-thread runs.
fn three_alone(rt: &impl Abort, alloc: Global, instance: &Instance)
    requires keyed { IsKeyed instance.now.stacks.origin }
    requires extremal { IsExtremal instance.now.family }
{
    let ends = batch_alone(alloc, instance, 3).expect(rt, "memory");
    are_those_of_first(rt, alloc, instance, &ends);
    drop(ends);
}

// Compares three samples of an instance, run in parallel and on this thread, with one-thread runs.
// Returns whether one is stuck.
fn three_samples<R: Threads + Abort + Sync>(rt: &R, alloc: Global, instance: &Instance) -> bool
    requires keyed { IsKeyed instance.now.stacks.origin }
    requires extremal { IsExtremal instance.now.family }
{
    three_alone(rt, alloc, instance);
    let ends = batch(rt, alloc, instance, 3).expect(rt, "memory");
    are_those_of_first(rt, alloc, instance, &ends);
    let stuck = ends.some_stuck();
    drop(ends);
    stuck
}

// The clauses 1 2, -1 3 and -2 -3. The event of each is that its literals are false.
static FORMULA: [EventRow; 3] = [
    (1, &[(0, 0), (1, 0)]),
    (2, &[(0, 1), (2, 0)]),
    (3, &[(1, 1), (2, 1)]),
];

// The sinks of the triangle with the edges 1 2, 2 3 and 1 3. With value 0 an edge points to its
// second vertex.
static SINKS: [EventRow; 3] = [
    (1, &[(0, 1), (2, 1)]),
    (2, &[(0, 0), (1, 1)]),
    (3, &[(1, 0), (2, 0)]),
];

// A square without diagonals. One vertex is the root, and the others have an arrow in each
// direction.
static SQUARE: [[Option<u32>; 2]; 3] = [[None, Some(1)], [Some(0), Some(2)], [Some(1), None]];

// Compares samples of events at this height, and returns whether one is stuck.
fn are_events_stuck<R: Threads + Abort + Sync>(
    rt: &R,
    alloc: Global,
    height: u32,
    table: &[EventRow],
) -> bool {
    let instance = listed(rt, alloc, 3, height, table);
    let answer = three_samples(rt, alloc, &instance);
    drop(instance);
    answer
}

// Compares samples of the square at this height, and returns whether one is stuck.
fn is_square_stuck<R: Threads + Abort + Sync>(rt: &R, alloc: Global, height: u32) -> bool {
    let square = cycles(rt, alloc, height, &SQUARE);
    let answer = three_samples(rt, alloc, &square);
    drop(square);
    answer
}

// Compares samples of the three instances at this height, and returns whether one is stuck.
fn is_some_stuck<R: Threads + Abort + Sync>(rt: &R, alloc: Global, height: u32) -> bool {
    let formula = are_events_stuck(rt, alloc, height, &FORMULA);
    let sinks = are_events_stuck(rt, alloc, height, &SINKS);
    let square = is_square_stuck(rt, alloc, height);
    formula || sinks || square
}

#[test]
fn each_sample_ends_as_the_run_on_its_own_stacks(rt: HostRuntime) {
    let alloc = rt.alloc();
    let high = is_some_stuck(&rt, alloc, 900);
    assert!(&rt; !high);
    let low = is_some_stuck(&rt, alloc, 1);
    assert!(&rt; low);
    is_some_stuck(&rt, alloc, 2);
}

// For each variable the event that it has the value 0.
static ZEROS: [EventRow; 8] = [
    (1, &[(0, 0)]),
    (2, &[(1, 0)]),
    (3, &[(2, 0)]),
    (4, &[(3, 0)]),
    (5, &[(4, 0)]),
    (6, &[(5, 0)]),
    (7, &[(6, 0)]),
    (8, &[(7, 0)]),
];

// For samples 0 to 3 the first entry of each variable that is 1, computed by a separate ChaCha20
// (RFC 8439, 2.3). With two equal weights the top bit of the high word chooses. Variable v of
// sample j has the stream j * 2^32 + v.
static FIRST_ONES: [[u32; 8]; 4] = [
    [0, 0, 1, 2, 1, 0, 1, 0],
    [0, 0, 3, 1, 0, 3, 0, 5],
    [0, 1, 2, 4, 0, 1, 1, 0],
    [4, 0, 0, 1, 0, 0, 0, 4],
];

// Compares the cursors of an end with a row. The values there must be 1.
fn are_first_ones(rt: &impl Abort, stacks: &Stacks, end: &End, row: &[u32])
    requires over { IsEndOver stacks.now end.now }
{
    let count = stacks.count();
    assert!(rt; row.len() == count as usize);
    for v in 0..count {
        same_shown(rt, shown(stacks, end, v), (row[v as usize], 1), v);
    }
}

// Compares sample j of the events `ZEROS` with its row.
fn is_sample_of_ones(rt: &impl Abort, alloc: Global, instance: &Instance, ends: &Ends, j: u32)
    requires keyed { IsKeyed instance.now.stacks.origin }
    requires ends { (count : ℕ) × AreEnds instance.now count ends.now }
    requires known { j < length ends.now }
    requires few { j < 4 }
{
    let end = ends.at(j);
    let own = instance.stacks().for_sample(alloc, j).expect(rt, "memory");
    are_first_ones(rt, &own, end, &FIRST_ONES[j as usize]);
    drop(own);
}

// Compares four samples of the events `ZEROS` with their rows.
fn are_samples_of_ones(rt: &impl Abort, alloc: Global, instance: &Instance, ends: &Ends)
    requires keyed { IsKeyed instance.now.stacks.origin }
    requires ends { (count : ℕ) × AreEnds instance.now count ends.now }
{
    assert!(rt; ends.len() == 4);
    for j in 0..4 {
        is_sample_of_ones(rt, alloc, instance, ends, j);
    }
}

// Runs four samples of the events `ZEROS`, and compares them with their rows.
fn four_samples<R: Threads + Abort + Sync>(rt: &R, alloc: Global, instance: &Instance)
    requires keyed { IsKeyed instance.now.stacks.origin }
    requires extremal { IsExtremal instance.now.family }
{
    let ends = batch(rt, alloc, instance, 4).expect(rt, "memory");
    are_samples_of_ones(rt, alloc, instance, &ends);
    drop(ends);
}

// Compares the one-thread run of the events `ZEROS` with the first row.
fn first_is_of_ones(rt: &impl Abort, alloc: Global, instance: &Instance) {
    let first = run_first(alloc, instance).expect(rt, "memory");
    are_first_ones(rt, instance.stacks(), &first, &FIRST_ONES[0]);
    drop(first);
}

// Compares the one-thread run and four samples of the events `ZEROS` with their rows.
fn all_are_of_ones<R: Threads + Abort + Sync>(rt: &R, alloc: Global, instance: &Instance)
    requires keyed { IsKeyed instance.now.stacks.origin }
    requires extremal { IsExtremal instance.now.family }
{
    first_is_of_ones(rt, alloc, instance);
    four_samples(rt, alloc, instance);
}

// The one-thread run on the instance itself is sample 0.
#[test]
fn each_sample_has_the_entries_of_its_own_streams(rt: HostRuntime) {
    let alloc = rt.alloc();
    let instance = listed(&rt, alloc, 8, 64, &ZEROS);
    all_are_of_ones(&rt, alloc, &instance);
    drop(instance);
}

// Compares the number of ends of a batch of this many samples, and whether it is stuck.
fn batch_is<R: Threads + Abort + Sync>(
    rt: &R,
    alloc: Global,
    instance: &Instance,
    count: u32,
    stuck: bool,
)
    requires keyed { IsKeyed instance.now.stacks.origin }
    requires extremal { IsExtremal instance.now.family }
{
    let ends = batch(rt, alloc, instance, count).expect(rt, "memory");
    same(rt, ends.len() as u64, count as u64, "samples");
    is_so(rt, ends.some_stuck() == stuck, "samples", count as u64);
    drop(ends);
}

// Compares batches of three samples, of one more, and of none.
fn three_batches<R: Threads + Abort + Sync>(rt: &R, alloc: Global, instance: &Instance)
    requires keyed { IsKeyed instance.now.stacks.origin }
    requires extremal { IsExtremal instance.now.family }
{
    batch_is(rt, alloc, instance, 3, false);
    batch_is(rt, alloc, instance, 4, true);
    batch_is(rt, alloc, instance, 0, false);
}

// The event that variable 0 has the value 0.
static ZERO: [EventRow; 1] = [(1, &[(0, 0)])];

// Variable 0 is 1 at its first entry in samples 0 to 2. It is 0 in sample 3, and has no second
// entry there.
#[test]
fn a_batch_with_one_stuck_sample_is_stuck(rt: HostRuntime) {
    let alloc = rt.alloc();
    let instance = listed(&rt, alloc, 1, 1, &ZERO);
    three_batches(&rt, alloc, &instance);
    drop(instance);
}
