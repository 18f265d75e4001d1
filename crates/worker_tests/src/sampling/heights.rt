//! Heights that grow.
ghost use Rattle.std.specs.Prelude.{◌≡◌, ◌<◌, ◌≤◌, ℕ, length};
ghost use Rattle.pop_model.specs.Stacks.{variables_of, height_of, IsKeyed};

use super::chains::chained;
use super::trees::tree_under_key;
use super::{is_alike, under_key};
use crate::comparing::same_at;
use crate::made::made;
use confluence_core::{Keep, run_first};
use pop_instance::{Family, Instance};
use pop_log::{Replay, replay};
use pop_workers::{NoGate, Outcome, sample_grown};
use std::alloc::Global;
use std::process::Abort;
use std::sync::Wait;
use std::thread::Threads;
use test_instances::{cube, family};

// Whether workers claim words or share a book, and the number of workers.
static BOARDS: [(bool, u32); 5] = [(false, 1), (true, 1), (false, 2), (true, 2), (true, 8)];

// Runs an instance in stages, up to this height.
fn grown<R: Threads + Wait + Abort + Sync>(
    rt: &R,
    alloc: Global,
    instance: &mut Instance,
    last: u32,
    board: (bool, u32),
) -> Outcome
    requires keyed { IsKeyed instance.old.stacks.origin }
    requires higher { (v : ℕ) → height_of instance.old.stacks v ≤ last }
    requires short { last < 1000 }
    ensures { variables_of instance.new.stacks ≡ length result.end.cursors }
{
    let (claimed, workers) = board;
    assert!(rt; 0 < workers);
    assert!(rt; workers <= 64);
    let keep = Keep::Log;
    let run = sample_grown(rt, alloc, instance, last, claimed, workers, keep, &NoGate);
    run.expect(rt, "memory")
}

// The values of variable 0 under the key of zeros (RFC 8439, A.1, vector 1: the high bits of every
// second word).
static VALUES: [u32; 8] = [1, 0, 0, 1, 1, 0, 0, 1];

// For each of these values the event that variable 0 has it. The number of the event is the value.
fn each_value(rt: &impl Abort, alloc: Global, values: &[u32]) -> Family {
    let mut rows = Vec::new(alloc);
    for value in values {
        let cube = made(rt, cube(alloc, &[(0, *value)]));
        rows.push((*value, cube)).expect(rt, "memory");
    }
    made(rt, family(alloc, rows))
}

// The events of `each_value` over stacks of this height under the key of zeros.
fn of_values(rt: &impl Abort, alloc: Global, values: &[u32], height: u32) -> Instance
    ensures keyed { IsKeyed result.stacks.origin }
    ensures height { (v : ℕ) → height_of result.stacks v ≡ height }
{
    let family = each_value(rt, alloc, values);
    under_key(rt, 1, 0, height, family)
}

// The first and the last height; the expected numbers of pops and of stuck events, and the height
// at the end.
struct Row {
    first: u32,
    last: u32,
    pops: u64,
    stuck: u64,
    left: u32,
}

// Worked by hand: the event that variable 0 has the value 1. Entry 0 has it, and entry 1 does not.
static ONE_VALUE: [Row; 4] = [
    Row {
        first: 1,
        last: 8,
        pops: 1,
        stuck: 0,
        left: 2,
    },
    Row {
        first: 1,
        last: 1,
        pops: 0,
        stuck: 1,
        left: 1,
    },
    Row {
        first: 3,
        last: 8,
        pops: 1,
        stuck: 0,
        left: 3,
    },
    Row {
        first: 8,
        last: 8,
        pops: 1,
        stuck: 0,
        left: 8,
    },
];

// Worked by hand: an event for each value, so that all entries except the last are used.
static BOTH_VALUES: [Row; 3] = [
    Row {
        first: 1,
        last: 8,
        pops: 7,
        stuck: 1,
        left: 8,
    },
    Row {
        first: 1,
        last: 6,
        pops: 5,
        stuck: 1,
        left: 6,
    },
    Row {
        first: 3,
        last: 7,
        pops: 6,
        stuck: 1,
        left: 7,
    },
];

// Compares two counts of a row.
fn same_in(rt: &impl Abort, found: u64, want: u64, what: &str, row: &Row) {
    let Row { first, last, .. } = row;
    assert!(rt; found == want, "{what} from {first} to {last}");
}

// Compares a run in stages of one variable with a row.
fn is_left(rt: &impl Abort, instance: &Instance, run: &Outcome, row: &Row) {
    same_in(rt, run.end.pops, row.pops, "pops", row);
    same_in(rt, run.end.stuck.len(), row.stuck, "stuck events", row);
    assert!(rt; instance.stacks().count() == 1);
    let height = instance.stacks().height(0);
    same_in(rt, height as u64, row.left as u64, "height", row);
    let Some(log) = &run.log else {
        panic!(rt; "no log");
    };
    same_in(rt, log.len(), row.pops, "records", row);
}

// Compares the log of pops of variable 0 with its values: the unit of each event is its value.
fn are_values(rt: &impl Abort, run: &Outcome) {
    let Some(log) = &run.log else {
        panic!(rt; "no log");
    };
    for (i, value) in VALUES.iter().enumerate() {
        let place = i as u64;
        if place < log.len() {
            same_at(rt, log.at(place).unit(), *value, "pop", place);
        }
    }
}

// Runs an instance by the heights of a row, on one board.
fn leaves<R: Threads + Wait + Abort + Sync>(
    rt: &R,
    alloc: Global,
    instance: &mut Instance,
    row: &Row,
    board: (bool, u32),
) -> Outcome
    requires keyed { IsKeyed instance.old.stacks.origin }
    requires height { (v : ℕ) → height_of instance.old.stacks v ≡ row.now.first }
{
    assert!(rt; row.first <= row.last);
    assert!(rt; row.last < 1000);
    let run = grown(rt, alloc, instance, row.last, board);
    is_left(rt, instance, &run, row);
    run
}

// Runs the events of these values by the heights of a row, on one board.
fn grows_as<R: Threads + Wait + Abort + Sync>(
    rt: &R,
    alloc: Global,
    values: &[u32],
    row: &Row,
    board: (bool, u32),
) -> Outcome {
    let mut instance = of_values(rt, alloc, values, row.first);
    let run = leaves(rt, alloc, &mut instance, row, board);
    drop(instance);
    run
}

// Compares the runs on each board with a row, for the event of value 1.
fn one_value_grows<R: Threads + Wait + Abort + Sync>(rt: &R, alloc: Global, row: &Row) {
    for board in BOARDS.iter() {
        let run = grows_as(rt, alloc, &[1], row, *board);
        drop(run);
    }
}

#[test]
fn heights_grow_until_no_event_occurs(rt: HostRuntime) {
    let alloc = rt.alloc();
    for row in ONE_VALUE.iter() {
        one_value_grows(&rt, alloc, row);
    }
}

// Compares the runs on each board with a row, for the events of both values.
fn both_values_grow<R: Threads + Wait + Abort + Sync>(rt: &R, alloc: Global, row: &Row) {
    for board in BOARDS.iter() {
        let run = grows_as(rt, alloc, &[0, 1], row, *board);
        are_values(rt, &run);
        drop(run);
    }
}

#[test]
fn stages_use_the_entries_in_their_order_up_to_the_last(rt: HostRuntime) {
    let alloc = rt.alloc();
    for row in BOTH_VALUES.iter() {
        both_values_grow(&rt, alloc, row);
    }
}

// Tests that the log of a run is legal for the instance.
fn is_legal(rt: &impl Abort, alloc: Global, instance: &Instance, run: &Outcome) {
    let Some(log) = &run.log else {
        panic!(rt; "no log");
    };
    let replayed = replay(alloc, instance, log).expect(rt, "memory");
    assert!(rt;
        matches!(replayed, Replay::Legal(_)),
        "a log that isn't legal"
    );
    drop(replayed);
}

// Compares a run over this many variables with the one-thread run. Returns the number of stuck
// events.
fn ends_as_first(rt: &impl Abort, alloc: Global, tall: &Instance, run: &Outcome, count: u32) -> u64
    requires tall { variables_of tall.now.stacks ≡ count }
    requires run { length run.now.end.cursors ≡ count }
{
    let first = run_first(alloc, tall).expect(rt, "memory");
    is_alike(rt, run, &first, count);
    let stuck = first.stuck.len();
    drop(first);
    stuck
}

// Compares a run in stages with the one-thread run at the last height. Its log must be legal
// there. Returns the number of stuck events.
fn ends_as(
    rt: &impl Abort,
    alloc: Global,
    tall: &Instance,
    instance: &Instance,
    run: &Outcome,
) -> u64
    requires { variables_of instance.now.stacks ≡ length run.now.end.cursors }
{
    let count = tall.stacks().count();
    assert!(rt; instance.stacks().count() == count);
    is_legal(rt, alloc, tall, run);
    ends_as_first(rt, alloc, tall, run, count)
}

// A chain of 20 links, or random arrows of 70 variables.
#[derive(Clone, Copy)]
enum Kind {
    Chain,
    Tree,
}

// A key that has this byte 32 times, and the first and the last height.
#[derive(Clone, Copy)]
struct Growth {
    kind: Kind,
    key: u8,
    first: u32,
    last: u32,
}

// The instance of this kind.
fn of_kind(rt: &impl Abort, alloc: Global, kind: Kind, key: u8, height: u32) -> Instance
    ensures keyed { IsKeyed result.stacks.origin }
    ensures height { (v : ℕ) → height_of result.stacks v ≡ height }
{
    match kind {
        Kind::Chain => chained(rt, alloc, 20, key, height),
        Kind::Tree => tree_under_key(rt, alloc, &mut 2026, 70, key, height),
    }
}

// Grows an instance to the height of a tall one, and compares the run.
fn grows_to<R: Threads + Wait + Abort + Sync>(
    rt: &R,
    alloc: Global,
    tall: &Instance,
    instance: &mut Instance,
    growth: &Growth,
    board: (bool, u32),
) -> u64
    requires keyed { IsKeyed instance.old.stacks.origin }
    requires height { (v : ℕ) → height_of instance.old.stacks v ≡ growth.now.first }
{
    assert!(rt; growth.first <= growth.last);
    assert!(rt; growth.last < 1000);
    let run = grown(rt, alloc, instance, growth.last, board);
    let stuck = ends_as(rt, alloc, tall, instance, &run);
    drop(run);
    stuck
}

// Grows an instance to the height of a tall one.
fn grows_beside<R: Threads + Wait + Abort + Sync>(
    rt: &R,
    alloc: Global,
    tall: &Instance,
    growth: &Growth,
    board: (bool, u32),
) -> u64 {
    let mut instance = of_kind(rt, alloc, growth.kind, growth.key, growth.first);
    let stuck = grows_to(rt, alloc, tall, &mut instance, growth, board);
    drop(instance);
    stuck
}

// Grows an instance, and compares the run.
fn grows<R: Threads + Wait + Abort + Sync>(
    rt: &R,
    alloc: Global,
    growth: &Growth,
    board: (bool, u32),
) -> u64 {
    let tall = of_kind(rt, alloc, growth.kind, growth.key, growth.last);
    let stuck = grows_beside(rt, alloc, &tall, growth, board);
    drop(tall);
    stuck
}

// Keys, first heights and last heights of chains.
static CHAINS: [(u8, u32, u32); 4] = [(3, 1, 900), (77, 2, 900), (3, 1, 2), (200, 1, 4)];

// Keys, first heights and last heights of trees.
static TREES: [(u8, u32, u32); 4] = [(0, 1, 900), (77, 2, 900), (5, 1, 2), (200, 1, 3)];

// Grows the instances of a table on one board. Returns the largest number of stuck events.
fn all_grow<R: Threads + Wait + Abort + Sync>(
    rt: &R,
    alloc: Global,
    kind: Kind,
    table: &[(u8, u32, u32)],
    board: (bool, u32),
) -> u64 {
    let mut most = 0;
    for (key, first, last) in table {
        let growth = Growth {
            kind,
            key: *key,
            first: *first,
            last: *last,
        };
        most = grows(rt, alloc, &growth, board).max(most);
    }
    most
}

#[test]
fn stages_end_as_the_one_thread_run_at_the_last_height(rt: HostRuntime) {
    let alloc = rt.alloc();
    let mut most_stuck = 0;
    for board in BOARDS.iter() {
        most_stuck = all_grow(&rt, alloc, Kind::Chain, &CHAINS, *board).max(most_stuck);
        most_stuck = all_grow(&rt, alloc, Kind::Tree, &TREES, *board).max(most_stuck);
    }
    assert!(&rt; most_stuck > 0);
}
