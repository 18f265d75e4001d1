use crate::instances::{of_arrows, of_events};
use crate::records::popped_with;
use confluence_core::Log;
use pop_instance::Instance;
use pop_log::{Replay, replay};
use std::alloc::Global;
use std::process::Abort;
use test_instances::EventRow;

// The log of pops, each of a unit, a variable below 10 with value 0, and its entry.
fn log_of(rt: &impl Abort, alloc: Global, pops: &[(u32, u32, u32)]) -> Log {
    let mut log = Log::new(alloc);
    for (unit, v, entry) in pops {
        let popped = popped_with(rt, alloc, 10, *unit, &[*v], &[*entry]);
        log.push(popped).expect(rt, "memory");
    }
    log
}

// The cursor of variable 0 after a log, or the place of its first record that is not legal.
fn left_by(rt: &impl Abort, alloc: Global, instance: &Instance, log: &Log) -> Result<u32, u64> {
    assert!(rt; 0 < instance.stacks().count());
    let end = replay(alloc, instance, log).expect(rt, "memory");
    match end {
        Replay::Legal(cursors) => Ok(cursors.get(0)),
        Replay::NotLegal(place) => Err(place),
    }
}

// Replays the pops. Compares the cursor of variable 0 after them, or the place of the first one
// that is not legal.
fn is_replay(
    rt: &impl Abort,
    alloc: Global,
    instance: &Instance,
    pops: &[(u32, u32, u32)],
    want: Result<u32, u64>,
) {
    let log = log_of(rt, alloc, pops);
    let found = left_by(rt, alloc, instance, &log);
    drop(log);
    assert!(rt; found == want, "{pops:?}: {found:?}, not {want:?}");
}

// Replays each of these logs.
fn are_replays(
    rt: &impl Abort,
    alloc: Global,
    instance: &Instance,
    cases: &[(&[(u32, u32, u32)], Result<u32, u64>)],
) {
    for (pops, want) in cases {
        is_replay(rt, alloc, instance, pops, *want);
    }
}

// Variable 0 has the entries 0, 0, 0 and variable 1 the entries 1, 0. Events 0 and 1 demand the
// value 0 of variable 0 and of variable 1.
static ROWS: [&[u32]; 2] = [&[0, 0, 0], &[1, 0]];

static EVENTS: [EventRow; 2] = [(1, &[(0, 0)]), (2, &[(1, 0)])];

// Pops of the listed events, and the cursor of variable 0 after them, or the place of the first
// one that is not legal. Worked by hand.
static LOGS: [(&[(u32, u32, u32)], Result<u32, u64>); 9] = [
    (&[], Ok(0)),
    (&[(0, 0, 0), (0, 0, 1)], Ok(2)),
    // an entry again, an entry too early, the last entry
    (&[(0, 0, 0), (0, 0, 0), (0, 0, 0)], Err(1)),
    (&[(0, 0, 1), (0, 0, 0)], Err(0)),
    (&[(0, 0, 0), (0, 0, 1), (0, 0, 2)], Err(2)),
    // an event that does not occur, one under another unit, under no unit, and no event
    (&[(0, 0, 0), (1, 1, 0)], Err(1)),
    (&[(1, 0, 0)], Err(0)),
    (&[(2, 0, 0)], Err(0)),
    (&[(0, 9, 0)], Err(0)),
];

#[test]
fn a_log_is_legal_up_to_its_first_illegal_record(rt: HostRuntime) {
    let instance = of_events(&rt, rt.alloc(), &ROWS, &EVENTS);
    are_replays(&rt, rt.alloc(), &instance, &LOGS);
    drop(instance);
}

// Variable 0 leads to itself by value 0 and to the root by value 1. It has the entries 0, 0, 1.
static RING_ROWS: [&[u32]; 1] = [&[0, 0, 1]];

static RING_HEADS: [[Option<u32>; 2]; 1] = [[Some(0), None]];

// Pops of the ring, and the cursor of variable 0 after them, or the place of the first one that is
// not legal. Worked by hand.
static RING_LOGS: [(&[(u32, u32, u32)], Result<u32, u64>); 2] = [
    (&[(0, 0, 0), (0, 0, 1)], Ok(2)),
    (&[(1, 0, 0)], Err(0)),
];

#[test]
fn cycles_are_replayed_under_their_least_variable(rt: HostRuntime) {
    let instance = of_arrows(&rt, rt.alloc(), &RING_ROWS, &RING_HEADS);
    are_replays(&rt, rt.alloc(), &instance, &RING_LOGS);
    drop(instance);
}
