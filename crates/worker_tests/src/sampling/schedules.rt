//! A gate may hold a worker: the log shows which worker popped first.
use super::sample;
use crate::comparing::same;
use crate::made::made;
use pop_instance::Instance;
use pop_workers::{Gate, Outcome};
use std::alloc::Global;
use std::process::Abort;
use std::sync::Wait;
use std::sync::atomic::AtomicBool;
use std::sync::atomic::Ordering::SeqCst;
use std::thread::Threads;
use test_instances::{EventRow, listed};

// How often a held worker checks whether it may continue.
const MOST_LOOKS: u32 = 1_000_000_000;

// Holds a worker before its first turn until another one has reached its second.
#[derive(Drop)]
struct Holds {
    held: u32,
    other: u32,
    came: AtomicBool,
    gave_up: AtomicBool,
}

impl Holds {
    fn new(held: u32, other: u32) -> Holds {
        Holds {
            held,
            other,
            came: AtomicBool::new(false),
            gave_up: AtomicBool::new(false),
        }
    }

    // Waits until the other worker has come.
    fn hold(&self) {
        for _ in 0..MOST_LOOKS {
            if self.came.load(SeqCst) {
                return;
            }
        }
        self.gave_up.store(true, SeqCst);
    }
}

impl Gate for Holds {
    fn at(&self, worker: u32, turn: u64) {
        if worker == self.other && turn == 1 {
            self.came.store(true, SeqCst);
        }
        if worker == self.held && turn == 0 {
            self.hold();
        }
    }
}

// Two variables with the entries 0 and 1, and two events, each of which demands 0 of one of them.
static ROWS: [&[u32]; 2] = [&[0, 1], &[0, 1]];

static EVENTS: [EventRow; 2] = [(1, &[(0, 0)]), (2, &[(1, 0)])];

// The run of two workers. The first is held until the other has reached its second turn.
fn held_run<R: Threads + Wait + Abort + Sync>(
    rt: &R,
    alloc: Global,
    instance: &Instance,
    claimed: bool,
    held: u32,
    other: u32,
) -> Outcome {
    let gate = Holds::new(held, other);
    let outcome = sample(rt, alloc, instance, claimed, 2, &gate);
    let gave_up = gate.gave_up.load(SeqCst);
    drop(gate);
    assert!(rt; !gave_up, "the other worker never came");
    outcome
}

// Compares the units of a log of two pops.
fn are_units(rt: &impl Abort, run: &Outcome, want: (u32, u32)) {
    let Some(log) = &run.log else {
        panic!(rt; "no log");
    };
    assert!(rt; log.len() == 2);
    same(rt, log.at(0).unit() as u64, want.0 as u64, "unit of pop 0");
    same(rt, log.at(1).unit() as u64, want.1 as u64, "unit of pop 1");
}

// A worker that is held, the other one, and the units that are popped.
struct Row {
    held: u32,
    other: u32,
    units: (u32, u32),
}

static HELD: [Row; 2] = [
    Row {
        held: 0,
        other: 1,
        units: (1, 0),
    },
    Row {
        held: 1,
        other: 0,
        units: (0, 1),
    },
];

// Compares the units that two workers pop with a row.
fn pops_last<R: Threads + Wait + Abort + Sync>(
    rt: &R,
    alloc: Global,
    instance: &Instance,
    claimed: bool,
    row: &Row,
) {
    let run = held_run(rt, alloc, instance, claimed, row.held, row.other);
    are_units(rt, &run, row.units);
    drop(run);
}

// Holds each of the two workers.
fn each_pops_last<R: Threads + Wait + Abort + Sync>(
    rt: &R,
    alloc: Global,
    instance: &Instance,
    claimed: bool,
) {
    for row in HELD.iter() {
        pops_last(rt, alloc, instance, claimed, row);
    }
}

#[test]
fn the_worker_that_is_held_pops_last(rt: HostRuntime) {
    let alloc = rt.alloc();
    let instance = made(&rt, listed(alloc, &ROWS, &EVENTS));
    each_pops_last(&rt, alloc, &instance, false);
    each_pops_last(&rt, alloc, &instance, true);
    drop(instance);
}
