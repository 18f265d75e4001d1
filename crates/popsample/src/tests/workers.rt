//! Runs of several workers, of which one is held.
use super::{answer, owned};
use pop_workers::Gate;
use std::alloc::Global;
use std::process::Abort;
use std::sync::Wait;
use std::sync::atomic::{AtomicBool, AtomicU64, Ordering};
use std::thread::Threads;
use top_call::Answer;

// Holds a worker before its first turn until the other of two reaches its second, and counts the
// turns of both.
#[derive(Drop)]
struct Held {
    worker: u32,
    came: AtomicBool,
    ran_out: AtomicBool,
    turns: AtomicU64,
}

impl Held {
    fn new(worker: u32) -> Held {
        Held {
            worker,
            came: AtomicBool::new(false),
            ran_out: AtomicBool::new(false),
            turns: AtomicU64::new(0),
        }
    }
}

impl Gate for Held {
    fn at(&self, worker: u32, turn: u64) {
        self.turns.fetch_add(1, Ordering::SeqCst);
        if worker != self.worker {
            if turn == 1 {
                self.came.store(true, Ordering::SeqCst);
            }
            return;
        }
        if turn > 0 {
            return;
        }
        for _ in 0..1_000_000_000u64 {
            if self.came.load(Ordering::SeqCst) {
                return;
            }
        }
        self.ran_out.store(true, Ordering::SeqCst);
    }
}

// A command, its stacks and its input.
struct Case {
    command: &'static str,
    stacks: &'static str,
    input: &'static str,
}

// The answer of two workers on this board, with this gate.
fn answer_of_two<R: Threads + Wait + Sync + Abort>(
    rt: &R,
    alloc: Global,
    gate: &Held,
    case: &Case,
    board: &'static str,
) -> Answer {
    let words = [
        case.command,
        "--stacks",
        case.stacks,
        "--workers",
        "2",
        "--board",
        board,
    ];
    let words = owned(rt, alloc, &words);
    let got = answer(rt, alloc, gate, &words, case.input, Vec::new(alloc));
    drop(words);
    got
}

// Compares a sample that is printed on this board.
fn is_printed(rt: &impl Abort, got: &Answer, want: &str, board: &str) {
    assert!(rt; got.status == 0, "status on {board}");
    assert!(rt; got.text.as_slice() == want.as_bytes(), "text on {board}");
}

// Checks that the held worker continued because the other came.
fn other_came(rt: &impl Abort, gate: &Held) {
    let ran_out = gate.ran_out.load(Ordering::SeqCst);
    assert!(rt; !ran_out, "the other worker never came");
}

// Two clauses that clash.
static CLASH: Case = Case {
    command: "resample",
    stacks: "0,1;0,0;0,0",
    input: "p cnf 3 2\n1 2 0\n1 3 0\n",
};

// Compares what two workers on this board print for two clauses that clash, while this one is
// held.
fn is_printed_with_held<R: Threads + Wait + Sync + Abort>(
    rt: &R,
    alloc: Global,
    board: &'static str,
    worker: u32,
    want: &str,
) {
    let gate = Held::new(worker);
    let got = answer_of_two(rt, alloc, &gate, &CLASH, board);
    other_came(rt, &gate);
    drop(gate);
    is_printed(rt, &got, want, board);
    drop(got);
}

const FIRST: &str = "s SAMPLE\nv 1 -2 -3 0\nused 1 1 0\npops 1\nlog 2 1\npop 1 1 1:0 2:0\n";

const SECOND: &str = "s SAMPLE\nv 1 -2 -3 0\nused 1 0 1\npops 1\nlog 2 1\npop 1 2 1:0 3:0\n";

// On this board the worker that is not held pops its event.
fn other_pops<R: Threads + Wait + Sync + Abort>(rt: &R, alloc: Global, board: &'static str) {
    is_printed_with_held(rt, alloc, board, 0, SECOND);
    is_printed_with_held(rt, alloc, board, 1, FIRST);
}

// Two workers on two threads. The one that is not held pops its event, so no body on one thread
// can print both outputs.
#[test]
fn each_of_two_workers_pops_where_the_other_is_held(rt: HostRuntime) {
    let alloc = rt.alloc();
    other_pops(&rt, alloc, "words");
    other_pops(&rt, alloc, "lock");
}

// A cycle that is popped ten times.
static CYCLE: Case = Case {
    command: "tree",
    stacks: "1,1,1,1,1,1,1,1,1,1,0;0,0,0,0,0,0,0,0,0,0,0",
    input: "p edge 3 3\ne 1 2\ne 2 3\ne 1 3\n",
};

// How many turns two workers on this board take over a cycle that is popped ten times, where the
// second is held.
fn turns_on<R: Threads + Wait + Sync + Abort>(rt: &R, alloc: Global, board: &'static str) -> u64 {
    let gate = Held::new(1);
    let got = answer_of_two(rt, alloc, &gate, &CYCLE, board);
    is_printed(
        rt,
        &got,
        "s SAMPLE\na 2 1 1\na 3 2 2\nused 10 10\npops 10\n",
        board,
    );
    drop(got);
    let turns = gate.turns.load(Ordering::SeqCst);
    drop(gate);
    turns
}

// On a book under a lock a turn pops at most one event. On claim words the first turn pops all
// ten. One of the workers has the other start, and each ends at a turn without a pop.
#[test]
fn workers_meet_on_the_board_that_is_asked_for(rt: HostRuntime) {
    let on_lock = turns_on(&rt, rt.alloc(), "lock");
    assert!(&rt; on_lock > 10, "{on_lock} turns on a lock");
    let on_words = turns_on(&rt, rt.alloc(), "words");
    assert!(&rt; on_words == 4, "{on_words} turns on words");
}
