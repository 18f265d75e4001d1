//! Answers on the calling thread alone, which are those of `run`.
use super::{answer, is_so, owned};
use pop_watch::{Heights, Layers, Totals, Watch};
use pop_workers::NoGate;
use std::alloc::Global;
use std::process::Abort;
use std::sync::Wait;
use std::thread::Threads;
use top_call::{Answer, answer_alone};

// A watcher of each kind.
fn watchers(rt: &impl Abort, alloc: Global) -> Vec<Box<dyn Watch>> {
    let totals = Box::new(alloc, Totals::new()).expect(rt, "memory");
    let heights = Box::new(alloc, Heights::new()).expect(rt, "memory");
    let layers = Layers::new(alloc).expect(rt, "memory");
    let layers = Box::new(alloc, layers).expect(rt, "memory");
    let mut all: Vec<Box<dyn Watch>> = Vec::new(alloc);
    all.push(totals).expect(rt, "memory");
    all.push(heights).expect(rt, "memory");
    all.push(layers).expect(rt, "memory");
    all
}

// The answer of `run`.
fn answer_of_run<R: Threads + Wait + Sync + Abort>(
    rt: &R,
    alloc: Global,
    words: &[String],
    input: &str,
) -> Answer {
    let watchers = watchers(rt, alloc);
    answer(rt, alloc, &NoGate, words, input, watchers)
}

// The answer that is made on the calling thread alone.
fn answer_made_alone(rt: &impl Abort, alloc: Global, words: &[String], input: &str) -> Answer {
    let watchers = watchers(rt, alloc);
    answer_alone(alloc, words, watchers, input.as_bytes()).expect(rt, "memory")
}

// Compares two answers to arguments.
fn same_answers(rt: &impl Abort, alone: &Answer, of_run: &Answer, words: &[&str]) {
    is_so(rt, alone.status == of_run.status, "status", words);
    is_so(
        rt,
        alone.text.as_slice() == of_run.text.as_slice(),
        "text",
        words,
    );
}

// Arguments and an input have the same answer from both.
fn is_alike<R: Threads + Wait + Sync + Abort>(rt: &R, alloc: Global, words: &[&str], input: &str) {
    let all = owned(rt, alloc, words);
    let of_run = answer_of_run(rt, alloc, &all, input);
    let alone = answer_made_alone(rt, alloc, &all, input);
    drop(all);
    same_answers(rt, &alone, &of_run, words);
    drop(alone);
    drop(of_run);
}

// Arguments and an input.
type Asked = (&'static [&'static str], &'static str);

// Each of these has the same answer from both.
fn are_alike<R: Threads + Wait + Sync + Abort>(rt: &R, alloc: Global, all: &[Asked]) {
    for (words, input) in all.iter() {
        is_alike(rt, alloc, words, input);
    }
}

const CLAUSES: &str = "p cnf 3 2\n1 2 0\n-2 3 0\n";

const TRIANGLE: &str = "p edge 3 3\ne 1 2\ne 2 3\ne 1 3\n";

static COMMANDS: [Asked; 9] = [
    (&["formula", "--log", "on"], "p cnf 1 1\n1 0\n"),
    (&["resample", "--report", "totals,heights,layers"], CLAUSES),
    (&["check"], CLAUSES),
    (&["rounds"], CLAUSES),
    (&["orient", "--count", "3"], TRIANGLE),
    (&["tree", "--witness", "2", "0"], TRIANGLE),
    (&["make", "grid", "3"], ""),
    (&["tree", "--root", "4"], TRIANGLE),
    (&["make", "grid"], ""),
];

#[test]
fn each_command_is_answered_alike(rt: HostRuntime) {
    are_alike(&rt, rt.alloc(), &COMMANDS);
}

// Stopped after one pop of two: an event is still poppable.
const STOPPED: &str = "cert 1 resample\nstacks 0,0,1;0,1\ninput 18\np cnf 2 2\n1 0\n2 0\n\
    log 1 1\npop 1 1:0\n";

// The first row requests several workers on the board under a lock, with stacks that grow.
static CREWS: [Asked; 4] = [
    (
        &["tree", "--workers", "3", "--board", "lock", "--grow", "64"],
        TRIANGLE,
    ),
    (&["formula", "--pops", "1"], "p cnf 1 1\n1 0\n"),
    (&["replay"], STOPPED),
    (&["resume"], STOPPED),
];

#[test]
fn no_crew_changes_an_answer(rt: HostRuntime) {
    are_alike(&rt, rt.alloc(), &CREWS);
}
