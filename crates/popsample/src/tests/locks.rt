//! Which arguments ask for a lock, and answers by a lock that nobody takes.
use super::{answer_in, is_so, owned, sink_of, source_of};
use pop_workers::{NoGate, NoLock};
use std::alloc::Global;
use std::process::Abort;
use std::thread::Threads;
use top_call::{Answer, ask_for_lock, run_with};

// These arguments ask for a lock, or do not.
fn is_asked(rt: &impl Abort, alloc: Global, words: &[&str], wanted: bool) {
    let all = owned(rt, alloc, words);
    let asks = ask_for_lock(alloc, &all).expect(rt, "memory");
    drop(all);
    is_so(rt, asks == wanted, "asks for a lock", words);
}

// Arguments, and whether they ask for a lock.
type Asked = (&'static [&'static str], bool);

static ASKED: [Asked; 6] = [
    (&["tree", "--workers", "2", "--board", "lock"], true),
    (&["resume", "--board", "lock"], true),
    (&["tree", "--workers", "2", "--board", "words"], false),
    (&["tree", "--workers", "2"], false),
    // These are invalid.
    (&["check", "--board", "lock"], false),
    (&["tree", "--board", "lock", "--workers"], false),
];

#[test]
fn only_the_board_under_a_lock_asks_for_one(rt: HostRuntime) {
    for (words, wanted) in ASKED.iter() {
        is_asked(&rt, rt.alloc(), words, *wanted);
    }
}

// The answer with this lock, if any.
fn answer_with<R: Threads + Sync + Abort>(
    rt: &R,
    alloc: Global,
    words: &[String],
    lock: Option<&NoLock>,
) -> Answer {
    let mut source = source_of(rt, alloc, "p cnf 2 2\n1 0\n2 0\n", 64, 0);
    let mut sink = sink_of(rt, alloc, 4096, 4096, 0);
    let none = Vec::new(alloc);
    let status = run_with(
        rt,
        alloc,
        words,
        none,
        &NoGate,
        lock,
        &mut source,
        &mut sink,
    );
    drop(source);
    let answer = answer_in(rt, alloc, status, &sink);
    drop(sink);
    answer
}

// The calling thread pops what workers leave. So the answer is that of two pops, on claim words and
// by a lock that nobody takes.
#[test]
fn workers_without_a_lock_leave_the_same_answer(rt: HostRuntime) {
    let alloc = rt.alloc();
    let words = [
        "formula",
        "--stacks",
        "0,1;0,1",
        "--workers",
        "2",
        "--board",
        "lock",
    ];
    let all = owned(&rt, alloc, &words);
    for lock in [None, Some(&NoLock)] {
        let got = answer_with(&rt, alloc, &all, lock);
        is_so(&rt, got.status == 0, "status", &words);
        let text = "s SAMPLE\nv 1 2 0\nused 1 1\npops 2\n";
        is_so(&rt, got.text.as_slice() == text.as_bytes(), "text", &words);
        drop(got);
    }
    drop(all);
}
