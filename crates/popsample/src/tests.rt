//! Answers of `run`, over sources and sinks in memory: devices that fail, watchers of the caller's
//! own, and a gate that holds a worker. What words and a text are answered is tried on the built
//! program.
//!
//! A test ends if memory runs out. A value that owns more than numbers is dropped by a call. So no
//! function has an exit at which values are left to be dropped part by part.
use pop_edge::{MemSink, MemSource};
use pop_watch::Watch;
use pop_workers::Gate;
use std::alloc::Global;
use std::process::Abort;
use std::sync::Wait;
use std::thread::Threads;
use top_call::{Answer, run};

mod alone;
mod faults;
mod locks;
mod watchers;
mod workers;

// Ends the test if this does not hold for these arguments.
fn is_so(rt: &impl Abort, holds: bool, what: &str, words: &[&str]) {
    assert!(rt; holds, "{what}: {words:?}");
}

// A source that gives this many bytes of an input at a call. The call with this number fails; 0 is
// none.
fn source_of(rt: &impl Abort, alloc: Global, input: &str, piece: usize, failing: u64) -> MemSource {
    let bytes = Vec::from_slice(alloc, input.as_bytes()).expect(rt, "memory");
    let failing = vec![in alloc; failing].expect(rt, "memory");
    MemSource::new(bytes, piece.max(1), failing)
}

// A sink with this room that takes this many bytes at a call. The call with this number fails; 0
// is none.
fn sink_of(rt: &impl Abort, alloc: Global, room: usize, piece: usize, failing: u64) -> MemSink {
    let failing = vec![in alloc; failing].expect(rt, "memory");
    MemSink::new(alloc, room, piece.max(1), failing).expect(rt, "memory")
}

// The status of a run. Each run of the tests is made here, so that what `run` promises is read by
// one function.
fn status_of<R: Threads + Wait + Sync, G: Gate + Sync>(
    rt: &R,
    alloc: Global,
    gate: &G,
    words: &[String],
    watchers: Vec<Box<dyn Watch>>,
    source: &mut MemSource,
    sink: &mut MemSink,
) -> u8 {
    run(rt, alloc, words, watchers, gate, source, sink)
}

// A status, and the bytes that the sink holds.
fn answer_in(rt: &impl Abort, alloc: Global, status: u8, sink: &MemSink) -> Answer {
    let text = Vec::from_slice(alloc, sink.bytes()).expect(rt, "memory");
    Answer { status, text }
}

// The status and the output of a run, with this gate and these watchers, and with a source and a
// sink that do not fail.
fn answer<R: Threads + Wait + Sync + Abort, G: Gate + Sync>(
    rt: &R,
    alloc: Global,
    gate: &G,
    words: &[String],
    input: &str,
    watchers: Vec<Box<dyn Watch>>,
) -> Answer {
    let mut source = source_of(rt, alloc, input, 64, 0);
    let mut sink = sink_of(rt, alloc, 4096, 4096, 0);
    let status = status_of(rt, alloc, gate, words, watchers, &mut source, &mut sink);
    drop(source);
    let answer = answer_in(rt, alloc, status, &sink);
    drop(sink);
    answer
}

// Adds an argument.
fn push_word(rt: &impl Abort, alloc: Global, all: &mut Vec<String>, word: &str) {
    let word = String::from_str(alloc, word).expect(rt, "memory");
    all.push(word).expect(rt, "memory");
}

// Adds arguments.
fn push_words(rt: &impl Abort, alloc: Global, all: &mut Vec<String>, words: &[&str]) {
    for word in words {
        push_word(rt, alloc, all, word);
    }
}

// A list with copies of these arguments.
fn owned(rt: &impl Abort, alloc: Global, words: &[&str]) -> Vec<String> {
    let mut all = Vec::new(alloc);
    push_words(rt, alloc, &mut all, words);
    all
}
