//! The program `popsample`: `run` of `top_call` on the arguments after the program's own name, on
//! standard input and standard output. If the arguments don't ask for a lock, `run_with` does the
//! same without one, and returns. The tests of this crate are those of `run`, over sources and
//! sinks in memory.
#![tactic(auto)]

#[cfg(test)]
mod tests;

use pop_edge::{Sink, Source, StdSink, StdSource};
use pop_watch::{Heights, Layers, Totals, Watch};
use pop_workers::{NoGate, NoLock};
use std::alloc::Global;
use std::env;
use std::process::ExitCode;
use std::sync::Wait;
use std::thread::Threads;
use top_call::{ask_for_lock, run, run_with};

// The status if the arguments cannot be read, since one is not UTF-8, or if memory runs out for
// them or for the watchers.
const NOT_BEGUN: u8 = 9;

// The arguments after the program's name.
fn words_of(rt: &HostRuntime) -> Option<Vec<String>> {
    let arguments = env::args(rt).ok()?;
    let mut words = Vec::new(rt.alloc());
    for word in arguments.skip(1) {
        words.push(word).ok()?;
    }
    Some(words)
}

// The status of the arguments. Only the call for those that ask for a lock may wait. If memory runs
// out while that is found out, the other call answers.
fn status_of<S: Source, K: Sink, R: Threads + Wait + Sync>(
    rt: &R,
    alloc: Global,
    words: &[String],
    watchers: Vec<Box<dyn Watch>>,
    source: &mut S,
    sink: &mut K,
) -> u8 {
    if let Ok(true) = ask_for_lock(alloc, words) {
        return run(rt, alloc, words, watchers, &NoGate, source, sink);
    }
    let lock: Option<&NoLock> = None;
    run_with(rt, alloc, words, watchers, &NoGate, lock, source, sink)
}

/// Runs the arguments after the program's own name, on standard input and standard output, with a
/// watcher of each kind.
fn main(rt: HostRuntime) -> ExitCode {
    let alloc = rt.alloc();
    let Some(words) = words_of(&rt) else {
        return ExitCode::from(NOT_BEGUN);
    };
    let Ok(layers) = Layers::new(alloc) else {
        return ExitCode::from(NOT_BEGUN);
    };
    let (Ok(totals), Ok(heights), Ok(layers)) = (
        Box::new(alloc, Totals::new()),
        Box::new(alloc, Heights::new()),
        Box::new(alloc, layers),
    ) else {
        return ExitCode::from(NOT_BEGUN);
    };
    let mut watchers: Vec<Box<dyn Watch>> = Vec::new(alloc);
    if watchers.push(totals).is_err()
        || watchers.push(heights).is_err()
        || watchers.push(layers).is_err()
    {
        return ExitCode::from(NOT_BEGUN);
    }
    let mut source = StdSource::new(rt.stdin());
    let mut sink = StdSink::new(rt.stdout());
    ExitCode::from(status_of(&rt, alloc, &words, watchers, &mut source, &mut sink))
}
