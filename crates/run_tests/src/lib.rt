//! Tests of readers, of runs on one thread and the distribution of their samples, of verdicts,
//! rounds, books of pops and batches. They use only public calls, and are in a crate above those
//! that they test, so that these are not proved once more with their tests.
//!
//! A function that owns an instance or an end drops it by a call. The drop is then proved once,
//! and not in each function that owns such a value.
#![tactic(auto)]

#[cfg(test)]
mod batches;
#[cfg(test)]
mod book;
#[cfg(test)]
mod compare;
#[cfg(test)]
mod extremal;
#[cfg(test)]
mod made;
#[cfg(test)]
mod one_thread;
#[cfg(test)]
mod readers;
#[cfg(test)]
mod rounds;
#[cfg(test)]
mod samples;
