//! Partial rejection sampling by synchronous rounds, for any listed events (Guo, Jerrum and Liu
//! 2019). In each round every variable of the resampling set moves on by one entry.
//!
//! Contracts see sets of events by their units. They see the result of parallel work as the list
//! that one thread makes, so it does not depend on how the work is divided.
#![tactic(auto)]

mod alone;
mod front;
mod growth;
pub mod laws;
mod looker;
mod looks;
mod mark;
mod moves;
mod numbers;
mod on_threads;
mod resampling;
mod round_end;
mod rounds;
mod samples;
mod shown;
mod sight;
mod state;
mod values;

pub use looks::violated;
pub use resampling::resampling_set;
pub use round_end::RoundEnd;
pub use rounds::{run_rounds, run_rounds_alone};
pub use samples::RoundSamples;
