//! Batches: many samples of one instance under a key, run in parallel or one after another, each
//! on one thread.
//!
//! Contracts see the ends as a list: end j is that of the one-thread run of sample j. So the
//! result does not depend on how the work is divided.
#![tactic(auto)]

mod batches;
mod ends;
pub mod laws;
mod part;
mod samples;
mod stopping;

pub use batches::{batch, batch_alone};
pub use ends::Ends;
pub use part::Part;
pub use samples::Samples;
