//! Makes runs and prints them: the end, and the requested parts of the log. These are its layered
//! text, the witness tree of a pop, and the reports of watchers.
#![tactic(auto)]

mod asked;
mod batching;
mod call;
mod names;
mod reporting;
mod rounding;
mod running;
mod sampled;
mod telling;
mod witness;

pub use asked::Asked;
pub use batching::batch_and_tell;
pub use call::Call;
pub use names::names_of;
pub use rounding::round_and_tell;
pub use running::{tell_end, tell_sampled};
