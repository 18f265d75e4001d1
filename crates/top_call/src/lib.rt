//! The top call: command-line arguments and an input in, an output and a status out. `run` is the
//! whole program, over any source and sink. Contracts see the arguments, the bytes that the source
//! has left and the bytes that the sink has taken.
#![tactic(auto)]

mod accepted;
mod answer;
mod asking;
mod checking;
mod pausing;
mod replaying;
mod resuming;
mod sampling;
mod top;
mod whole;
mod with_lock;

pub use asking::ask_for_lock;
pub use job_subjects::Answer;
pub use top::{answer_alone, run};
pub use with_lock::run_with;
