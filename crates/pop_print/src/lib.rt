//! The end of a run as text. Contracts see the text as a function of the end and of what the input
//! says. The end is the instance, the cursors, the number of pops or of rounds, and the events
//! that occur.
#![tactic(auto)]

mod arrow;
mod assignment;
mod batches;
mod counts;
mod facts;
mod full_end;
pub mod laws;
mod line;
mod orientation;
mod printing;
mod rounds;
mod sample;
mod stuck;
mod summary;
mod tree;

pub use batches::{text_of_batch, text_of_batch_alone};
pub use counts::push_used;
pub use facts::Facts;
pub use line::push_line;
pub use printing::{text, text_of_sample};
pub use rounds::text_of_rounds;
