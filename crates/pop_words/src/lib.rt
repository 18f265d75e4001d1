//! Command-line arguments: the job that they specify, or the place of the first invalid argument.
//! Contracts see arguments as lists of bytes. They use the grammar as a set of lists of arguments,
//! each with its job.
#![tactic(auto)]

mod board_kind;
mod command;
mod command_line;
mod fault;
mod field;
mod job;
pub mod laws;
mod option;
mod reports;
mod setting;
mod value;

pub use board_kind::BoardKind;
pub use command::{Command, Input};
pub use command_line::read_words;
pub use fault::WordFault;
pub use job::Job;
pub use reports::Reports;
pub use value::{key_in, rows_in};
