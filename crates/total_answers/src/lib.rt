//! The laws that every line has an answer, and which valid input has. There is no code that runs:
//! the laws are the contracts of functions of empty body.
#![tactic(auto)]

mod laws;

pub use laws::{every_line_is_answered, valid_input_is_answered};
