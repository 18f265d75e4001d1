//! Command-line arguments in one array of bytes, as programs in C pass them. Each argument is
//! ended by a byte 0.
#![tactic(auto)]

#[cfg(test)]
mod tests;
mod words;

pub use words::words_of;
