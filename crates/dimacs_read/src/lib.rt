//! Formulas from DIMACS CNF input, and the events of a formula. Each clause gives one event, which
//! occurs if the clause is false. Contracts see a formula as its number of variables and the
//! literals of each clause.
#![tactic(auto)]

mod clauses;
mod events;
mod finish;
mod formula;
mod header;
pub mod laws;
mod literals;
mod read;
mod reader;
mod token;

pub use formula::Formula;
pub use literals::{LiteralFault, formula_of_literals};
pub use read::read_formula;
