//! Checks whether a listed family of events is extremal: any two events that share a variable
//! demand different values of a shared one. If it is not, the result is the first pair that
//! clashes. Contracts see events as numbered cubes.
#![tactic(auto)]

mod exclusion;
mod least_clash;
mod verdict;

pub use least_clash::check;
pub use verdict::Verdict;
