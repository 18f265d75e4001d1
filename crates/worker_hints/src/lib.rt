//! Hints for workers, which are the threads that share a run: units at which an event may be
//! poppable, in deques that others steal from.
#![tactic(auto)]

mod hints;
#[cfg(test)]
mod tests;
mod worker;

pub use hints::{AreUnits, Other, Own, Range, deal, give, give_all, next};
pub use worker::Worker;
