//! Log observers, called watchers here. A watcher receives the records of a log one after another,
//! and reports on them.
//!
//! Contracts see a watcher as its kind and its state, a list of numbers. `specs/Telling.antt`
//! defines the states of several watchers after a log.
#![tactic(auto)]

mod heights;
mod layers;
mod numbers;
mod totals;
mod watch;

pub use heights::Heights;
pub use layers::Layers;
pub use totals::Totals;
pub use watch::Watch;
