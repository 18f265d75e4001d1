//! Tests of logs, of witness trees and of reports, by public calls of `pop_log`, `witness_trees`
//! and `pop_watch`. They are in a crate above these, so that these crates are not proved once more
//! with their tests.
#![tactic(auto)]

#[cfg(test)]
mod comparing;
#[cfg(test)]
mod instances;
#[cfg(test)]
mod layers;
#[cfg(test)]
mod merging;
#[cfg(test)]
mod pops;
#[cfg(test)]
mod printing;
#[cfg(test)]
mod reading;
#[cfg(test)]
mod records;
#[cfg(test)]
mod replaying;
#[cfg(test)]
mod runs;
#[cfg(test)]
mod trees;
#[cfg(test)]
mod watchers;
