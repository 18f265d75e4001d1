//! Tests of sources, sinks and lines, of formulas and graphs, and of the events of orientations
//! and trees, by public calls of `pop_edge`, `dimacs_read`, `graph_read`, `sink_popping` and
//! `cycle_popping`. They are in a crate above these, so that these crates are not proved once more
//! with their tests.
#![tactic(auto)]

#[cfg(test)]
mod comparing;
#[cfg(test)]
mod formulas;
#[cfg(test)]
mod graphs;
#[cfg(test)]
mod lines;
#[cfg(test)]
mod refusals;
#[cfg(test)]
mod sinks;
#[cfg(test)]
mod sources;
#[cfg(test)]
mod trees;
