//! Theorems about printed ends, in terms of the formula or the graph that was read and of the
//! printed lines. Contracts see literals as printed, and arrows as `Arrow`, with their printed
//! lines.
#![tactic(auto)]

pub mod laws;
pub mod tree_laws;
