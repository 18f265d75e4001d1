//! Samples of graphs and formulas that are given as arrays, stored in arrays: the trees of a
//! graph, its sink-free orientations, and the assignments of a formula.
//!
//! Contracts see the graph or the formula of the arrays, and say for each row which sample's end
//! it has.
#![tactic(auto)]

mod assigning;
mod calls;
mod counts;
mod draw;
mod formula_refusal;
mod instances;
pub mod laws;
mod orienting;
mod outcome;
mod refusal;
mod rounding;
mod row_end;
mod row_part;
mod row_samples;
mod rows;
#[cfg(test)]
mod tests;
mod value_rows;

pub use assigning::{ArrayFormula, assignments};
pub use calls::{TreeGraph, trees};
pub use draw::Draw;
pub use formula_refusal::FormulaRefusal;
pub use orienting::{OrientedGraph, orientations};
pub use outcome::Outcome;
pub use refusal::ArrayRefusal;
pub use rounding::assignments_by_rounds;
