//! Rooted spanning trees of a graph by cycle popping (Propp and Wilson 1998): their arrows, the
//! weights of the arrows, and the loop-erased walk. Contracts see graphs, arrows and weights as in
//! the definitions.
#![tactic(auto)]

mod grids;
mod heads;
pub mod laws;
mod names;
mod walks;
mod weights;

pub use grids::{grid_arrows, grid_weights};
pub use heads::{arrows, arrows_of};
pub use walks::run_walks;
pub use weights::{arrow_weights, weights_of};
