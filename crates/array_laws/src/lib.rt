//! Theorems about the calls over arrays: their rows and the printed text agree on each sample. No
//! code runs: the theorems are the contracts of functions with an empty body.
#![tactic(auto)]

mod laws;

pub use laws::{
    assignment_rows_printed, orientation_rows_printed, round_row_printed, tree_rows_printed,
};
