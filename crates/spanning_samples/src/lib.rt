//! What the samples of graphs are: the sink-free orientations, and the spanning trees, which are
//! drawn by the weights of their edges. No code runs: the theorems are the contracts of functions
//! with an empty body.
#![tactic(auto)]

mod laws;

pub use laws::{
    drawn_trees, each_is_tree, one_tree_each, orientations_alone, tree_weights, trees_alone,
    wanted_trees,
};
