//! Instances with stacks that may grow. Contracts see them at their last height.
#![tactic(auto)]

mod growing_instance;
mod growing_stacks;

pub use growing_instance::GrowingInstance;
pub use growing_stacks::GrowingStacks;
