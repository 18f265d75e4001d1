//! Stacks that may grow.
ghost use Rattle.std.specs.Prelude.{◌≡◌};
ghost use Rattle.growing_instances.specs.Growing.{grown, MayGrowTo};

use pop_stacks::Stacks;
use std::marker::Model;

/// Stacks and their last height. It is None if they do not grow any more, as given rows do not.
/// Contracts see the stacks at their last height.
#[derive(Drop)]
pub struct GrowingStacks {
    stacks: Stacks,
    last: Option<u32>,
}

impl Model for GrowingStacks {
    ghost use Rattle.pop_model.specs.Stacks.{StackTable};
    ghost use Rattle.growing_instances.specs.Growing.{grown, MayGrowTo};

    ghost Value = { StackTable };

    ghost view = { λ a. grown a.last a.stacks };

    ghost invariant = { λ a. MayGrowTo a.last a.stacks };
}

impl GrowingStacks {
    /// Stacks that grow to this height. With None they do not grow.
    pub fn new(stacks: Stacks, last: Option<u32>) -> GrowingStacks
        requires { MayGrowTo last stacks }
        ensures { result ≡ grown last stacks }
    {
        GrowingStacks { stacks, last }
    }

    /// The stacks at their present height, and their last height.
    pub fn into_parts(self) -> (Stacks, Option<u32>)
        ensures grown { self ≡ grown result.1 result.0 }
        ensures may { MayGrowTo result.1 result.0 }
    {
        (self.stacks, self.last)
    }
}
