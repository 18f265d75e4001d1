//! An instance that may have growing stacks.
ghost use Rattle.std.specs.Prelude.{◌≡◌, MatchOption};
ghost use Rattle.pop_model.specs.Instances.{FamilyFits};
ghost use Rattle.pop_instance.specs.Family.{family_of};
ghost use Rattle.growing_instances.specs.Growing.{instance_grown, MayGrowTo, MayIndex};

use crate::growing_stacks::GrowingStacks;
use pop_instance::{Family, Index, Instance};
use std::marker::Model;

/// An instance, the last height of its stacks, and the index of its family if it is at hand. The
/// last height is None if the stacks do not grow any more. Contracts see the instance at its last
/// height.
#[derive(Drop)]
pub struct GrowingInstance {
    instance: Instance,
    last: Option<u32>,
    index: Option<Index>,
}

impl Model for GrowingInstance {
    ghost use Rattle.pop_model.specs.Instances.{Instance as ModelInstance};
    ghost use Rattle.growing_instances.specs.Growing.{instance_grown, MayGrowTo, MayIndex};

    ghost Value = { ModelInstance };

    ghost view = { λ a. instance_grown a.last a.instance };

    ghost invariant = { λ a. MayGrowTo a.last a.instance.stacks
        × MayIndex a.instance.family a.index };
}

impl GrowingInstance {
    /// The instance of these parts, with the index of the family if it is at hand. The result is
    /// None exactly if the family does not fit the stacks.
    pub fn new(
        stacks: GrowingStacks,
        family: Family,
        index: Option<Index>,
    ) -> Option<GrowingInstance>
        requires index { MayIndex (family_of family) index }
        ensures { MatchOption result (FamilyFits stacks (family_of family) → ⊥)
            (λ i. i ≡ record { stacks = stacks; family = family_of family }) }
    {
        let (stacks, last) = stacks.into_parts();
        match Instance::new(stacks, family) {
            Some(instance) => Some(GrowingInstance {
                instance,
                last,
                index,
            }),
            None => None,
        }
    }

    /// The instance at its present height, the last height of its stacks, and the index of its
    /// family if it is at hand.
    pub fn into_parts(self) -> (Instance, Option<u32>, Option<Index>)
        ensures grown { self ≡ instance_grown result.1 result.0 }
        ensures may { MayGrowTo result.1 result.0.stacks }
        ensures index { MayIndex result.0.family result.2 }
    {
        (self.instance, self.last, self.index)
    }

    /// The instance, raised to its last height at once, and the index of its family if it is at
    /// hand. This is for runs that are not made in stages. An entry does not depend on the height,
    /// so no result shows whether there were stages.
    pub fn raised_with_index(self) -> (Instance, Option<Index>)
        ensures instance { result.0 ≡ self }
        ensures index { MayIndex result.0.family result.1 }
    {
        let (mut instance, last, index) = self.into_parts();
        if let Some(last) = last {
            instance.raise(last);
        }
        (instance, index)
    }

    /// The instance, raised to its last height at once. An index that is at hand is dropped.
    pub fn raised(self) -> Instance
        ensures { result ≡ self }
    {
        let (instance, _index) = self.raised_with_index();
        instance
    }
}
