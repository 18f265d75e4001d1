ghost use Rattle.std.specs.Prelude.{◌≡◌, ◌<◌, ◌≤◌, ◌^◌, ◌↔◌, ℕ, IsTrue, IfOk, MatchOption};
ghost use Rattle.pop_model.specs.Stacks.{height_of, IsKeyed};
ghost use Rattle.pop_model.specs.Families.{units_of};
ghost use Rattle.pop_model.specs.Instances.{IsInstance, FamilyFits, instance_for, instance_raised};
ghost use Rattle.pop_instance.specs.Index.{IsFamilyIndex};

use crate::{Cube, Family, Index};
use pop_stacks::Stacks;
use std::alloc::{AllocError, Global};
use std::marker::Model;

/// An instance: stacks, and a family of events over their variables and values.
#[derive(Drop)]
pub struct Instance {
    stacks: Stacks,
    family: Family,
}

impl Model for Instance {
    ghost use Rattle.pop_model.specs.Instances.{Instance as ModelInstance, IsInstance};

    ghost Value = { ModelInstance };

    ghost use Rattle.pop_instance.specs.Family.{family_of};

    ghost view = { λ a. record { stacks = a.stacks; family = family_of a.family } };

    ghost invariant = { λ a. IsInstance
        (record { stacks = a.stacks; family = family_of a.family }) };
}

impl Instance {
    ghost use Rattle.pop_instance.specs.Family.{family_of, HasEvent};

    /// The instance of these parts, or None exactly if the family does not fit the stacks.
    ///
    /// - A listed family fits if its events name only variables below the stacks' count, with
    ///   values below the variables' domains.
    /// - Arrows fit if they have as many variables as the stacks, and each variable has as many
    ///   slots as values.
    pub fn new(stacks: Stacks, family: Family) -> Option<Instance>
        ensures { MatchOption result (FamilyFits stacks (family_of family) → ⊥)
            (λ i. i ≡ record { stacks = stacks; family = family_of family }) }
    {
        let _count = stacks.count();
        let _units = family.units();
        if !family.fits(&stacks) {
            drop(stacks);
            drop(family);
            return None;
        }
        Some(Instance { stacks, family })
    }

    /// The stacks of the variables.
    pub fn stacks(&self) -> &Stacks
        ensures { result.now ≡ self.now.stacks }
    {
        &self.stacks
    }

    /// The instance of sample j under the same key. Each sample has its own streams. It copies the
    /// family.
    pub fn for_sample(&self, alloc: Global, j: u32) -> Result<Instance, AllocError>
        requires keyed { IsKeyed self.now.stacks.origin }
        ensures { IfOk result (λ i. i ≡ instance_for j self.now) }
    {
        let _units = self.units();
        let stacks = self.stacks.for_sample(alloc, j)?;
        let _count = stacks.count();
        match self.family.copy(alloc) {
            Ok(family) => Ok(Instance { stacks, family }),
            Err(error) => {
                drop(stacks);
                Err(error)
            }
        }
    }

    /// Gives each variable this height, which must be at least the present one. It allocates
    /// nothing. A reader of the stacks can continue to read them.
    pub fn raise(&mut self, height: u32)
        requires keyed { IsKeyed self.old.stacks.origin }
        requires higher { (v : ℕ) → height_of self.old.stacks v ≤ height }
        requires short { height < 2 ^ 31 }
        ensures { self.new ≡ instance_raised height self.old }
    {
        self.stacks.raise(height);
    }

    /// The family of events.
    pub fn family(&self) -> &Family
        ensures { family_of result.now ≡ self.now.family }
    {
        &self.family
    }

    /// The number of units, at most 2^31 - 1.
    pub fn units(&self) -> u32
        ensures units { result ≡ units_of self.now.family }
        ensures instance { IsInstance self.now }
    {
        self.family.units()
    }

    /// The index of the family, which several runs may share: one for listed events, and None for
    /// cycles. Time and memory are linear in the variables and the pairs of all cubes.
    pub fn index(&self, alloc: Global) -> Result<Option<Index>, AllocError>
        ensures { IfOk result (IsFamilyIndex self.now.family) }
    {
        let _units = self.units();
        match &self.family {
            Family::Listed(events) => {
                Ok(Some(Index::build(alloc, events, self.stacks.count())?))
            }
            Family::Cycles(_) => Ok(None),
        }
    }

    /// Whether the cube is that of an event of the family. In a listed family every event is
    /// compared; in a cycle family the arrows are followed once around.
    pub fn is_event(&self, cube: &Cube) -> bool
        ensures { IsTrue result ↔ HasEvent self.now.family cube.now }
    {
        self.family.is_event(cube)
    }
}
