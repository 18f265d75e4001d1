ghost use Rattle.std.specs.Prelude.{◌≡◌, length, IfOk};
ghost use Rattle.pop_model.specs.Stacks.{IsKeyed, stacks_for, variables_of};
ghost use Rattle.pop_model.specs.Popping.{AreWithin};
ghost use Rattle.pop_model.specs.Instances.{instance_for};
ghost use Rattle.prs_rounds.specs.Rounds.{LeavesEnd, LeavesStop};
ghost use Rattle.prs_rounds.specs.Units.{IsIndexOf};

use crate::RoundEnd;
use crate::alone::Alone;
use crate::rounds::{rounds_of, zeros_of};
use pop_instance::{Cursors, Family, Index, Instance};
use std::alloc::{AllocError, Global};
use std::marker::Model;

/// The samples of listed events under a key, by rounds. They share the index of the events, and
/// several threads may share them. Contracts see the instance.
#[derive(Drop)]
pub struct RoundSamples<'i> {
    instance: &'i Instance,
    index: Index,
}

impl<'i> Model for RoundSamples<'i> {
    ghost use Rattle.std.specs.Prelude.{◌≡◌, length};
    ghost use Rattle.pop_model.specs.Stacks.{IsKeyed, variables_of};
    ghost use Rattle.pop_model.specs.Instances.{Instance as ModelInstance};
    ghost use Rattle.prs_rounds.specs.Units.{IsIndexOf};

    ghost Value = { ModelInstance };

    ghost view = { λ a. a.instance.now };

    ghost invariant = { λ a. IsIndexOf a.instance.now.family a.index
        × (length a.index ≡ variables_of a.instance.now.stacks)
        × IsKeyed a.instance.now.stacks.origin };
}

impl<'i> RoundSamples<'i> {
    /// The samples of an instance, with the index of its events.
    pub fn with(instance: &'i Instance, index: Index) -> RoundSamples<'i>
        requires keyed { IsKeyed instance.now.stacks.origin }
        requires index { IsIndexOf instance.now.family index }
        requires variables { length index ≡ variables_of instance.now.stacks }
        ensures { result ≡ instance.now }
    {
        RoundSamples { instance, index }
    }

    /// The run of sample j from these cursors on the calling thread, to its end or for at most
    /// this many rounds. A run that stopped before its end has events that occur and no short
    /// variable.
    pub fn run_from(
        &self,
        alloc: Global,
        j: u32,
        from: Cursors,
        limit: u64,
    ) -> Result<RoundEnd, AllocError>
        requires count { variables_of self.now.stacks ≡ length from }
        requires within { AreWithin (stacks_for j self.now.stacks) from }
        ensures { IfOk result (LeavesStop (instance_for j self.now) from limit) }
    {
        let _units = self.instance.units();
        let stacks = self.instance.stacks().for_sample(alloc, j)?;
        match self.instance.family() {
            Family::Listed(events) => {
                rounds_of(&Alone, alloc, &stacks, events, &self.index, from, limit)
            }
            Family::Cycles(_) => unreachable!(),
        }
    }

    /// The end of the run of sample j.
    pub fn run(&self, alloc: Global, j: u32) -> Result<RoundEnd, AllocError>
        ensures { IfOk result (LeavesEnd (instance_for j self.now)) }
    {
        let stacks = self.instance.stacks().for_sample(alloc, j)?;
        let zeros = zeros_of(alloc, &stacks)?;
        self.run_from(alloc, j, zeros, u64::MAX)
    }
}
