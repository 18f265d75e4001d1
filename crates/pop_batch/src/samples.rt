ghost use Rattle.std.specs.Prelude.{◌≡◌, IfOk, Some};
ghost use Rattle.pop_model.specs.Stacks.{IsKeyed};
ghost use Rattle.pop_model.specs.Extremal.{IsExtremal};
ghost use Rattle.pop_instance.specs.Index.{IsFamilyIndex};
ghost use Rattle.pop_batch.specs.Batches.{IsSampleEnd};
ghost use Rattle.pop_batch.specs.Parts.{CanStart, IsPart};

use crate::part::Part;
use crate::stopping::part_of;
use confluence_core::{End, Indexed, Keep};
use pop_instance::{Cursors, Index, Instance};
use pop_stacks::Reader;
use std::alloc::{AllocError, Global};
use std::marker::Model;

/// The samples of an extremal instance under a key, which share the index of its family. Several
/// threads may share them. Contracts see the instance.
#[derive(Drop)]
pub struct Samples<'i> {
    instance: &'i Instance,
    index: Option<Index>,
}

impl<'i> Model for Samples<'i> {
    ghost use Rattle.pop_model.specs.Stacks.{IsKeyed};
    ghost use Rattle.pop_model.specs.Extremal.{IsExtremal};
    ghost use Rattle.pop_model.specs.Instances.{Instance as ModelInstance};
    ghost use Rattle.pop_instance.specs.Index.{IsFamilyIndex};

    ghost Value = { ModelInstance };

    ghost view = { λ a. a.instance.now };

    ghost invariant = { λ a. IsFamilyIndex a.instance.now.family a.index
        × IsKeyed a.instance.now.stacks.origin × IsExtremal a.instance.now.family };
}

impl<'i> Samples<'i> {
    /// The samples of an instance.
    pub fn of(alloc: Global, instance: &'i Instance) -> Result<Samples<'i>, AllocError>
        requires keyed { IsKeyed instance.now.stacks.origin }
        requires extremal { IsExtremal instance.now.family }
        ensures { IfOk result (λ samples. samples ≡ instance.now) }
    {
        let index = instance.index(alloc)?;
        Ok(Samples { instance, index })
    }

    /// The samples of an instance of listed events, with the index of these events.
    pub fn with(instance: &'i Instance, index: Index) -> Samples<'i>
        requires keyed { IsKeyed instance.now.stacks.origin }
        requires extremal { IsExtremal instance.now.family }
        requires index { IsFamilyIndex instance.now.family (Some index) }
        ensures { result ≡ instance.now }
    {
        Samples {
            instance,
            index: Some(index),
        }
    }

    /// The end of sample j.
    pub fn run(&self, alloc: Global, j: u32) -> Result<End, AllocError>
        ensures { IfOk result (IsSampleEnd self.now j) }
    {
        let stacks = self.instance.stacks().for_sample(alloc, j)?;
        let mut reader = Reader::keeping(alloc, &stacks)?;
        let sample = Indexed::of(self.instance, &self.index).for_sample(&stacks, j);
        let opening = sample.opening(alloc, Keep::Nothing)?;
        Ok(sample.run(alloc, &mut reader, opening)?.end)
    }

    /// The run of sample j from these cursors, or from its beginning if there are none. It ends at
    /// its end or after at most this many pops.
    pub fn run_part(
        &self,
        alloc: Global,
        j: u32,
        from: Option<Cursors>,
        limit: u64,
    ) -> Result<Part, AllocError>
        requires start { CanStart self.now from }
        ensures { IfOk result (IsPart self.now j from limit) }
    {
        let own = self.instance.stacks().for_sample(alloc, j)?;
        let mut reader = Reader::keeping(alloc, &own)?;
        let sample = Indexed::of(self.instance, &self.index).for_sample(&own, j);
        part_of(alloc, &sample, &mut reader, from, limit)
    }
}
