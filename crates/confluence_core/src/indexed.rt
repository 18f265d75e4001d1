ghost use Rattle.std.specs.Prelude.{◌≡◌, ◌<◌, ◌≤◌, ◌^◌, ℕ, Bool, List, [], IfOk};
ghost use Rattle.pop_model.specs.Stacks.{stacks_for};
ghost use Rattle.pop_model.specs.Families.{units_of};
ghost use Rattle.pop_model.specs.Instances.{IsInstance, instance_for};
ghost use Rattle.pop_model.specs.Runs.{IsStuckList, start_of};
ghost use Rattle.pop_stacks.specs.Readers.{Belongs};
ghost use Rattle.pop_instance.specs.Index.{IsFamilyIndex};
ghost use Rattle.confluence_core.specs.Kept.{keeps_log};
ghost use Rattle.confluence_core.specs.Runs.{IsRunOf, ended};
ghost use Rattle.confluence_core.specs.Stretches.{IsReached, HasCome, HasEnded, GoesOn, CanGoOn};

use crate::cycle_runs::{occurring_cycles, pop_cycles};
use crate::listed_runs::pop_listed;
use crate::listed_search::{all_have_next, occurring_listed};
use crate::{Keep, Reached, Run, Stuck, Units};
use pop_instance::{Arrows, Cursors, Events, Family, Index, Instance, Values};
use pop_stacks::{Reader, Stacks};
use std::alloc::{AllocError, Global};
use std::marker::Model;

/// Listed events with the index of their variables.
#[derive(Clone, Copy)]
pub struct IndexedEvents<'a> {
    pub events: &'a Events,
    pub index: &'a Index,
}

/// A family of events. A listed family has its index.
#[derive(Clone, Copy)]
pub enum IndexedFamily<'a> {
    Listed(IndexedEvents<'a>),
    Cycles(&'a Arrows),
}

/// What a run needs: stacks, and a family of events with its index if it is listed. Several
/// threads may share it, each with its own reader. Contracts see the instance.
#[derive(Drop)]
pub struct Indexed<'a> {
    stacks: &'a Stacks,
    family: IndexedFamily<'a>,
}

impl<'a> Model for Indexed<'a> {
    ghost use Rattle.pop_model.specs.Instances.{Instance as ModelInstance};
    ghost use Rattle.confluence_core.specs.Indexes.{family_in, IsIndexed};

    ghost Value = { ModelInstance };

    ghost view = { λ a. record { stacks = a.stacks.now; family = family_in a.family } };

    ghost invariant = { λ a. IsIndexed a.stacks.now a.family };
}

impl<'a> Indexed<'a> {
    /// An instance with the index of its family. It allocates nothing.
    pub fn of(instance: &'a Instance, index: &'a Option<Index>) -> Indexed<'a>
        requires index { IsFamilyIndex instance.now.family index.now }
        ensures { result ≡ instance.now }
    {
        let _units = instance.units();
        let family = match (instance.family(), index) {
            (Family::Listed(events), Some(index)) => {
                IndexedFamily::Listed(IndexedEvents { events, index })
            }
            (Family::Cycles(arrows), None) => IndexedFamily::Cycles(arrows),
            _ => unreachable!(),
        };
        Indexed {
            stacks: instance.stacks(),
            family,
        }
    }

    /// The same family over the stacks of sample j. It allocates nothing.
    pub fn for_sample(&self, stacks: &'a Stacks, j: u32) -> Indexed<'a>
        requires sample { stacks.now ≡ stacks_for j self.now.stacks }
        ensures { result ≡ instance_for j self.now }
    {
        let _count = stacks.count();
        Indexed {
            stacks,
            family: self.family,
        }
    }

    /// The stacks.
    pub fn stacks(&self) -> &'a Stacks
        ensures stacks { result.now ≡ self.now.stacks }
        ensures instance { IsInstance self.now }
    {
        self.stacks
    }

    /// The number of units.
    pub fn units(&self) -> u32
        ensures units { result ≡ units_of self.now.family }
    {
        match self.family {
            IndexedFamily::Listed(listed) => listed.events.count(),
            IndexedFamily::Cycles(arrows) => arrows.count(),
        }
    }

    /// A run from zeros before its first pop, with every unit a suspect.
    pub fn opening(&self, alloc: Global, keep: Keep) -> Result<Reached, AllocError>
        ensures { IfOk result (IsReached self.now (start_of self.now) (keeps_log keep)) }
    {
        let zeros = Cursors::zeros(alloc, self.stacks().count())?;
        let suspects = Units::all(alloc, self.units())?;
        Ok(Reached::at(alloc, zeros, suspects, keep))
    }

    /// Continues a run on this thread to its end, or until the total number of pops reaches the
    /// limit. Returns every event that occurs there, by rising unit. If there were fewer pops than
    /// the limit, no suspects are left. If there were none before, the run is at its end and stays
    /// as it was.
    ///
    /// Listed events are judged if they are suspects or share a variable with a popped event,
    /// until none is left. So the time is linear in the instance, the suspects and, for each pop,
    /// the pairs of the events that share a variable with the popped one. Cycles are popped by the
    /// loop-erased walk (Wilson 1996; Propp and Wilson 1998) from each variable. It notes those
    /// that it cannot pop, and needs no suspects.
    pub fn advance(
        &self,
        alloc: Global,
        reader: &mut Reader,
        reached: Reached,
        limit: u64,
    ) -> Result<(Reached, Stuck), AllocError>
        requires belongs { Belongs self.now.stacks reader.old }
        requires reached { HasCome self.now reached }
        ensures on { IfOk result (λ left. GoesOn self.now reached left.0) }
        ensures stuck_list { IfOk result (λ left. IsStuckList self.now left.0.cursors left.1) }
        ensures most { IfOk result (λ left. reached.pops ≤ limit → left.0.pops ≤ limit) }
        ensures end { IfOk result (λ left. left.0.pops < limit → left.0.suspects ≡ []) }
        ensures few { IfOk result (λ left. left.0.pops < 2 ^ 63) }
        ensures reader { reader.new ≡ reader.old }
    {
        let _stacks = self.stacks();
        if reached.suspects.is_empty() {
            let stuck = self.stuck(alloc, reader, &reached)?;
            return Ok((reached, stuck));
        }
        match self.family {
            IndexedFamily::Listed(listed) => {
                let left = pop_listed(alloc, self.stacks, listed, reader, reached, limit)?;
                let stuck = self.stuck(alloc, reader, &left)?;
                Ok((left, stuck))
            }
            IndexedFamily::Cycles(arrows) => {
                pop_cycles(alloc, self.stacks, arrows, reader, reached, limit)
            }
        }
    }

    /// Continues a run on this thread to its end. Returns every event that occurs there, by rising
    /// unit.
    pub fn finish(
        &self,
        alloc: Global,
        reader: &mut Reader,
        reached: Reached,
    ) -> Result<(Reached, Stuck), AllocError>
        requires belongs { Belongs self.now.stacks reader.old }
        requires reached { HasCome self.now reached }
        ensures on { IfOk result (λ left. GoesOn self.now reached left.0) }
        ensures end { IfOk result (λ left. HasEnded self.now left.0 left.1) }
        ensures reader { reader.new ≡ reader.old }
    {
        self.advance(alloc, reader, reached, u64::MAX)
    }

    // Every event that occurs at the cursors of a run, by rising unit. At an end each of these has
    // a variable at its last entry. So if no variable is at its last entry, no event has to be
    // judged.
    fn stuck(
        &self,
        alloc: Global,
        reader: &mut Reader,
        reached: &Reached,
    ) -> Result<Stuck, AllocError>
        requires belongs { Belongs self.now.stacks reader.old }
        requires can { CanGoOn self.now reached.now }
        ensures stuck_list { IfOk result (IsStuckList self.now reached.now.cursors) }
        ensures reader { reader.new ≡ reader.old }
    {
        let cursors = &reached.cursors;
        if reached.suspects.is_empty() && all_have_next(self.stacks, cursors) {
            return Ok(Stuck::new(alloc));
        }
        match self.family {
            IndexedFamily::Listed(listed) => {
                occurring_listed(alloc, self.stacks, listed.events, reader, cursors)
            }
            IndexedFamily::Cycles(arrows) => {
                occurring_cycles(alloc, self.stacks, arrows, reader, cursors)
            }
        }
    }

    /// Continues a run to its end on this thread, and returns its result.
    pub fn run(
        &self,
        alloc: Global,
        reader: &mut Reader,
        reached: Reached,
    ) -> Result<Run, AllocError>
        requires belongs { Belongs self.now.stacks reader.old }
        requires reached { HasCome self.now reached }
        ensures on { IfOk result (λ run. GoesOn self.now reached (ended run)) }
        ensures run { (start : List ℕ) → (keeps : Bool) → IsReached self.now start keeps reached
            → IfOk result (IsRunOf self.now start keeps) }
        ensures reader { reader.new ≡ reader.old }
    {
        let (left, stuck) = self.finish(alloc, reader, reached)?;
        let values = Values::at(alloc, self.stacks, reader, &left.cursors)?;
        Ok(left.told(stuck, values))
    }
}
