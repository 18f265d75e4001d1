//! Searches of an instance for the events that are poppable or occur at given cursors.
ghost use Rattle.std.specs.Prelude.{◌≡◌, length, IfOk, MatchOption};
ghost use Rattle.pop_model.specs.Stacks.{variables_of};
ghost use Rattle.pop_model.specs.Popping.{AreWithin};
ghost use Rattle.pop_model.specs.Runs.{IsEnd, IsFirstPoppable, IsStuckList};
ghost use Rattle.pop_stacks.specs.Readers.{Belongs};
ghost use Rattle.confluence_core.specs.Stuck.{event_of};

use crate::Stuck;
use crate::cycle_runs::occurring_cycles;
use crate::cycle_search::first_poppable_cycle;
use crate::listed_search::{first_poppable_listed, occurring_listed};
use pop_instance::{Cube, Cursors, Family, Instance};
use pop_stacks::Reader;
use std::alloc::{AllocError, Global};

/// The poppable event with the lowest unit, and this unit, at cursors that must be below the
/// heights. Listed events are tried from the first on. Cycles are searched from variable 0 on, in
/// time at most quadratic in the number of variables.
pub fn first_poppable(
    alloc: Global,
    instance: &Instance,
    reader: &mut Reader,
    cursors: &Cursors,
) -> Result<Option<(u32, Cube)>, AllocError>
    requires count { variables_of instance.now.stacks ≡ length cursors.now }
    requires within { AreWithin instance.now.stacks cursors.now }
    requires belongs { Belongs instance.now.stacks reader.old }
    ensures first { IfOk result (λ found. MatchOption found (IsEnd instance.now cursors.now)
        (λ e. IsFirstPoppable instance.now cursors.now (event_of e))) }
    ensures reader { reader.new ≡ reader.old }
{
    let _units = instance.units();
    let stacks = instance.stacks();
    match instance.family() {
        Family::Listed(events) => first_poppable_listed(alloc, stacks, events, reader, cursors),
        Family::Cycles(arrows) => first_poppable_cycle(alloc, stacks, arrows, reader, cursors),
    }
}

/// Every event that occurs at cursors, which must be below the heights, by rising unit. Each
/// listed event is judged once, or the current arrow of each variable is read.
pub fn occurring(
    alloc: Global,
    instance: &Instance,
    reader: &mut Reader,
    cursors: &Cursors,
) -> Result<Stuck, AllocError>
    requires count { variables_of instance.now.stacks ≡ length cursors.now }
    requires within { AreWithin instance.now.stacks cursors.now }
    requires belongs { Belongs instance.now.stacks reader.old }
    ensures stuck_list { IfOk result (IsStuckList instance.now cursors.now) }
    ensures reader { reader.new ≡ reader.old }
{
    let _units = instance.units();
    let stacks = instance.stacks();
    match instance.family() {
        Family::Listed(events) => occurring_listed(alloc, stacks, events, reader, cursors),
        Family::Cycles(arrows) => occurring_cycles(alloc, stacks, arrows, reader, cursors),
    }
}
