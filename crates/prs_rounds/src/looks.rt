ghost use Rattle.std.specs.Prelude.{◌≡◌, length, All, IfOk};
ghost use Rattle.pop_model.specs.Stacks.{variables_of};
ghost use Rattle.pop_model.specs.Popping.{AreWithin, values_at};
ghost use Rattle.pop_model.specs.Families.Family.{Listed as ListedEvents};
ghost use Rattle.pop_model.specs.Instances.{FitsStacks};
ghost use Rattle.prs_rounds.specs.Resampling.{OccursIn};
ghost use Rattle.prs_rounds.specs.Units.{IsListed, AreUnitsOf};
ghost use Rattle.prs_rounds.specs.Values.{shown_places, shown_units};

use crate::on_threads::OnThreads;
use crate::sight::see_all;
use confluence_core::Units;
use pop_instance::{Cursors, Events, Family, Instance};
use pop_stacks::Stacks;
use std::alloc::{AllocError, Global};
use std::thread::Threads;

/// The places of the listed events that occur, rising; they count from 0. Each event is judged
/// once, in parallel. The list is the one that a single thread makes.
pub fn violated<R: Threads + Sync>(
    rt: &R,
    alloc: Global,
    instance: &Instance,
    cursors: &Cursors,
) -> Result<Units, AllocError>
    requires listed { IsListed instance.now.family }
    requires count { variables_of instance.now.stacks ≡ length cursors.now }
    requires within { AreWithin instance.now.stacks cursors.now }
    ensures units { IfOk result (AreUnitsOf (OccursIn instance.now cursors.now)) }
    ensures list { IfOk result (λ units.
        units ≡ shown_units (values_at instance.now.stacks cursors.now) instance.now.family) }
{
    let _units = instance.units();
    match instance.family() {
        Family::Listed(events) => violated_of(rt, alloc, instance.stacks(), events, cursors),
        Family::Cycles(_) => unreachable!(),
    }
}

// The places of those of these events that occur, rising.
fn violated_of<R: Threads + Sync>(
    rt: &R,
    alloc: Global,
    stacks: &Stacks,
    events: &Events,
    cursors: &Cursors,
) -> Result<Units, AllocError>
    requires fits { All (λ r. FitsStacks stacks.now r.1) events.now }
    requires count { variables_of stacks.now ≡ length cursors.now }
    requires within { AreWithin stacks.now cursors.now }
    ensures units { IfOk result (AreUnitsOf (OccursIn
        (record { stacks = stacks.now; family = ListedEvents events.now }) cursors.now)) }
    ensures list { IfOk result (λ units.
        units ≡ shown_places (values_at stacks.now cursors.now) events.now) }
{
    let seen = see_all(&OnThreads { rt }, alloc, stacks, events, cursors)?;
    Ok(Units::of(seen.found))
}
