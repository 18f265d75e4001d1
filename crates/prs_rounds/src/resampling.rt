ghost use Rattle.std.specs.Prelude.{◌≡◌, ◌<◌, length, All, IfOk, filter};
ghost use Rattle.pop_model.specs.Stacks.{variables_of};
ghost use Rattle.pop_model.specs.Popping.{AreWithin};
ghost use Rattle.pop_model.specs.Families.Family.{Listed as ListedEvents};
ghost use Rattle.pop_model.specs.Instances.{FitsStacks};
ghost use Rattle.pop_instance.specs.Index.{IsIndex};
ghost use Rattle.prs_rounds.specs.Resampling.{IsResampled};
ghost use Rattle.prs_rounds.specs.Units.{IsIndexOf, AreUnitsOf};
ghost use Rattle.prs_rounds.specs.Growth.{mark_of, is_joined};

use crate::growth::Growth;
use crate::numbers::all_below;
use crate::on_threads::OnThreads;
use crate::sight::see_all;
use confluence_core::Units;
use pop_instance::{Cursors, Events, Family, Index, Instance};
use pop_stacks::Stacks;
use rayon::prelude::*;
use std::alloc::{AllocError, Global};
use std::thread::Threads;

/// The places of the listed events of the resampling set, rising; they count from 0 (Guo, Jerrum
/// and Liu 2019). The index must be that of these events. Each event is judged once, in parallel.
/// After that the time is linear in the pairs of the events that name a variable of the set.
pub fn resampling_set<R: Threads + Sync>(
    rt: &R,
    alloc: Global,
    instance: &Instance,
    index: &Index,
    cursors: &Cursors,
) -> Result<Units, AllocError>
    requires index { IsIndexOf instance.now.family index.now }
    requires variables { length index.now ≡ variables_of instance.now.stacks }
    requires count { variables_of instance.now.stacks ≡ length cursors.now }
    requires within { AreWithin instance.now.stacks cursors.now }
    ensures units { IfOk result (AreUnitsOf (IsResampled instance.now cursors.now)) }
{
    let _units = instance.units();
    match instance.family() {
        Family::Listed(events) => set_of(rt, alloc, instance.stacks(), events, index, cursors),
        Family::Cycles(_) => unreachable!(),
    }
}

// The places of the events of the resampling set, for this list of events.
fn set_of<R: Threads + Sync>(
    rt: &R,
    alloc: Global,
    stacks: &Stacks,
    events: &Events,
    index: &Index,
    cursors: &Cursors,
) -> Result<Units, AllocError>
    requires fits { All (λ r. FitsStacks stacks.now r.1) events.now }
    requires index { IsIndex events.now index.now }
    requires variables { length index.now ≡ variables_of stacks.now }
    requires count { variables_of stacks.now ≡ length cursors.now }
    requires within { AreWithin stacks.now cursors.now }
    ensures { IfOk result (AreUnitsOf (IsResampled
        (record { stacks = stacks.now; family = ListedEvents events.now }) cursors.now)) }
{
    let seen = see_all(&OnThreads { rt }, alloc, stacks, events, cursors)?;
    let mut growth = Growth::blank(alloc, events.count(), stacks.count())?;
    growth.grow(events, index, &seen.values, &seen.found)?;
    let places = all_below(alloc, events.count())?;
    Ok(Units::of(joined(rt, alloc, &growth, &places)?))
}

// The places, among these and in their order, of the events that are in the set.
fn joined<R: Threads + Sync>(
    rt: &R,
    alloc: Global,
    growth: &Growth,
    places: &[u32],
) -> Result<Vec<u32>, AllocError>
    requires known { All (λ u. u < length growth.now.marks.items) places.now }
    ensures { IfOk result (λ found.
        found.items ≡ filter (λ u. is_joined (mark_of growth.now u)) places.now) }
{
    places
        .par_iter()
        .copied()
        .filter(
            |place: &u32| -> bool
                requires { place.now < length growth.now.marks.items }
                ensures { result ≡ is_joined (mark_of growth.entry.now place.now) }
            { growth.has_joined(*place) },
        )
        .collect(rt, alloc)
}
