ghost use Rattle.std.specs.Prelude.{◌≡◌, length, All, IfOk};
ghost use Rattle.pop_model.specs.Stacks.{variables_of};
ghost use Rattle.pop_model.specs.Popping.{AreWithin, NamesBelow, values_at};
ghost use Rattle.pop_model.specs.Families.Family.{Listed as ListedEvents};
ghost use Rattle.pop_model.specs.Instances.{FitsStacks};
ghost use Rattle.prs_rounds.specs.Resampling.{OccursIn};
ghost use Rattle.prs_rounds.specs.Units.{AreUnitsOf};
ghost use Rattle.prs_rounds.specs.Values.{AreValues, shown_places};
ghost use Rattle.prs_rounds.specs.Grown.{StartsAt};

use crate::front::Front;
use crate::looker::Looker;
use crate::numbers::all_below;
use pop_instance::{Cursors, Events};
use pop_stacks::Stacks;
use std::alloc::{AllocError, Global};

/// The values and the events that occur at cursors.
#[derive(Drop)]
pub(crate) struct Sight {
    /// The current value of each variable.
    pub values: Vec<u32>,
    /// The places of the events that occur, rising.
    pub found: Vec<u32>,
}

// The current value of each variable.
fn all_values<L: Looker>(
    looker: &L,
    alloc: Global,
    stacks: &Stacks,
    cursors: &Cursors,
) -> Result<Vec<u32>, AllocError>
    requires can_look { L.can_look }
    requires count { variables_of stacks.now ≡ length cursors.now }
    requires within { AreWithin stacks.now cursors.now }
    ensures { IfOk result (λ values. AreValues stacks.now cursors.now values.items) }
{
    let variables = all_below(alloc, stacks.count())?;
    let values = looker.read(alloc, Front { stacks, cursors }, &variables)?;
    drop(variables);
    Ok(values)
}

// The places of the events that occur with these values, rising.
fn all_shown<L: Looker>(
    looker: &L,
    alloc: Global,
    events: &Events,
    values: &[u32],
) -> Result<Vec<u32>, AllocError>
    requires can_look { L.can_look }
    requires fits { All (λ r. NamesBelow r.1 (length values.now)) events.now }
    ensures { IfOk result (λ found. found.items ≡ shown_places values.now events.now) }
{
    let places = all_below(alloc, events.count())?;
    let found = looker.occurring(alloc, events, values, &places)?;
    drop(places);
    Ok(found)
}

/// The current values, and the places of the events that occur, rising. Each variable is read
/// once, and each event is judged once.
pub(crate) fn see_all<L: Looker>(
    looker: &L,
    alloc: Global,
    stacks: &Stacks,
    events: &Events,
    cursors: &Cursors,
) -> Result<Sight, AllocError>
    requires can_look { L.can_look }
    requires fits { All (λ r. FitsStacks stacks.now r.1) events.now }
    requires count { variables_of stacks.now ≡ length cursors.now }
    requires within { AreWithin stacks.now cursors.now }
    ensures units { IfOk result (λ seen. AreUnitsOf
        (OccursIn (record { stacks = stacks.now; family = ListedEvents events.now }) cursors.now)
        seen.found.items) }
    ensures list { IfOk result (λ seen.
        seen.found.items ≡ shown_places (values_at stacks.now cursors.now) events.now) }
    ensures starts { IfOk result (λ seen.
        StartsAt stacks.now events.now cursors.now seen.values.items seen.found.items) }
{
    let values = all_values(looker, alloc, stacks, cursors)?;
    let found = all_shown(looker, alloc, events, &values)?;
    Ok(Sight { values, found })
}
