ghost use Rattle.std.specs.Prelude.{◌≡◌, ◌<◌, length, All, IfOk};
ghost use Rattle.pop_model.specs.Stacks.{variables_of};
ghost use Rattle.pop_model.specs.Popping.{AreWithin};
ghost use Rattle.pop_model.specs.Instances.{FitsStacks};
ghost use Rattle.pop_instance.specs.Index.{IsIndex};
ghost use Rattle.prs_rounds.specs.States.{IsAt, Turns};

use crate::growth::Growth;
use crate::looker::Looker;
use crate::moves::{least_short, move_on, refresh};
use crate::sight::see_all;
use pop_instance::{Cursors, Events, Index};
use pop_stacks::Stacks;
use std::alloc::{AllocError, Global};

/// The state of a run by rounds between two rounds.
#[derive(Drop)]
pub(crate) struct State {
    pub cursors: Cursors,
    /// The current value of each variable.
    pub values: Vec<u32>,
    /// The places of the events that occur, in any order.
    pub found: Vec<u32>,
    /// The search for the resampling set. No event is marked in it yet.
    pub growth: Growth,
}

/// The state at these cursors. Each variable is read and each event is judged.
pub(crate) fn start<L: Looker>(
    looker: &L,
    alloc: Global,
    stacks: &Stacks,
    events: &Events,
    cursors: Cursors,
) -> Result<State, AllocError>
    requires can_look { L.can_look }
    requires fits { All (λ r. FitsStacks stacks.now r.1) events.now }
    requires count { variables_of stacks.now ≡ length cursors }
    requires within { AreWithin stacks.now cursors }
    ensures at { IfOk result (IsAt stacks.now events.now) }
    ensures cursors { IfOk result (λ state. state.cursors ≡ cursors) }
{
    let seen = see_all(looker, alloc, stacks, events, &cursors)?;
    let growth = Growth::blank(alloc, events.count(), stacks.count())?;
    Ok(State {
        cursors,
        values: seen.values,
        found: seen.found,
        growth,
    })
}

/// Makes a round if each variable of the resampling set has a next entry. Otherwise it returns the
/// lowest variable that has none, and the cursors stay. Only events that name a variable of the
/// set are judged: no other event can have begun or ceased to occur.
pub(crate) fn turn<L: Looker>(
    looker: &L,
    alloc: Global,
    stacks: &Stacks,
    events: &Events,
    index: &Index,
    state: &mut State,
) -> Result<Option<u32>, AllocError>
    requires can_look { L.can_look }
    requires fits { All (λ r. FitsStacks stacks.now r.1) events.now }
    requires index { IsIndex events.now index.now }
    requires variables { length index.now ≡ variables_of stacks.now }
    requires at { IsAt stacks.now events.now state.old }
    requires some { 0 < length state.old.found.items }
    ensures { IfOk result (Turns stacks.now events.now state.old state.new) }
{
    let _table = stacks.count();
    state
        .growth
        .grow(events, index, &state.values, &state.found)?;
    if let Some(v) = least_short(stacks, &state.cursors, &state.growth.variables) {
        return Ok(Some(v));
    }
    move_on(&mut state.cursors, &state.growth.variables);
    refresh(
        looker,
        alloc,
        stacks,
        &state.cursors,
        &state.growth.variables,
        &mut state.values,
    )?;
    state.found = looker.occurring(alloc, events, &state.values, &state.growth.looked)?;
    state.growth.clear();
    Ok(None)
}
