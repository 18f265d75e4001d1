ghost use Rattle.std.specs.Prelude.{◌≡◌, ◌<◌, length, map, replicate, All, IfOk};
ghost use Rattle.pop_model.specs.Stacks.{variables_of};
ghost use Rattle.pop_model.specs.Popping.{AreWithin, values_at};
ghost use Rattle.pop_model.specs.Families.Family.{Listed as ListedEvents};
ghost use Rattle.pop_model.specs.Instances.{FitsStacks};
ghost use Rattle.pop_model.specs.Runs.{IsStuckList};
ghost use Rattle.pop_instance.specs.Events.{cube_at};
ghost use Rattle.pop_instance.specs.Index.{IsIndex};
ghost use Rattle.prs_rounds.specs.Rounds.{IsRoundsEnd, LeavesEnd, LeavesStop};
ghost use Rattle.prs_rounds.specs.Units.{IsIndexOf};

use crate::RoundEnd;
use crate::alone::Alone;
use crate::looker::Looker;
use crate::on_threads::OnThreads;
use crate::sight::see_all;
use crate::state::{State, start, turn};
use confluence_core::Stuck;
use pop_instance::{Cursors, Events, Family, Index, Instance};
use pop_stacks::Stacks;
use std::alloc::{AllocError, Global};
use std::thread::Threads;

/// The run by rounds (Guo, Jerrum and Liu 2019). All cursors start at 0. While some event occurs,
/// each variable of the resampling set moves on to its next entry. If one of them has no next
/// entry, the run ends as exhausted. The index must be that of the instance's listed events.
///
/// After the first round only events that name a variable of the last set are judged. So the time
/// is linear in the instance, plus for each round the pairs of the events that share a variable
/// with a resampled one.
pub fn run_rounds<R: Threads + Sync>(
    rt: &R,
    alloc: Global,
    instance: &Instance,
    index: &Index,
) -> Result<RoundEnd, AllocError>
    requires index { IsIndexOf instance.now.family index.now }
    requires variables { length index.now ≡ variables_of instance.now.stacks }
    ensures end { IfOk result
        (λ end. IsRoundsEnd instance.now end.cursors end.rounds end.stuck end.short) }
    ensures count { IfOk result
        (λ end. length end.cursors ≡ variables_of instance.now.stacks) }
    ensures within { IfOk result (λ end. AreWithin instance.now.stacks end.cursors) }
    ensures values { IfOk result
        (λ end. end.values.items ≡ values_at instance.now.stacks end.cursors) }
{
    rounds_by(&OnThreads { rt }, alloc, instance, index)
}

/// The run of `run_rounds` on the calling thread alone. It starts no thread and takes as much time
/// as `run_rounds` on one thread.
pub fn run_rounds_alone(
    alloc: Global,
    instance: &Instance,
    index: &Index,
) -> Result<RoundEnd, AllocError>
    requires index { IsIndexOf instance.now.family index.now }
    requires variables { length index.now ≡ variables_of instance.now.stacks }
    ensures end { IfOk result
        (λ end. IsRoundsEnd instance.now end.cursors end.rounds end.stuck end.short) }
    ensures count { IfOk result
        (λ end. length end.cursors ≡ variables_of instance.now.stacks) }
    ensures within { IfOk result (λ end. AreWithin instance.now.stacks end.cursors) }
    ensures values { IfOk result
        (λ end. end.values.items ≡ values_at instance.now.stacks end.cursors) }
{
    rounds_by(&Alone, alloc, instance, index)
}

// The run of an instance's listed events, on several threads or one.
fn rounds_by<L: Looker>(
    looker: &L,
    alloc: Global,
    instance: &Instance,
    index: &Index,
) -> Result<RoundEnd, AllocError>
    requires can_look { L.can_look }
    requires index { IsIndexOf instance.now.family index.now }
    requires variables { length index.now ≡ variables_of instance.now.stacks }
    ensures { IfOk result (LeavesEnd instance.now) }
{
    let _units = instance.units();
    let stacks = instance.stacks();
    let zeros = zeros_of(alloc, stacks)?;
    match instance.family() {
        Family::Listed(events) => {
            rounds_of(looker, alloc, stacks, events, index, zeros, u64::MAX)
        }
        Family::Cycles(_) => unreachable!(),
    }
}

/// The cursors before any round.
pub(crate) fn zeros_of(alloc: Global, stacks: &Stacks) -> Result<Cursors, AllocError>
    ensures zeros { IfOk result (λ zeros. zeros ≡ replicate (variables_of stacks.now) 0) }
    ensures count { IfOk result (λ zeros. variables_of stacks.now ≡ length zeros) }
    ensures within { IfOk result (AreWithin stacks.now) }
{
    Cursors::zeros(alloc, stacks.count())
}

// The events of these places.
fn copies(alloc: Global, events: &Events, places: &[u32]) -> Result<Stuck, AllocError>
    requires known { All (λ u. u < length events.now) places.now }
    ensures { IfOk result (λ stuck.
        stuck ≡ map (λ u. record { unit = u; cube = cube_at events.now u }) places.now) }
{
    let mut stuck = Stuck::new(alloc);
    for u in places {
        stuck.push(*u, events.cube(*u).copy(alloc)?)?;
    }
    Ok(stuck)
}

// The events that occur, by rising unit.
fn stuck_at<L: Looker>(
    looker: &L,
    alloc: Global,
    stacks: &Stacks,
    events: &Events,
    cursors: &Cursors,
) -> Result<Stuck, AllocError>
    requires can_look { L.can_look }
    requires fits { All (λ r. FitsStacks stacks.now r.1) events.now }
    requires count { variables_of stacks.now ≡ length cursors.now }
    requires within { AreWithin stacks.now cursors.now }
    ensures { IfOk result (IsStuckList
        (record { stacks = stacks.now; family = ListedEvents events.now }) cursors.now) }
{
    let seen = see_all(looker, alloc, stacks, events, cursors)?;
    copies(alloc, events, &seen.found)
}

// The end of a run that stopped at these cursors, with the events that occur there.
fn stopped_at<L: Looker>(
    looker: &L,
    alloc: Global,
    stacks: &Stacks,
    events: &Events,
    state: State,
    rounds: u64,
    short: Option<u32>,
) -> Result<RoundEnd, AllocError>
    requires can_look { L.can_look }
    requires fits { All (λ r. FitsStacks stacks.now r.1) events.now }
    requires count { variables_of stacks.now ≡ length state.cursors }
    requires within { AreWithin stacks.now state.cursors }
    ensures cursors { IfOk result (λ end. end.cursors ≡ state.cursors) }
    ensures values { IfOk result (λ end. end.values ≡ state.values) }
    ensures rounds { IfOk result (λ end. end.rounds ≡ rounds) }
    ensures short { IfOk result (λ end. end.short ≡ short) }
    ensures stuck { IfOk result (λ end. IsStuckList
        (record { stacks = stacks.now; family = ListedEvents events.now }) state.cursors end.stuck) }
{
    let stuck = stuck_at(looker, alloc, stacks, events, &state.cursors)?;
    Ok(RoundEnd {
        cursors: state.cursors,
        rounds,
        stuck,
        values: state.values,
        short,
    })
}

/// The run of listed events from these cursors, to its end or for at most this many rounds.
pub(crate) fn rounds_of<L: Looker>(
    looker: &L,
    alloc: Global,
    stacks: &Stacks,
    events: &Events,
    index: &Index,
    from: Cursors,
    limit: u64,
) -> Result<RoundEnd, AllocError>
    requires can_look { L.can_look }
    requires fits { All (λ r. FitsStacks stacks.now r.1) events.now }
    requires index { IsIndex events.now index.now }
    requires variables { length index.now ≡ variables_of stacks.now }
    requires count { variables_of stacks.now ≡ length from }
    requires within { AreWithin stacks.now from }
    ensures { IfOk result (LeavesStop
        (record { stacks = stacks.now; family = ListedEvents events.now }) from limit) }
{
    let _table = stacks.count();
    let _events = events.count();
    let mut state = start(looker, alloc, stacks, events, from)?;
    let mut rounds: u64 = 0;
    'rounds: while 0 < state.found.len() {
        if rounds >= limit {
            return stopped_at(looker, alloc, stacks, events, state, rounds, None);
        }
        if let Some(v) = turn(looker, alloc, stacks, events, index, &mut state)? {
            return stopped_at(looker, alloc, stacks, events, state, rounds, Some(v));
        }
        rounds += 1;
    }
    Ok(RoundEnd {
        cursors: state.cursors,
        rounds,
        stuck: Stuck::new(alloc),
        values: state.values,
        short: None,
    })
}
