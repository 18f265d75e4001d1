ghost use Rattle.std.specs.Prelude.{◌≡◌, ◌<◌, ◌≤◌, ◌^◌, ◌∷◌, [], length, IfOk, OnOk};
ghost use Rattle.pop_model.specs.Popping.{NamesBelow};
ghost use Rattle.pop_model.specs.Families.Family.{Listed as ListedEvents};
ghost use Rattle.pop_model.specs.Instances.{IsInstance};
ghost use Rattle.pop_stacks.specs.Readers.{Belongs};
ghost use Rattle.pop_instance.specs.Index.{IsIndex};
ghost use Rattle.confluence_core.specs.Records.{record_at};
ghost use Rattle.confluence_core.specs.Waiting.{PopsListed};
ghost use Rattle.confluence_core.specs.Stretches.{HasCome, GoesOn, with_more};

use crate::indexed::IndexedEvents;
use crate::listed_search::next_below;
use crate::work_list::WorkList;
use crate::{Log, Reached, Record};
use pop_instance::{Cube, Cursors};
use pop_stacks::{Reader, Stacks};
use std::alloc::{AllocError, Global};

/// Continues a run of listed events to its end, or until the number of pops reaches the limit. It
/// uses a work list that is filled from the suspects and the index. The units that are left in it
/// become the suspects.
pub(crate) fn pop_listed(
    alloc: Global,
    stacks: &Stacks,
    listed: IndexedEvents,
    reader: &mut Reader,
    reached: Reached,
    limit: u64,
) -> Result<Reached, AllocError>
    requires instance { IsInstance
        (record { stacks = stacks.now; family = ListedEvents listed.events.now }) }
    requires index { IsIndex listed.events.now listed.index.now }
    requires belongs { Belongs stacks.now reader.old }
    requires reached { HasCome
        (record { stacks = stacks.now; family = ListedEvents listed.events.now }) reached }
    ensures on { IfOk result (GoesOn
        (record { stacks = stacks.now; family = ListedEvents listed.entry.events.now }) reached) }
    ensures most { IfOk result (λ new. reached.pops ≤ limit → new.pops ≤ limit) }
    ensures end { IfOk result (λ new. new.pops < limit → new.suspects ≡ []) }
    ensures few { IfOk result (λ new. new.pops < 2 ^ 63) }
    ensures reader { reader.new ≡ reader.old }
{
    let mut reached = reached;
    let mut work = WorkList::of(alloc, listed.events.count(), reached.suspects.as_slice())?;
    pop_waiting(
        alloc,
        stacks,
        listed,
        reader,
        &mut reached,
        &mut work,
        limit,
    )?;
    reached.suspects = work.into_units();
    Ok(reached)
}

// Pops the events that wait in a work list, to the end of the run or up to the limit. The work
// list is filled from the index.
fn pop_waiting(
    alloc: Global,
    stacks: &Stacks,
    listed: IndexedEvents,
    reader: &mut Reader,
    reached: &mut Reached,
    work: &mut WorkList,
    limit: u64,
) -> Result<(), AllocError>
    requires instance { IsInstance
        (record { stacks = stacks.now; family = ListedEvents listed.events.now }) }
    requires index { IsIndex listed.events.now listed.index.now }
    requires belongs { Belongs stacks.now reader.old }
    requires waits { PopsListed stacks.now listed.events.now limit reached.old reached.old work.old }
    ensures popped { OnOk result (PopsListed stacks.now listed.entry.events.now limit
        reached.old reached.new work.new) }
    ensures end { OnOk result (reached.new.pops < limit → work.new.list ≡ []) }
    ensures reader { reader.new ≡ reader.old }
{
    let IndexedEvents { events, index } = listed;
    'pops: while let Some(place) = next_below(
        stacks,
        events,
        reader,
        &reached.cursors,
        work,
        reached.pops < limit,
    ) {
        let cube = events.cube(place);
        keep_record(alloc, &mut reached.log, place, cube, &reached.cursors)?;
        reached.cursors.pop(cube);
        reached.pops += 1;
        work.add_sharing(index, cube)?;
    }
    Ok(())
}

// Adds the record of an event that is popped at these cursors, if the log is kept.
fn keep_record(
    alloc: Global,
    log: &mut Option<Log>,
    unit: u32,
    cube: &Cube,
    cursors: &Cursors,
) -> Result<(), AllocError>
    requires known { NamesBelow cube.now (length cursors.now) }
    ensures { OnOk result
        (log.new ≡ with_more log.old (record_at unit cube.now cursors.now ∷ [])) }
{
    if let Some(log) = log {
        log.push(Record::at(alloc, unit, cube, cursors)?)?;
    }
    Ok(())
}
