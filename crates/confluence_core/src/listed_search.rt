ghost use Rattle.std.specs.Prelude.{◌≡◌, ◌<◌, ◌↔◌, [], length, All, IfOk, IsTrue, MatchOption};
ghost use Rattle.pop_model.specs.Stacks.{variables_of};
ghost use Rattle.pop_model.specs.Popping.{AreWithin};
ghost use Rattle.pop_model.specs.Families.Family.{Listed as ListedEvents};
ghost use Rattle.pop_model.specs.Instances.{FamilyFits, FitsStacks};
ghost use Rattle.pop_model.specs.Runs.{IsEnd, IsFirstPoppable, IsStuckList};
ghost use Rattle.pop_stacks.specs.Readers.{Belongs};
ghost use Rattle.confluence_core.specs.Search.{Covers, IsNextPlace, AllHaveNext};
ghost use Rattle.confluence_core.specs.Stuck.{event_of};

use crate::Stuck;
use crate::work_list::WorkList;
use pop_instance::{Cube, Cursors, Events};
use pop_stacks::{Reader, Stacks};
use std::alloc::{AllocError, Global};

// The first poppable event, and its unit.
pub(crate) fn first_poppable_listed(
    alloc: Global,
    stacks: &Stacks,
    events: &Events,
    reader: &mut Reader,
    cursors: &Cursors,
) -> Result<Option<(u32, Cube)>, AllocError>
    requires fits { FamilyFits stacks.now (ListedEvents events.now) }
    requires count { variables_of stacks.now ≡ length cursors.now }
    requires within { AreWithin stacks.now cursors.now }
    requires belongs { Belongs stacks.now reader.old }
    ensures first { IfOk result (λ found. MatchOption found
        (IsEnd (record { stacks = stacks.now; family = ListedEvents events.now }) cursors.now)
        (λ e. IsFirstPoppable (record { stacks = stacks.now; family = ListedEvents events.now })
        cursors.now (event_of e))) }
    ensures reader { reader.new ≡ reader.old }
{
    for place in 0..events.count() {
        let cube = events.cube(place);
        if cursors.poppable(stacks, reader, cube) {
            let copy = cube.copy(alloc)?;
            return Ok(Some((place, copy)));
        }
    }
    Ok(None)
}

// The place of the event to pop next, if the limit is not reached and there is one. It is removed
// from the work list, together with those before it that are not poppable.
pub(crate) fn next_below(
    stacks: &Stacks,
    events: &Events,
    reader: &mut Reader,
    cursors: &Cursors,
    work: &mut WorkList,
    is_below: bool,
) -> Option<u32>
    requires fits { All (λ r. FitsStacks stacks.now r.1) events.now }
    requires count { variables_of stacks.now ≡ length cursors.now }
    requires within { AreWithin stacks.now cursors.now }
    requires belongs { Belongs stacks.now reader.old }
    requires units { work.old.units ≡ length events.now }
    requires covers { Covers stacks.now cursors.now events.now work.old.list }
    ensures next { MatchOption result
        ((IsTrue is_below → work.new.list ≡ [])
        × Covers stacks.now cursors.now events.now work.new.list)
        (λ place. IsTrue is_below
        × IsNextPlace stacks.now cursors.now events.now work.new.list place) }
    ensures units { work.new.units ≡ work.old.units }
    ensures reader { reader.new ≡ reader.old }
{
    if !is_below {
        return None;
    }
    while let Some(unit) = work.take() {
        if cursors.poppable(stacks, reader, events.cube(unit)) {
            return Some(unit);
        }
    }
    None
}

// The events that occur, by rising unit.
pub(crate) fn occurring_listed(
    alloc: Global,
    stacks: &Stacks,
    events: &Events,
    reader: &mut Reader,
    cursors: &Cursors,
) -> Result<Stuck, AllocError>
    requires fits { FamilyFits stacks.now (ListedEvents events.now) }
    requires count { variables_of stacks.now ≡ length cursors.now }
    requires within { AreWithin stacks.now cursors.now }
    requires belongs { Belongs stacks.now reader.old }
    ensures stuck_list { IfOk result (IsStuckList
        (record { stacks = stacks.now; family = ListedEvents events.now }) cursors.now) }
    ensures reader { reader.new ≡ reader.old }
{
    let mut stuck = Stuck::new(alloc);
    for unit in 0..events.count() {
        let cube = events.cube(unit);
        if cursors.occurs(stacks, reader, cube) {
            stuck.push(unit, cube.copy(alloc)?)?;
        }
    }
    Ok(stuck)
}

/// Whether each variable has an entry after its cursor.
pub(crate) fn all_have_next(stacks: &Stacks, cursors: &Cursors) -> bool
    requires count { variables_of stacks.now ≡ length cursors.now }
    requires within { AreWithin stacks.now cursors.now }
    ensures { IsTrue result ↔ AllHaveNext stacks.now cursors.now }
{
    for v in 0..stacks.count() {
        let height = stacks.height(v);
        if cursors.get(v) + 1 >= height {
            return false;
        }
    }
    true
}
