//! Finds cycles by their definition: the current arrows are followed from each variable in turn.
ghost use Rattle.std.specs.Prelude.{◌≡◌, ◌<◌, length, IfOk, MatchOption};
ghost use Rattle.pop_model.specs.Stacks.{variables_of};
ghost use Rattle.pop_model.specs.Popping.{AreWithin};
ghost use Rattle.pop_model.specs.Families.Family.{Cycles as CycleEvents};
ghost use Rattle.pop_model.specs.Instances.{FamilyFits};
ghost use Rattle.pop_model.specs.Runs.{IsEnd, IsFirstPoppable};
ghost use Rattle.pop_stacks.specs.Readers.{Belongs};
ghost use Rattle.confluence_core.specs.CycleTables.{AreCursors};
ghost use Rattle.confluence_core.specs.LeastVariables.{IsQuietAt, IsPoppableWalk};
ghost use Rattle.confluence_core.specs.Stuck.{event_of};

use crate::closed_walks::closed_walk;
use crate::current_arrows::CurrentArrows;
use crate::loops::{cube_of, have_next};
use pop_instance::{Arrows, Cube, Cursors};
use pop_stacks::{Reader, Stacks};
use std::alloc::{AllocError, Global};

// The variables of the poppable cycle with this lowest variable, if there is one.
fn poppable_from(
    alloc: Global,
    current: &CurrentArrows,
    reader: &mut Reader,
    cursors: &Cursors,
    start: u32,
) -> Result<Option<Vec<u32>>, AllocError>
    requires known { start < length current.now.heads }
    requires cursors { AreCursors current.now cursors.now }
    requires belongs { Belongs current.now.stacks reader.old }
    ensures poppable { IfOk result (λ found. MatchOption found
        (IsQuietAt current.now cursors.now start)
        (λ members. IsPoppableWalk current.now cursors.now start members.items)) }
    ensures reader { reader.new ≡ reader.old }
{
    let Some(members) = closed_walk(alloc, current, reader, cursors, start, start)? else {
        return Ok(None);
    };
    if !have_next(current, cursors, &members) {
        return Ok(None);
    }
    Ok(Some(members))
}

/// The poppable cycle with the lowest unit, and this unit, if there is one. Its time is at most
/// quadratic in the number of variables.
pub(crate) fn first_poppable_cycle(
    alloc: Global,
    stacks: &Stacks,
    arrows: &Arrows,
    reader: &mut Reader,
    cursors: &Cursors,
) -> Result<Option<(u32, Cube)>, AllocError>
    requires fits { FamilyFits stacks.now (CycleEvents arrows.now) }
    requires count { variables_of stacks.now ≡ length cursors.now }
    requires within { AreWithin stacks.now cursors.now }
    requires belongs { Belongs stacks.now reader.old }
    ensures first { IfOk result (λ found. MatchOption found
        (IsEnd (record { stacks = stacks.now; family = CycleEvents arrows.now }) cursors.now)
        (λ e. IsFirstPoppable (record { stacks = stacks.now; family = CycleEvents arrows.now })
        cursors.now (event_of e))) }
    ensures reader { reader.new ≡ reader.old }
{
    let current = CurrentArrows::of(stacks, arrows);
    for v in 0..current.count() {
        if let Some(members) = poppable_from(alloc, &current, reader, cursors, v)? {
            let cube = cube_of(alloc, &current, reader, cursors, &members)?;
            let (unit, _) = cube.pair(0);
            return Ok(Some((unit, cube)));
        }
    }
    Ok(None)
}
