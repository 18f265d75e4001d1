//! Runs that begin at given cursors, and runs that stop after a number of pops.
ghost use Rattle.std.specs.Prelude.{◌≡◌, ◌≤◌, ◌<◌, ◌^◌, [], false, Some, IsTrue, IfOk};
ghost use Rattle.pop_model.specs.Stacks.{variables_of};
ghost use Rattle.pop_model.specs.Popping.{AreWithin};
ghost use Rattle.pop_model.specs.Extremal.{IsExtremal};
ghost use Rattle.pop_model.specs.Runs.{IsEnd, IsStuckList};
ghost use Rattle.pop_stacks.specs.Readers.{Belongs};
ghost use Rattle.confluence_core.specs.Stretches.{HasCome, IsReached};
ghost use Rattle.pop_batch.specs.Parts.{CanStart, IsEndFrom, IsOpen, IsStopFrom, start_at};

use crate::part::Part;
use confluence_core::{Indexed, Keep, Reached, Stuck, Units};
use pop_instance::{Cursors, Values};
use pop_stacks::Reader;
use std::alloc::{AllocError, Global};

// A run before its first pop, at these cursors, or at zeros if there are none.
fn beginning(alloc: Global, sample: &Indexed, from: Option<Cursors>) -> Result<Reached, AllocError>
    requires start { CanStart sample.now from }
    ensures reached { IfOk result (IsReached sample.now (start_at sample.now from) false) }
    ensures none { IfOk result (λ reached. reached.pops ≡ 0) }
{
    let suspects = Units::all(alloc, sample.units())?;
    let cursors = match from {
        Some(cursors) => cursors,
        None => Cursors::zeros(alloc, sample.stacks().count())?,
    };
    Ok(Reached::at(alloc, cursors, suspects, Keep::Nothing))
}

// Whether an event can be popped at these cursors. If so, a run from there makes a pop.
fn can_pop(
    alloc: Global,
    sample: &Indexed,
    reader: &mut Reader,
    cursors: &Cursors,
) -> Result<bool, AllocError>
    requires start { CanStart sample.now (Some cursors.now) }
    requires belongs { Belongs sample.now.stacks reader.old }
    ensures poppable { IfOk result (λ can. IsTrue can → IsOpen sample.now cursors.now) }
    ensures end { IfOk result (λ can. (IsTrue can → ⊥) → IsEnd sample.now cursors.now) }
    ensures reader { reader.new ≡ reader.old }
{
    let copy = cursors.copy(alloc)?;
    let begun = beginning(alloc, sample, Some(copy))?;
    let (left, _) = sample.advance(alloc, reader, begun, 1)?;
    Ok(left.pops > 0)
}

// Whether a run with this limit of pops was stopped before its end.
fn is_stopped(
    alloc: Global,
    sample: &Indexed,
    reader: &mut Reader,
    left: &Reached,
    stuck: &Stuck,
    limit: u64,
) -> Result<bool, AllocError>
    requires come { HasCome sample.now left.now }
    requires stuck_list { IsStuckList sample.now left.now.cursors stuck.now }
    requires end { left.now.pops < limit → left.now.suspects ≡ [] }
    requires belongs { Belongs sample.now.stacks reader.old }
    ensures limit { IfOk result (λ is. IsTrue is → limit ≤ left.now.pops) }
    ensures poppable { IfOk result (λ is. IsTrue is → IsOpen sample.now left.now.cursors) }
    ensures end { IfOk result (λ is. (IsTrue is → ⊥) → IsEnd sample.now left.now.cursors) }
    ensures reader { reader.new ≡ reader.old }
{
    if left.pops < limit || stuck.len() == 0 {
        return Ok(false);
    }
    can_pop(alloc, sample, reader, &left.cursors)
}

/// The run from these cursors, or from zeros if there are none, to its end or for at most this
/// many pops.
pub(crate) fn part_of(
    alloc: Global,
    sample: &Indexed,
    reader: &mut Reader,
    from: Option<Cursors>,
    limit: u64,
) -> Result<Part, AllocError>
    requires start { CanStart sample.now from }
    requires extremal { IsExtremal sample.now.family }
    requires belongs { Belongs sample.now.stacks reader.old }
    ensures stopped { IfOk result (λ part. IsTrue part.is_open
        → IsStopFrom sample.now (start_at sample.now from) part.at × (part.at.pops ≡ limit)) }
    ensures ended { IfOk result (λ part. (IsTrue part.is_open → ⊥)
        → IsEndFrom sample.now (start_at sample.now from) part.at) }
    ensures most { IfOk result (λ part. part.at.pops ≤ limit) }
    ensures few { IfOk result (λ part. part.at.pops < 2 ^ 63) }
    ensures reader { reader.new ≡ reader.old }
{
    let begun = beginning(alloc, sample, from)?;
    let (left, stuck) = sample.advance(alloc, reader, begun, limit)?;
    let is_open = is_stopped(alloc, sample, reader, &left, &stuck, limit)?;
    let values = Values::at(alloc, sample.stacks(), reader, &left.cursors)?;
    let at = left.told(stuck, values).end;
    Ok(Part { at, is_open })
}
