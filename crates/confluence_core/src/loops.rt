//! The variables of a loop of current arrows, one after another.
ghost use Rattle.std.specs.Prelude.{◌≡◌, ◌≢◌, ◌<◌, ◌-◌, ◌^◌, ◌↔◌, length, All, AllPairs, IfOk, IsTrue};
ghost use Rattle.pop_model.specs.Popping.{cursor};
ghost use Rattle.pop_stacks.specs.Readers.{Belongs};
ghost use Rattle.confluence_core.specs.CycleTables.{AreCursors};
ghost use Rattle.confluence_core.specs.Loops.{AreMembers, HaveNext, IsCubeOf, Raises, Marks};

use crate::current_arrows::CurrentArrows;
use pop_instance::{Cube, Cursors};
use pop_stacks::Reader;
use std::alloc::{AllocError, Global};

// Whether each of these variables has an entry after its cursor.
pub(crate) fn have_next(current: &CurrentArrows, cursors: &Cursors, members: &[u32]) -> bool
    requires known { All (λ v. v < length current.now.heads) members.now }
    requires cursors { AreCursors current.now cursors.now }
    ensures { IsTrue result ↔ HaveNext current.now cursors.now members.now }
{
    for v in members {
        if !current.has_next(cursors, *v) {
            return false;
        }
    }
    true
}

// These variables with their current slots, sorted by variable: the pairs of their cube.
fn sorted_pairs(
    alloc: Global,
    current: &CurrentArrows,
    reader: &mut Reader,
    cursors: &Cursors,
    members: &[u32],
) -> Result<Vec<(u32, u32)>, AllocError>
    requires members { AreMembers current.now members.now }
    requires cursors { AreCursors current.now cursors.now }
    requires belongs { Belongs current.now.stacks reader.old }
    ensures cube { IfOk result (λ pairs. IsCubeOf current.now cursors.now members.now pairs.items) }
    ensures each { IfOk result (λ pairs. length pairs.items ≡ length members.now) }
    ensures reader { reader.new ≡ reader.old }
{
    let mut pairs = Vec::with_capacity(alloc, members.len())?;
    for v in members {
        pairs.push((*v, current.slot(reader, cursors, *v)))?;
    }
    pairs.sort_unstable_by_key(|pair| pair.0);
    Ok(pairs)
}

/// The cube of these variables, each with its current slot. There must be at least one variable,
/// all below 2^31 and all different.
pub fn cube_of(
    alloc: Global,
    current: &CurrentArrows,
    reader: &mut Reader,
    cursors: &Cursors,
    members: &[u32],
) -> Result<Cube, AllocError>
    requires members { AreMembers current.now members.now }
    requires cursors { AreCursors current.now cursors.now }
    requires short { length members.now < 2 ^ 31 }
    requires belongs { Belongs current.now.stacks reader.old }
    ensures cube { IfOk result (IsCubeOf current.now cursors.now members.now) }
    ensures reader { reader.new ≡ reader.old }
{
    let pairs = sorted_pairs(alloc, current, reader, cursors, members)?;
    let Some(cube) = Cube::new(pairs) else {
        unreachable!()
    };
    Ok(cube)
}

// Moves the cursors of these variables on by 1.
pub(crate) fn raise(cursors: &mut Cursors, members: &[u32])
    requires known { All (λ v. v < length cursors.old) members.now }
    requires differ { AllPairs (λ v w. v ≢ w) members.now }
    requires room { All (λ v. cursor cursors.old v < 2 ^ 31 - 1) members.now }
    ensures { Raises members.now (length members.now) cursors.old cursors.new }
{
    for v in members {
        cursors.move_on(*v);
    }
}

// Gives these variables a mark.
pub(crate) fn mark_all(marks: &mut [u32], members: &[u32], mark: u32)
    requires known { All (λ v. v < length marks.old) members.now }
    ensures { Marks members.now (length members.now) mark marks.old marks.new }
{
    for v in members {
        marks[*v as usize] = mark;
    }
}
