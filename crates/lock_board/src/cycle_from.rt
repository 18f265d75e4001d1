ghost use Rattle.std.specs.Prelude.{◌≡◌, ◌<◌, length, IfOk};
ghost use Rattle.pop_stacks.specs.Readers.{Belongs};
ghost use Rattle.confluence_core.specs.CycleTables.{AreCursors};
ghost use Rattle.confluence_core.specs.ArrowWalks.{IsFoundAt};

use crate::arrow_walk::variable_of_cycle;
use confluence_core::{CurrentArrows, closed_walk, cube_of};
use pop_instance::{Cube, Cursors};
use pop_stacks::Reader;
use std::alloc::{AllocError, Global};

/// The cycle that the current arrows reach from a variable; it occurs. None exactly if they reach
/// the root.
pub(crate) fn cycle_from(
    alloc: Global,
    current: &CurrentArrows,
    reader: &mut Reader,
    cursors: &Cursors,
    start: u32,
) -> Result<Option<Cube>, AllocError>
    requires known { start < length current.now.heads }
    requires cursors { AreCursors current.now cursors.now }
    requires belongs { Belongs current.now.stacks reader.old }
    ensures found { IfOk result (IsFoundAt current.now cursors.now start) }
    ensures reader { reader.new ≡ reader.old }
{
    let _count = current.count();
    let Some(v) = variable_of_cycle(current, reader, cursors, start) else {
        return Ok(None);
    };
    let Some(members) = closed_walk(alloc, current, reader, cursors, v, 0)? else {
        unreachable!()
    };
    Ok(Some(cube_of(alloc, current, reader, cursors, &members)?))
}
