ghost use Rattle.std.specs.Prelude.{◌≡◌, ◌<◌, ◌≤◌, length, IfOk, MatchOption};
ghost use Rattle.pop_stacks.specs.Readers.{Belongs};
ghost use Rattle.confluence_core.specs.CycleTables.{AreCursors};
ghost use Rattle.confluence_core.specs.ArrowWalks.{HasNoCycle, IsClosedWalk};

use crate::current_arrows::CurrentArrows;
use pop_instance::Cursors;
use pop_stacks::Reader;
use std::alloc::{AllocError, Global};

/// The variables of a cycle that occurs, in the order of its arrows from `start` on. The cycle
/// must name `start` and no variable below `low`. The result is None exactly if there is no such
/// cycle. The current arrows are followed at most once through all variables, and not beyond a
/// variable below `low`.
pub fn closed_walk(
    alloc: Global,
    current: &CurrentArrows,
    reader: &mut Reader,
    cursors: &Cursors,
    start: u32,
    low: u32,
) -> Result<Option<Vec<u32>>, AllocError>
    requires known { start < length current.now.heads }
    requires low { low ≤ start }
    requires cursors { AreCursors current.now cursors.now }
    requires belongs { Belongs current.now.stacks reader.old }
    ensures walk { IfOk result (λ found. MatchOption found
        (HasNoCycle current.now cursors.now low start)
        (λ members. IsClosedWalk current.now cursors.now low start members.items)) }
    ensures reader { reader.new ≡ reader.old }
{
    let count = current.count() as usize;
    let mut members = Vec::new(alloc);
    let mut v = start;
    'arrows: while members.len() < count {
        members.push(v)?;
        let Some(w) = current.head(reader, cursors, v) else {
            return Ok(None);
        };
        if w == start {
            return Ok(Some(members));
        }
        if w < low {
            return Ok(None);
        }
        v = w;
    }
    Ok(None)
}
