//! Walks along the current arrows. The walk is cut into laps of growing length, and only the start
//! of a lap is kept. So a walk takes no memory, and its time is at most a constant times the
//! number of arrows that it passes (Brent 1980).
ghost use Rattle.std.specs.Prelude.{◌≡◌, ◌<◌, length, MatchOption};
ghost use Rattle.pop_model.specs.Cycles.{ReachesRoot};
ghost use Rattle.pop_stacks.specs.Readers.{Belongs};
ghost use Rattle.confluence_core.specs.CycleTables.{current_head, AreCursors};
ghost use Rattle.confluence_core.specs.ArrowWalks.{LeadsToCycle};
ghost use Rattle.lock_board.specs.ArrowLaps.{Laps};

use confluence_core::CurrentArrows;
use pop_instance::Cursors;
use pop_stacks::Reader;

// The end of a lap of at most a given number of arrows.
enum Lap {
    Root,
    // The lap returned to its start.
    Back,
    // The lap ended at this variable, without returning to its start.
    On(u32),
}

// Follows this many arrows from a variable, unless they lead to the root or back to it earlier.
fn lap_from(
    current: &CurrentArrows,
    reader: &mut Reader,
    cursors: &Cursors,
    start: u32,
    steps: u32,
) -> Lap
    requires known { start < length current.now.heads }
    requires cursors { AreCursors current.now cursors.now }
    requires belongs { Belongs current.now.stacks reader.old }
    ensures laps { Laps current.now cursors.now start steps result }
    ensures reader { reader.new ≡ reader.old }
{
    let _count = current.count();
    let mut v = start;
    'steps: for _ in 0..steps {
        let Some(w) = current.head(reader, cursors, v) else {
            return Lap::Root;
        };
        if w == start {
            return Lap::Back;
        }
        v = w;
    }
    Lap::On(v)
}

/// A variable of the cycle that the current arrows reach from a variable. None exactly if they
/// reach the root. A lap with as many arrows as there are variables ends on the cycle.
pub(crate) fn variable_of_cycle(
    current: &CurrentArrows,
    reader: &mut Reader,
    cursors: &Cursors,
    start: u32,
) -> Option<u32>
    requires known { start < length current.now.heads }
    requires cursors { AreCursors current.now cursors.now }
    requires belongs { Belongs current.now.stacks reader.old }
    ensures found { MatchOption result (ReachesRoot (current_head current.now cursors.now) start)
        (LeadsToCycle current.now cursors.now start) }
    ensures reader { reader.new ≡ reader.old }
{
    let count = current.count();
    let mut from = start;
    let mut steps = 1;
    'laps: loop {
        let lap = count.min(steps);
        match lap_from(current, reader, cursors, from, lap) {
            Lap::Root => return None,
            Lap::Back => return Some(from),
            Lap::On(v) => from = v,
        }
        if lap == count {
            return Some(from);
        }
        steps *= 2;
    }
}
