ghost use Rattle.std.specs.Prelude.{◌≡◌, ◌<◌};

use crate::Gate;
use crate::turns::Turns;
use lock_board::{Attempt, Book, Site};
use pop_instance::Instance;
use pop_stacks::Reader;
use std::alloc::{AllocError, Global};
use std::sync::{Mutex, Wait};
use worker_hints::Worker;

// The largest number of turns of a worker, after which it ends.
const MOST_TURNS: u64 = 1 << 32;

/// The work of one worker on a book under a lock. In each turn it attempts one unit.
pub(crate) fn attempt_in_turns<N: Site, R: Wait, G: Gate>(
    rt: &R,
    alloc: Global,
    instance: &Instance,
    board: &Mutex<Book<N>>,
    worker: Worker,
    gate: &G,
) -> Result<(), AllocError>
    requires site { instance.now ≡ N.instance }
{
    let mut turns = Turns::of(worker, instance.units());
    let mut reader = Reader::keeping(alloc, instance.stacks())?;
    let mut next = turns.next();
    for turn in 0..MOST_TURNS {
        gate.at(worker.number, turn);
        let Some(unit) = next else {
            break;
        };
        match board.lock(rt).attempt(alloc, &mut reader, unit) {
            Attempt::Popped => turns.note_pop(),
            Attempt::Absent | Attempt::Stuck => {}
            Attempt::OutOfMemory => return Err(AllocError),
        }
        next = turns.next();
    }
    Ok(())
}
