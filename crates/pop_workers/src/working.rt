//! The turns of a worker on a board of claim words.
ghost use Rattle.std.specs.Prelude.{◌≡◌, OnOk};
ghost use Rattle.claim_words.specs.Passes.{view, opening_of};
ghost use Rattle.claim_words.specs.TicketLogs.{IsLegalFrom};
ghost use Rattle.pop_workers.specs.AtWork.{IsSharedOn, HasTools, KeepsTools, IsIdleOn};
ghost use Rattle.pop_workers.specs.Attempts.{Goes};

use crate::Gate;
use crate::found::Found;
use crate::searching::{search, spread};
use crate::shared::Shared;
use crate::tools::Tools;
use claim_words::{Board, Pass};
use std::alloc::AllocError;
use worker_hints::{Own, Range, give, next};

// The largest number of turns of a worker, after which it ends.
const MOST_TURNS: u64 = 1 << 32;

// How many turns in a row a worker may meet others. Each time a path is thrown away. If walks are
// long and cross, the others are faster without this worker, so it ends.
const MOST_MEETINGS: u32 = 100;

// The largest number of cycles that a walk pops before its worker takes the next hint.
const POPS: u64 = 1 << 32;

/// The turns of a worker: a search at each hint, until there is none. After a pop it adds hints
/// for the units at which events may have become poppable. A hint at which it met another worker
/// is kept until the next hint is taken; then, or at the end, it is added again. The error is
/// returned only if memory runs out.
pub(crate) fn work<W: Range, G: Gate>(
    board: &Board,
    pass: &mut Pass,
    shared: &Shared<W>,
    tools: &mut Tools,
    own: &mut Own<W>,
    gate: &G,
) -> Result<(), AllocError>
    requires shared { IsSharedOn W.units board.now shared.now }
    requires pass { IsIdleOn board.now pass.old }
    requires tools { HasTools shared.now tools.old }
    ensures pass { IsIdleOn board.now pass.new }
    ensures goes { Goes (view pass.old) (view pass.new) }
    ensures legal { (view pass.old).share ≡ 64 → OnOk result
        (IsLegalFrom (opening_of board.now) (view pass.old).mine
        → IsLegalFrom (opening_of board.now) (view pass.new).mine) }
    ensures tools { KeepsTools shared.now.instance.now tools.old tools.new }
{
    let mut meetings = 0;
    let mut met = None;
    for turn in 0..MOST_TURNS {
        gate.at(tools.worker, turn);
        let Some(unit) = next(own, &shared.all, tools.worker, met) else {
            break;
        };
        met = None;
        match search(board, pass, shared, tools, unit, POPS) {
            Found::Popped => {
                spread(shared, own, unit);
                meetings = 0;
            }
            Found::Done => meetings = 0,
            Found::Met => {
                met = Some(unit);
                meetings += 1;
            }
            Found::NoMemory => return Err(AllocError),
        }
        if meetings >= MOST_MEETINGS {
            break;
        }
    }
    if let Some(unit) = met {
        give(own, unit);
    }
    Ok(())
}
