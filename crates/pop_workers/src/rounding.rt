//! The last part of the work on a board, by its only pass. It does the work that is left, and then
//! makes rounds over all units until a round pops nothing.
ghost use Rattle.std.specs.Prelude.{OnOk, IfOk};
ghost use Rattle.pop_model.specs.Families.{units_of};
ghost use Rattle.claim_words.specs.Passes.{view, opening_of};
ghost use Rattle.pop_workers.specs.AtWork.{IsSharedOn, HasTools, KeepsTools, IsSoleOn, IsAtEnd};
ghost use Rattle.pop_workers.specs.Attempts.{IsRound};

use crate::NoGate;
use crate::found::Found;
use crate::searching::{search, spread};
use crate::shared::Shared;
use crate::tools::Tools;
use crate::working::work;
use claim_words::{Board, Pass};
use std::alloc::AllocError;
use worker_hints::{Own, Range};

/// Continues a board to its end. The only pass works at the hints that are left. Then it makes
/// rounds over all units until a round pops nothing.
pub(crate) fn round_off<W: Range>(
    board: &Board,
    pass: &mut Pass,
    shared: &Shared<W>,
    tools: &mut Tools,
    own: &mut Own<W>,
) -> Result<(), AllocError>
    requires shared { IsSharedOn W.units board.now shared.now }
    requires pass { IsSoleOn board.now pass.old }
    requires tools { HasTools shared.now tools.old }
    ensures pass { IsSoleOn board.now pass.new }
    ensures end { OnOk result (IsAtEnd board.now pass.new) }
    ensures tools { KeepsTools shared.now.instance.now tools.old tools.new }
{
    work(board, pass, shared, tools, own, &NoGate)?;
    let _units = shared.instance.units();
    // A legal log from such a start is short, so the rounds end.
    board.look_at_start(pass);
    loop {
        if pops_nothing(board, pass, shared, tools, own)? {
            return Ok(());
        }
    }
}

// One round: a search at each unit. After a pop the work at its hints is done first, so that a
// round rarely leaves anything to the next. Returns whether it popped nothing.
fn pops_nothing<W: Range>(
    board: &Board,
    pass: &mut Pass,
    shared: &Shared<W>,
    tools: &mut Tools,
    own: &mut Own<W>,
) -> Result<bool, AllocError>
    requires shared { IsSharedOn W.units board.now shared.now }
    requires pass { IsSoleOn board.now pass.old }
    requires tools { HasTools shared.now tools.old }
    ensures pass { IsSoleOn board.now pass.new }
    ensures round { IfOk result (IsRound (opening_of board.now) (view pass.old) (view pass.new)
        (units_of shared.now.instance.now.family)) }
    ensures tools { KeepsTools shared.now.instance.now tools.old tools.new }
{
    let mut nothing = true;
    for unit in 0..shared.instance.units() {
        match search(board, pass, shared, tools, unit, 1) {
            Found::Popped => {
                nothing = false;
                spread(shared, own, unit);
                work(board, pass, shared, tools, own, &NoGate)?;
            }
            Found::Done => {}
            Found::Met => unreachable!(),
            Found::NoMemory => return Err(AllocError),
        }
    }
    Ok(nothing)
}
