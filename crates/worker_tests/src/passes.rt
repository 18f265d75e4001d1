//! Operations of tests on boards and their passes: they open and close boards, set marks, and
//! release variables.
ghost use Rattle.std.specs.Prelude.{◌≡◌, ◌<◌, [], length, IfSome};
ghost use Rattle.std.specs.List.{range_with_len};
ghost use Rattle.pop_model.specs.Popping.{variables};
ghost use Rattle.pop_model.specs.Tickets.{AreNumbered};
ghost use Rattle.claim_words.specs.Maps.{Each};
ghost use Rattle.claim_words.specs.Openings.{marks_in};
ghost use Rattle.claim_words.specs.Passes.{IsOf, IsIdle, IsSole, SameMarks, view, count_of, marks_of, instance_of, opening_of};
ghost use Rattle.claim_words.specs.Steps.{fresh};

use claim_words::{Board, Closed, Pass};
use confluence_core::Keep;
use pop_instance::{Cursors, Family, Instance};
use std::alloc::Global;
use std::process::Abort;

/// The number of units with a mark: those of a listed family, and none of cycles.
pub(crate) fn marks_in(instance: &Instance) -> u32
    ensures { result ≡ marks_in instance.now.family }
{
    match instance.family() {
        Family::Listed(events) => events.count(),
        Family::Cycles(_) => 0,
    }
}

/// A board from zeros, and its first pass.
pub(crate) fn started<'i>(
    rt: &impl Abort,
    alloc: Global,
    instance: &'i Instance,
    keep: Keep,
) -> (Board<'i>, Pass)
    ensures instance { instance_of result.0 ≡ instance.now }
    ensures pass { IsOf result.0 result.1 }
    ensures fresh { view result.1 ≡ fresh (opening_of result.0) }
{
    let _units = instance.units();
    let from = Cursors::zeros(alloc, instance.stacks().count()).expect(rt, "memory");
    let started = Board::start(alloc, instance, &from, keep).expect(rt, "memory");
    drop(from);
    started
}

/// Sets this many marks, which are all of the board.
pub(crate) fn mark_all(board: &Board, pass: &mut Pass, marks: u32)
    requires pass { IsOf board.now pass.old }
    requires marks { marks ≡ marks_of board.now }
    requires taken { (view pass.old).taken ≡ [] }
    requires owed { Each (λ u. u < marks) (view pass.old).owed }
    ensures pass { IsOf board.now pass.new }
    ensures none { ((view pass.new).taken ≡ []) × ((view pass.new).owed ≡ []) }
    ensures held { (view pass.new).held ≡ (view pass.old).held }
    ensures share { (view pass.new).share ≡ (view pass.old).share }
{
    for unit in 0..marks {
        board.mark(pass, unit);
    }
}

/// Releases all variables; there are this many.
pub(crate) fn release_below(board: &Board, pass: &mut Pass, count: u32)
    requires pass { IsOf board.now pass.old }
    requires held { variables (view pass.old).held ≡ range_with_len 0 count }
    ensures pass { IsOf board.now pass.new }
    ensures held { (view pass.new).held ≡ [] }
    ensures same { SameMarks pass.old pass.new }
{
    for v in 0..count {
        board.release(pass, v);
    }
}

/// Closes a board by its only pass.
pub(crate) fn close(rt: &impl Abort, board: Board, pass: Pass) -> Closed
    requires pass { IsOf board pass }
    requires sole { IsSole pass }
    requires idle { IsIdle pass }
    ensures count { length result.cursors ≡ count_of board.entry }
    ensures numbered { IfSome result.log AreNumbered }
{
    let Ok(closed) = board.close(pass) else {
        panic!(rt; "out of memory")
    };
    closed
}
