//! The marks that a pop owes: those of the units with events that share a variable with the popped
//! one.
ghost use Rattle.std.specs.Prelude.{◌≡◌, ◌<◌, [], length, All};
ghost use Rattle.pop_model.specs.Popping.{NamesBelow};
ghost use Rattle.claim_words.specs.Passes.{IsOf, view, marks_of, instance_of};
ghost use Rattle.claim_words.specs.Steps.{sharers};
ghost use Rattle.event_finders.specs.UnitConditions.{Indexes};
ghost use Rattle.event_finders.specs.OwedMarks.{changing, owing, Marked, SetsMarks};

use claim_words::{Board, Pass};
use pop_instance::{Cube, Index};

// Marks these units.
fn mark_each(board: &Board, pass: &mut Pass, units: &[u32])
    requires pass { IsOf board.now pass.old }
    requires known { All (λ u. u < marks_of board.now) units.now }
    ensures pass { IsOf board.now pass.new }
    ensures marked { Marked units.now (view pass.old) (view pass.new) }
{
    for unit in units {
        board.mark(pass, *unit);
    }
}

/// Marks each unit with an event that shares a variable with a popped event. After that no mark is
/// owed.
pub(crate) fn mark_sharers(board: &Board, pass: &mut Pass, index: &Index, cube: &Cube)
    requires pass { IsOf board.now pass.old }
    requires index { Indexes (instance_of board.now) index.now }
    requires event { NamesBelow cube.now (length index.now) }
    requires owed { (view pass.old).owed ≡ sharers (view pass.old).opening cube.now }
    requires taken { (view pass.old).taken ≡ [] }
    ensures pass { IsOf board.now pass.new }
    ensures view { view pass.new ≡ changing (view pass.new).changes (owing [] (view pass.old)) }
    ensures marks { SetsMarks (view pass.old).owed (view pass.old) (view pass.new) }
{
    for i in 0..cube.len() {
        let (v, _) = cube.pair(i);
        mark_each(board, pass, index.at(v));
    }
}
