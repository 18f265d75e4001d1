//! Tries to pop the event of one unit of a listed family.
ghost use Rattle.std.specs.Prelude.{◌≡◌, ◌<◌, ◌↔◌};
ghost use Rattle.pop_model.specs.Families.{units_of};
ghost use Rattle.pop_stacks.specs.Readers.{Belongs};
ghost use Rattle.claim_words.specs.Words.{mark_of};
ghost use Rattle.claim_words.specs.Maps.{In};
ghost use Rattle.claim_words.specs.Passes.{IsOf, IsIdle, view, count_of, instance_of, opening_of};
ghost use Rattle.event_finders.specs.Gains.{gained, SeesWithin};
ghost use Rattle.event_finders.specs.UnitConditions.{Indexes, IsListedEvent};
ghost use Rattle.event_finders.specs.UnitAnswers.{IsTried, Tries, KeepsRecords, FindsMark, SoleLearns, LeavesMarks};
ghost use Rattle.event_finders.specs.declared.tried.Tried.TheVariants.{Idle};

use crate::Tried;
use crate::listed_event::ListedEvent;
use crate::owed_marks::mark_sharers;
use crate::unit_claims::{claim_unit, release_first};
use crate::unit_look::UnitLook;
use claim_words::{Board, Pass};
use pop_instance::{Family, Index, Instance};
use pop_stacks::Reader;

/// Tries to pop the event of a unit of a listed family, if the unit is marked. Units count from 0.
/// The pass is idle before the call and after it.
///
/// The call takes the unit's mark. Then it claims the event's variables in rising order, up to the
/// first one that rules the event out or is busy. It claims none twice.
///
/// - `Popped`: all variables were claimed, and the event was poppable and was popped. Its unit and
///   all units with events that share a variable with it are marked, and no others.
/// - `Cleared`: at this cursor the variable has another value. The unit has no mark until the pop
///   of an event that shares a variable sets it again.
/// - `Stuck`: all variables were claimed and have the event's values. This is the lowest of those
///   at their last entry. The unit has no mark, as for `Cleared`.
/// - `Busy`: this variable of the event is claimed by another pass. The unit is marked again. A
///   pass that has all 64 shares, and so is the only one, never gets it.
/// - `Idle`: the unit had no mark.
/// - `OutOfMemory`: there was no room for the claims, and no step was made.
pub fn try_unit(
    board: &Board,
    pass: &mut Pass,
    instance: &Instance,
    index: &Index,
    reader: &mut Reader,
    unit: u32,
) -> Tried
    requires pass { IsOf board.now pass.old }
    requires idle { IsIdle pass.old }
    requires instance { instance_of board.now ≡ instance.now }
    requires index { Indexes instance.now index.now }
    requires known { unit < units_of instance.now.family }
    requires belongs { Belongs instance.now.stacks reader.old }

    ensures answer { IsTried instance.now (view pass.old) (view pass.new) unit result }
    ensures mark { FindsMark (view pass.old) (view pass.new) unit result }
    ensures marks { LeavesMarks instance.now (view pass.old) (view pass.new) unit result }
    ensures unmarked { (result ≡ Idle)
        ↔ In (mark_of (count_of board.now) unit, 0) (gained (view pass.old) (view pass.new)) }
    ensures sole { SoleLearns (opening_of board.now) (view pass.new) unit result }

    ensures pass { IsOf board.now pass.new }
    ensures idle { IsIdle pass.new }
    ensures share { (view pass.new).share ≡ (view pass.old).share }
    ensures moves { (view pass.new).moves ≡ (view pass.old).moves }
    ensures seen { SeesWithin 1 (view pass.old) (view pass.new) }
    ensures records { KeepsRecords (view pass.old) (view pass.new) result }
    ensures reader { reader.new ≡ reader.old }
{
    let _units = instance.units();
    let Family::Listed(events) = instance.family() else {
        unreachable!()
    };
    let event = ListedEvent {
        unit,
        cube: events.cube(unit),
    };
    try_event(board, pass, instance, index, reader, &event)
}

// Tries to pop an event after the mark of its unit was taken.
fn try_event(
    board: &Board,
    pass: &mut Pass,
    instance: &Instance,
    index: &Index,
    reader: &mut Reader,
    event: &ListedEvent,
) -> Tried
    requires pass { IsOf board.now pass.old }
    requires idle { IsIdle pass.old }
    requires instance { instance_of board.now ≡ instance.now }
    requires index { Indexes instance.now index.now }
    requires event { IsListedEvent instance.now event.now.unit event.now.cube.now }
    requires belongs { Belongs instance.now.stacks reader.old }
    ensures pass { IsOf board.now pass.new }
    ensures tries { Tries (opening_of board.now) instance.now (view pass.old) (view pass.new)
        event.now.unit event.now.cube.now result }
    ensures reader { reader.new ≡ reader.old }
{
    let ListedEvent { unit, cube } = *event;
    let len = cube.len();
    if board.reserve(pass, len).is_err() {
        return Tried::OutOfMemory;
    }
    if !board.take(pass, unit) {
        return Tried::Idle;
    }
    match claim_unit(board, pass, instance, cube, reader) {
        UnitLook::Poppable => {
            let ticket = board.pop(pass, unit, cube);
            mark_sharers(board, pass, index, cube);
            release_first(board, pass, cube, len);
            Tried::Popped(ticket)
        }
        UnitLook::AtLast(v, cursor) => {
            board.clear(pass, unit, v);
            release_first(board, pass, cube, len);
            Tried::Stuck(v, cursor)
        }
        UnitLook::Differs(place, v, cursor) => {
            board.clear(pass, unit, v);
            release_first(board, pass, cube, place + 1);
            Tried::Cleared(v, cursor)
        }
        UnitLook::Busy(place, v, word) => {
            board.mark(pass, unit);
            release_first(board, pass, cube, place);
            Tried::Busy(v, word)
        }
    }
}
