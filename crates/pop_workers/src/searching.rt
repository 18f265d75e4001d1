//! A worker's search for an event at a unit, and its hints after a pop.
ghost use Rattle.std.specs.Prelude.{◌≡◌, ◌<◌, ◌≤◌, All, length};
ghost use Rattle.pop_model.specs.Popping.{NamesBelow};
ghost use Rattle.pop_model.specs.Families.{units_of};
ghost use Rattle.claim_words.specs.Passes.{view, opening_of};
ghost use Rattle.pop_workers.specs.AtWork.{IsSharedOn, KeepsTools, IsIdleOn};
ghost use Rattle.pop_workers.specs.Attempts.{IsIndexed, AreTools, Goes, FindsAlone, found_in};

use crate::found::Found;
use crate::shared::Shared;
use crate::tools::Tools;
use claim_words::{Board, Pass};
use event_finders::{Tried, WalkBounds, try_unit, walk_on};
use pop_instance::{Cube, Family, Index};
use worker_hints::{Own, Range, give, give_all};

/// Searches for an event at a unit, and pops it. For a cycle family the unit is the start of a
/// walk, which pops at most this many cycles and must be allowed at least one.
pub(crate) fn search<W: Range>(
    board: &Board,
    pass: &mut Pass,
    shared: &Shared<W>,
    tools: &mut Tools,
    unit: u32,
    pops: u64,
) -> Found
    requires shared { IsSharedOn W.units board.now shared.now }
    requires pass { IsIdleOn board.now pass.old }
    requires tools { AreTools shared.now.instance.now tools.old.reader tools.old.walker }
    requires known { unit < units_of shared.now.instance.now.family }
    requires pops { 1 ≤ pops }
    ensures pass { IsIdleOn board.now pass.new }
    ensures goes { Goes (view pass.old) (view pass.new) }
    ensures alone { (view pass.old).share ≡ 64
        → FindsAlone (opening_of board.now) (view pass.old) (view pass.new) unit pops result }
    ensures tools { KeepsTools shared.now.instance.now tools.old tools.new }
{
    let (instance, reader) = (shared.instance, &mut tools.reader);
    let Some(index) = shared.index else {
        let _units = instance.units();
        let Some(walker) = &mut tools.walker else {
            unreachable!()
        };
        let bounds = WalkBounds { start: unit, pops };
        return found(walk_on(board, pass, instance, reader, walker, bounds));
    };
    found(try_unit(board, pass, instance, index, reader, unit))
}

// The result of a search by that of its finder.
fn found(tried: Tried) -> Found
    ensures { result ≡ found_in tried }
{
    match tried {
        Tried::Popped(_) => Found::Popped,
        Tried::Cleared(..) | Tried::Stuck(..) | Tried::Idle => Found::Done,
        Tried::Busy(..) => Found::Met,
        Tried::OutOfMemory => Found::NoMemory,
    }
}

/// Adds hints for the units at which a pop at this unit may have made events poppable. These are
/// the units with an event that shares a variable with it, or the start of a walk.
pub(crate) fn spread<W: Range>(shared: &Shared<W>, own: &mut Own<W>, unit: u32)
    requires index { IsIndexed shared.now.instance.now shared.now.index.now }
    requires range { units_of shared.now.instance.now.family ≡ W.units }
    requires known { unit < units_of shared.now.instance.now.family }
{
    let _units = shared.instance.units();
    match (shared.index, shared.instance.family()) {
        (Some(index), Family::Listed(events)) => give_sharers(own, index, events.cube(unit)),
        _ => give(own, unit),
    }
}

// Adds hints for all units with an event that shares a variable with this one.
fn give_sharers<W: Range>(own: &mut Own<W>, index: &Index, cube: &Cube)
    requires named { NamesBelow cube.now (length index.now) }
    requires known { All (λ row. All (λ unit. unit < W.units) row) index.now }
{
    for i in 0..cube.len() {
        let (v, _) = cube.pair(i);
        give_all(own, index.at(v));
    }
}
