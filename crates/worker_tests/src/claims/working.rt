//! The work of one thread with its pass. It claims all variables, pops the first event that is
//! poppable there, sets the marks that it owes, and releases the variables.
ghost use Rattle.std.specs.Prelude.{◌≡◌, ◌≤◌, ◌<◌, ◌+◌, ◌++◌, ◌∷◌, [], length, IfSome, MatchOption};
ghost use Rattle.pop_model.specs.Stacks.{variables_of};
ghost use Rattle.pop_model.specs.Popping.{variables};
ghost use Rattle.claim_words.specs.Openings.{height};
ghost use Rattle.claim_words.specs.Passes.{IsOf, IsIdle, IsSole, HoldsAll, SameMarks, view, spare, count_of, instance_of, opening_of};

use crate::comparing::same;
use crate::passes::{close, mark_all, marks_in, release_below, started};
use claim_words::{Board, Claim, Closed, Pass};
use confluence_core::{Keep, first_poppable};
use pop_instance::{Cursors, Instance};
use pop_stacks::Reader;
use std::alloc::Global;
use std::process::Abort;

// Claims a variable, and returns its cursor, or None if the claim fails.
fn claim_next(board: &Board, pass: &mut Pass, v: u32) -> Option<u32>
    requires pass { IsOf board.now pass.old }
    requires known { v < count_of board.now }
    requires room { 1 ≤ spare pass.old }
    ensures pass { IsOf board.now pass.new }
    ensures same { SameMarks pass.old pass.new }
    ensures held { MatchOption result ((view pass.new).held ≡ (view pass.old).held)
        (λ c. (view pass.new).held ≡ (view pass.old).held ++ (v, c) ∷ []) }
    ensures room { IfSome result (λ _. spare pass.new + 1 ≡ spare pass.old) }
    ensures low { IfSome result (λ c. c < height (opening_of board.now) v) }
{
    match board.try_claim(pass, v) {
        Claim::Mine(cursor) => Some(cursor),
        Claim::Busy(_) => None,
        Claim::Settled(_) => None,
    }
}

// Claims all variables, in order, and returns their cursors. If a claim fails, it releases those
// before it.
fn claim_all(
    rt: &impl Abort,
    alloc: Global,
    board: &Board,
    pass: &mut Pass,
    count: u32,
) -> Option<Cursors>
    requires pass { IsOf board.now pass.old × IsIdle pass.old }
    requires count { count ≡ count_of board.now }
    requires room { count ≤ spare pass.old }
    ensures pass { IsOf board.now pass.new }
    ensures same { SameMarks pass.old pass.new }
    ensures held { MatchOption result ((view pass.new).held ≡ []) (HoldsAll board.now pass.new) }
{
    let mut cursors = Vec::with_capacity(alloc, count as usize).expect(rt, "memory");
    for v in 0..count {
        let Some(cursor) = claim_next(board, pass, v) else {
            release_below(board, pass, v);
            return None;
        };
        cursors.push_reserved(cursor);
    }
    Some(Cursors::of(cursors))
}

// Pops the poppable event with the lowest unit, and returns its ticket. The pass must hold all
// variables at these cursors. After that it sets the marks that are owed.
fn pop_first(
    rt: &impl Abort,
    alloc: Global,
    board: &Board,
    pass: &mut Pass,
    instance: &Instance,
    cursors: &Cursors,
) -> Option<u64>
    requires pass { IsOf board.now pass.old }
    requires instance { instance_of board.now ≡ instance.now }
    requires held { HoldsAll board.now pass.old cursors.now }
    requires none { ((view pass.old).taken ≡ []) × ((view pass.old).owed ≡ []) }
    ensures pass { IsOf board.now pass.new }
    ensures none { ((view pass.new).taken ≡ []) × ((view pass.new).owed ≡ []) }
    ensures held { variables (view pass.new).held ≡ variables (view pass.old).held }
    ensures share { (view pass.new).share ≡ (view pass.old).share }
{
    let _units = instance.units();
    let mut reader = Reader::new(instance.stacks());
    let found = first_poppable(alloc, instance, &mut reader, cursors).expect(rt, "memory");
    drop(reader);
    let Some((unit, cube)) = found else {
        return None;
    };
    board.reserve(pass, cube.len()).expect(rt, "memory");
    let ticket = board.pop(pass, unit, &cube);
    drop(cube);
    mark_all(board, pass, marks_in(instance));
    Some(ticket)
}

// Makes one turn. Returns whether the board is at an end.
fn turn(rt: &impl Abort, alloc: Global, board: &Board, pass: &mut Pass, instance: &Instance) -> bool
    requires pass { IsOf board.now pass.old × IsIdle pass.old }
    requires instance { instance_of board.now ≡ instance.now }
    ensures pass { IsOf board.now pass.new }
    ensures idle { IsIdle pass.new }
    ensures share { (view pass.new).share ≡ (view pass.old).share }
{
    let count = instance.stacks().count();
    board.reserve(pass, count).expect(rt, "memory");
    let Some(cursors) = claim_all(rt, alloc, board, pass, count) else {
        return false;
    };
    let popped = pop_first(rt, alloc, board, pass, instance, &cursors);
    drop(cursors);
    release_below(board, pass, count);
    popped.is_none()
}

// Works until the board is at an end, or for this many turns. Returns whether it is at an end.
pub(super) fn work(
    rt: &impl Abort,
    alloc: Global,
    board: &Board,
    pass: &mut Pass,
    instance: &Instance,
    turns: u32,
) -> bool
    requires pass { IsOf board.now pass.old × IsIdle pass.old }
    requires instance { instance_of board.now ≡ instance.now }
    ensures pass { IsOf board.now pass.new }
    ensures idle { IsIdle pass.new }
    ensures share { (view pass.new).share ≡ (view pass.old).share }
{
    for _ in 0..turns {
        if turn(rt, alloc, board, pass, instance) {
            return true;
        }
    }
    false
}

// Splits off a pass, which makes one turn and finds nothing to pop, and joins it again.
fn other_finds_none(
    rt: &impl Abort,
    alloc: Global,
    board: &Board,
    pass: &mut Pass,
    other: Pass,
    instance: &Instance,
)
    requires pass { IsOf board.now pass.old × IsIdle pass.old }
    requires other { IsOf board.now other × IsIdle other }
    requires instance { instance_of board.now ≡ instance.now }
    ensures pass { IsOf board.now pass.new × IsIdle pass.new }
{
    let mut other = other;
    let at_end = work(rt, alloc, board, &mut other, instance, 1);
    assert!(rt; at_end);
    if board.rejoin(pass, other).is_err() {
        panic!(rt; "out of memory");
    }
}

// One turn of each of two passes. The first pass pops and releases its variables. The second
// claims all variables and finds nothing to pop.
fn take_turns(rt: &impl Abort, alloc: Global, board: &Board, pass: &mut Pass, instance: &Instance)
    requires pass { IsOf board.now pass.old × IsIdle pass.old }
    requires share { (view pass.old).share ≡ 64 }
    requires instance { instance_of board.now ≡ instance.now }
    ensures pass { IsOf board.now pass.new }
    ensures idle { IsIdle pass.new }
    ensures sole { IsSole pass.new }
{
    let other = board.split(pass, 1);
    let at_end = work(rt, alloc, board, pass, instance, 1);
    assert!(rt; !at_end);
    other_finds_none(rt, alloc, board, pass, other, instance);
    same(rt, pass.share() as u64, 64, "shares");
}

// The closed board after the turns of `take_turns`.
pub(super) fn close_after_turns(rt: &impl Abort, alloc: Global, instance: &Instance) -> Closed
    ensures { length result.cursors ≡ variables_of instance.now.stacks }
{
    let (board, mut pass) = started(rt, alloc, instance, Keep::Log);
    take_turns(rt, alloc, &board, &mut pass, instance);
    close(rt, board, pass)
}
