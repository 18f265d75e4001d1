//! Claims and marks on boards of two variables, worked by hand.
ghost use Rattle.std.specs.Prelude.{◌≡◌, ◌<◌, length};
ghost use Rattle.pop_model.specs.Stacks.{variables_of};
ghost use Rattle.claim_words.specs.Openings.{marks_in};
ghost use Rattle.claim_words.specs.Passes.{IsOf, view, count_of, marks_of};

use crate::comparing::same;
use crate::made::made;
use crate::passes::{marks_in, started};
use claim_words::{Board, Claim, Closed, Pass};
use confluence_core::{Keep, Tickets};
use pop_instance::Instance;
use std::alloc::Global;
use std::process::Abort;
use test_instances::{EventRow, listed};

mod boards;
mod instances;
mod one_pop;
mod working;

use working::close_after_turns;

// Two variables with the entries 0, 1 each. Event 1 demands 0 of both, event 2 demands 1 of the
// last.
static ROWS: [&[u32]; 2] = [&[0, 1], &[0, 1]];

static EVENTS: [EventRow; 2] = [(1, &[(0, 0), (1, 0)]), (2, &[(1, 1)])];

// Tests that there are two variables.
fn are_two(rt: &impl Abort, instance: &Instance)
    ensures { variables_of instance.now.stacks ≡ 2 }
{
    same(rt, instance.stacks().count() as u64, 2, "variables");
}

// The result of a claim of variable 0 by a pass.
fn claim_first(rt: &impl Abort, board: &Board, pass: &mut Pass) -> Claim
    requires pass { IsOf board.now pass.old }
    requires known { 0 < count_of board.now }
{
    board.reserve(pass, 1).expect(rt, "memory");
    board.try_claim(pass, 0)
}

// The results of claims of variable 0 by a pass with all shares and by one that is split off it.
fn claims_of_two(rt: &impl Abort, board: &Board, pass: &mut Pass) -> (Claim, Claim)
    requires pass { IsOf board.now pass.old }
    requires share { (view pass.old).share ≡ 64 }
    requires known { 0 < count_of board.now }
{
    let mut other = board.split(pass, 1);
    same(rt, pass.share() as u64, 63, "shares");
    same(rt, other.share() as u64, 1, "shares of the other");
    let first = claim_first(rt, board, pass);
    let second = claim_first(rt, board, &mut other);
    drop(other);
    (first, second)
}

// Worked by hand: bit 63 is 9223372036854775808.
fn second_is_busy(rt: &impl Abort, alloc: Global, instance: &Instance) {
    are_two(rt, instance);
    let (board, mut pass) = started(rt, alloc, instance, Keep::Log);
    let (first, second) = claims_of_two(rt, &board, &mut pass);
    assert!(rt; first == Claim::Mine(0));
    assert!(rt; second == Claim::Busy(9223372036854775808));
    drop(pass);
    drop(board);
}

#[test]
fn a_claimed_variable_is_busy_for_another_pass(rt: HostRuntime) {
    let alloc = rt.alloc();
    let instance = made(&rt, listed(alloc, &ROWS, &EVENTS));
    second_is_busy(&rt, alloc, &instance);
    drop(instance);
}

// Takes the mark of unit 1, and returns whether it was set.
fn takes(board: &Board, pass: &mut Pass) -> bool
    requires pass { IsOf board.now pass.old }
    requires listed { 1 < marks_of board.now }
    ensures { IsOf board.now pass.new }
{
    board.take(pass, 1)
}

// Tests that the mark is set at first, not after it was taken, and again after it was set.
fn takes_in_turn(rt: &impl Abort, board: &Board, pass: &mut Pass)
    requires pass { IsOf board.now pass.old }
    requires listed { 1 < marks_of board.now }
{
    let first = takes(board, pass);
    let second = takes(board, pass);
    board.mark(pass, 1);
    let third = takes(board, pass);
    assert!(rt; first);
    assert!(rt; !second);
    assert!(rt; third);
}

// Tests that there are two listed events.
fn are_two_events(rt: &impl Abort, instance: &Instance)
    ensures { marks_in instance.now.family ≡ 2 }
{
    same(rt, marks_in(instance) as u64, 2, "events");
}

// Takes and sets a mark on a board from zeros.
fn mark_is_taken(rt: &impl Abort, alloc: Global, instance: &Instance) {
    are_two(rt, instance);
    are_two_events(rt, instance);
    let (board, mut pass) = started(rt, alloc, instance, Keep::Nothing);
    takes_in_turn(rt, &board, &mut pass);
    drop(pass);
    drop(board);
}

#[test]
fn a_mark_that_was_taken_is_gone_until_it_is_set(rt: HostRuntime) {
    let alloc = rt.alloc();
    let instance = made(&rt, listed(alloc, &ROWS, &EVENTS));
    mark_is_taken(&rt, alloc, &instance);
    drop(instance);
}

// Compares the board of two events after one pop of the first.
fn is_after_one_pop(rt: &impl Abort, closed: &Closed)
    requires { length closed.now.cursors ≡ 2 }
{
    same(rt, closed.cursors.get(0) as u64, 1, "variable 0");
    same(rt, closed.cursors.get(1) as u64, 1, "variable 1");
    same(rt, closed.pops, 1, "pops");
    let suspects = &closed.suspects;
    assert!(rt; suspects.len() == 2);
    same(rt, suspects.at(0) as u64, 0, "suspect 0");
    same(rt, suspects.at(1) as u64, 1, "suspect 1");
}

// Compares the tickets of one pop of the first event.
fn is_first_ticket(rt: &impl Abort, log: &Tickets) {
    assert!(rt; log.len() == 1);
    let first = log.at(0);
    same(rt, first.ticket, 0, "ticket");
    same(rt, first.popped.unit() as u64, 0, "unit");
}

// Compares the log of one pop of the first event.
fn is_ticketed(rt: &impl Abort, closed: &Closed) {
    let Some(log) = &closed.log else {
        panic!(rt; "no log");
    };
    is_first_ticket(rt, log);
}

// Worked by hand: the first event is popped under ticket 0, and then neither is poppable. Both
// share a variable with it, and so are marked.
fn leaves_one_ticket(rt: &impl Abort, alloc: Global, instance: &Instance) {
    are_two(rt, instance);
    let closed = close_after_turns(rt, alloc, instance);
    is_after_one_pop(rt, &closed);
    is_ticketed(rt, &closed);
    drop(closed);
}

#[test]
fn one_pop_leaves_its_ticket_and_the_marks_it_owed(rt: HostRuntime) {
    let alloc = rt.alloc();
    let instance = made(&rt, listed(alloc, &ROWS, &EVENTS));
    leaves_one_ticket(&rt, alloc, &instance);
    drop(instance);
}
