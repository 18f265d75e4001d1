//! One pop on a board of claim words, step by step, up to the merged log.
ghost use Rattle.std.specs.Prelude.{◌≡◌, ◌≤◌, ◌<◌, ◌+◌, ◌++◌, ◌∷◌, [], length, IfSome};
ghost use Rattle.pop_model.specs.Stacks.{variables_of};
ghost use Rattle.pop_model.specs.Popping.{variables, AreWithin};
ghost use Rattle.pop_model.specs.Tickets.{AreNumbered};
ghost use Rattle.pop_model.specs.Runs.{IsFirstPoppable};
ghost use Rattle.confluence_core.specs.Stuck.{event_of};
ghost use Rattle.claim_words.specs.KeptLogs.{HasRoom};
ghost use Rattle.claim_words.specs.Maps.{Each};
ghost use Rattle.claim_words.specs.Openings.{height, marks_in};
ghost use Rattle.claim_words.specs.Passes.{IsOf, IsIdle, IsSole, HoldsAll, SameMarks, SameRoom, view, spare, log_spare, count_of, marks_of, instance_of, opening_of};
ghost use Rattle.claim_words.specs.Steps.{fresh};

use super::{are_two, are_two_events, is_after_one_pop, is_first_ticket};
use crate::comparing::same;
use crate::made::made;
use crate::passes::{close, mark_all, release_below, started};
use claim_words::{Board, Claim, Closed, Pass};
use confluence_core::{Keep, Log, Tickets, first_poppable};
use pop_instance::{Cube, Cursors, Instance};
use pop_log::merge;
use pop_stacks::Reader;
use std::alloc::Global;
use std::process::Abort;
use test_instances::{EventRow, listed};

// Two variables with the entries 0 and 1.
static ROWS: [&[u32]; 2] = [&[0, 1], &[0, 1]];

// The clauses `1 2` and `-1 2`. Unit 0 demands 0 of both variables, unit 1 demands 1 and 0.
static EVENTS: [EventRow; 2] = [(1, &[(0, 0), (1, 0)]), (2, &[(0, 1), (1, 0)])];

// Takes the mark of a unit, which must be set, and takes it again: now it must not be set.
fn take_once(rt: &impl Abort, board: &Board, pass: &mut Pass, unit: u32)
    requires pass { IsOf board.now pass.old }
    requires known { unit < marks_of board.now }
    requires none { (view pass.old).taken ≡ [] }
    ensures pass { IsOf board.now pass.new }
    ensures taken { (view pass.new).taken ≡ unit ∷ [] }
    ensures held { (view pass.new).held ≡ (view pass.old).held }
    ensures owed { (view pass.new).owed ≡ (view pass.old).owed }
    ensures share { (view pass.new).share ≡ (view pass.old).share }
    ensures room { SameRoom pass.old pass.new }
{
    let first = board.take(pass, unit);
    assert!(rt; first);
    let again = board.take(pass, unit);
    assert!(rt; !again);
}

// Claims a variable that is free, and returns its cursor.
fn claim_free(rt: &impl Abort, board: &Board, pass: &mut Pass, v: u32) -> u32
    requires pass { IsOf board.now pass.old }
    requires known { v < count_of board.now }
    requires room { 1 ≤ spare pass.old }
    ensures pass { IsOf board.now pass.new }
    ensures same { SameMarks pass.old pass.new }
    ensures held { (view pass.new).held ≡ (view pass.old).held ++ (v, result) ∷ [] }
    ensures low { result < height (opening_of board.now) v }
    ensures room { spare pass.new + 1 ≡ spare pass.old }
    ensures log_room { log_spare pass.new ≡ log_spare pass.old }
{
    match board.try_claim(pass, v) {
        Claim::Mine(cursor) => cursor,
        Claim::Busy(_) => panic!(rt; "claimed"),
        Claim::Settled(_) => panic!(rt; "settled"),
    }
}

// Claims a variable that is claimed, and returns its word.
fn claim_again(rt: &impl Abort, board: &Board, pass: &mut Pass, v: u32) -> u64
    requires pass { IsOf board.now pass.old }
    requires known { v < count_of board.now }
    requires room { 1 ≤ spare pass.old }
    ensures pass { IsOf board.now pass.new }
    ensures same { SameMarks pass.old pass.new }
    ensures held { (view pass.new).held ≡ (view pass.old).held }
    ensures room { spare pass.new ≡ spare pass.old }
    ensures log_room { log_spare pass.new ≡ log_spare pass.old }
{
    match board.try_claim(pass, v) {
        Claim::Mine(_) => panic!(rt; "free"),
        Claim::Busy(word) => word,
        Claim::Settled(_) => panic!(rt; "settled"),
    }
}

// Two cursors.
fn cursors_of(rt: &impl Abort, alloc: Global, first: u32, second: u32) -> Cursors
    ensures { result ≡ first ∷ second ∷ [] }
{
    Cursors::of(vec![in alloc; first, second].expect(rt, "memory"))
}

// Claims both variables, the first of them twice, and returns their cursors. Bit 63 is
// 9223372036854775808.
fn claim_both(rt: &impl Abort, alloc: Global, board: &Board, pass: &mut Pass) -> Cursors
    requires pass { IsOf board.now pass.old }
    requires free { (view pass.old).held ≡ [] }
    requires count { count_of board.now ≡ 2 }
    requires room { 2 ≤ spare pass.old }
    ensures pass { IsOf board.now pass.new }
    ensures same { SameMarks pass.old pass.new }
    ensures held { HoldsAll board.now pass.new result }
    ensures log_room { log_spare pass.new ≡ log_spare pass.old }
{
    let first = claim_free(rt, board, pass, 0);
    let word = claim_again(rt, board, pass, 0);
    let second = claim_free(rt, board, pass, 1);
    same(rt, first as u64, 0, "variable 0");
    same(rt, word, 9223372036854775808, "word of variable 0");
    same(rt, second as u64, 0, "variable 1");
    cursors_of(rt, alloc, first, second)
}

// The poppable event with the lowest unit.
fn first_event(
    rt: &impl Abort,
    alloc: Global,
    instance: &Instance,
    cursors: &Cursors,
) -> (u32, Cube)
    requires count { variables_of instance.now.stacks ≡ length cursors.now }
    requires within { AreWithin instance.now.stacks cursors.now }
    ensures { IsFirstPoppable instance.now cursors.now (event_of result) }
{
    let mut reader = Reader::new(instance.stacks());
    let found = first_poppable(alloc, instance, &mut reader, cursors).expect(rt, "memory");
    drop(reader);
    found.expect(rt, "a poppable event")
}

// Tests that an event is the first one, of two variables.
fn is_first(rt: &impl Abort, unit: u32, cube: &Cube)
    ensures unit { unit ≡ 0 }
    ensures len { length cube.now ≡ 2 }
{
    assert!(rt; unit == 0);
    assert!(rt; cube.len() == 2);
}

// Pops the first event, which is poppable at these cursors. The pass must hold both variables.
fn pop_first(
    rt: &impl Abort,
    alloc: Global,
    board: &Board,
    pass: &mut Pass,
    instance: &Instance,
    cursors: &Cursors,
)
    requires pass { IsOf board.now pass.old }
    requires instance { instance_of board.now ≡ instance.now }
    requires held { HoldsAll board.now pass.old cursors.now }
    requires taken { (view pass.old).taken ≡ 0 ∷ [] }
    requires owed { (view pass.old).owed ≡ [] }
    requires room { HasRoom pass.old.log 2 }
    ensures pass { IsOf board.now pass.new }
    ensures held { variables (view pass.new).held ≡ variables (view pass.old).held }
    ensures taken { (view pass.new).taken ≡ [] }
    ensures owed { Each (λ u. u < marks_of board.now) (view pass.new).owed }
    ensures share { (view pass.new).share ≡ (view pass.old).share }
{
    let _units = instance.units();
    let (unit, cube) = first_event(rt, alloc, instance, cursors);
    is_first(rt, unit, &cube);
    let ticket = board.pop(pass, unit, &cube);
    drop(cube);
    same(rt, ticket, 0, "ticket");
}

// Marks both units, and releases both variables.
fn let_go(board: &Board, pass: &mut Pass)
    requires pass { IsOf board.now pass.old }
    requires held { variables (view pass.old).held ≡ 0 ∷ 1 ∷ [] }
    requires taken { (view pass.old).taken ≡ [] }
    requires marks { marks_of board.now ≡ 2 }
    requires owed { Each (λ u. u < marks_of board.now) (view pass.old).owed }
    ensures pass { IsOf board.now pass.new }
    ensures idle { IsIdle pass.new }
    ensures share { (view pass.new).share ≡ (view pass.old).share }
{
    mark_all(board, pass, 2);
    release_below(board, pass, 2);
}

// Pops the first event on a new board, and releases all variables.
fn pop_on(rt: &impl Abort, alloc: Global, board: &Board, pass: &mut Pass, instance: &Instance)
    requires pass { IsOf board.now pass.old }
    requires fresh { view pass.old ≡ fresh (opening_of board.now) }
    requires instance { instance_of board.now ≡ instance.now }
    requires count { variables_of instance.now.stacks ≡ 2 }
    requires marks { marks_in instance.now.family ≡ 2 }
    ensures pass { IsOf board.now pass.new }
    ensures idle { IsIdle pass.new }
    ensures share { IsSole pass.new }
{
    same(rt, pass.share() as u64, 64, "shares");
    board.reserve(pass, 3).expect(rt, "memory");
    take_once(rt, board, pass, 0);
    let cursors = claim_both(rt, alloc, board, pass);
    pop_first(rt, alloc, board, pass, instance, &cursors);
    drop(cursors);
    let_go(board, pass);
}

// The closed board after a pop of the first event.
fn close_after_pop(rt: &impl Abort, alloc: Global, instance: &Instance) -> Closed
    requires count { variables_of instance.now.stacks ≡ 2 }
    requires marks { marks_in instance.now.family ≡ 2 }
    ensures count { length result.cursors ≡ 2 }
    ensures numbered { IfSome result.log AreNumbered }
{
    let (board, mut pass) = started(rt, alloc, instance, Keep::Log);
    pop_on(rt, alloc, &board, &mut pass, instance);
    close(rt, board, pass)
}

// Tests that there is one record, of the first event.
fn is_one_record(rt: &impl Abort, log: &Log) {
    assert!(rt; log.len() == 1);
    same(rt, log.at(0).unit() as u64, 0, "unit");
}

// Compares the tickets of one pop, and the log that they make.
fn make_one_record(rt: &impl Abort, alloc: Global, tickets: Tickets)
    requires { AreNumbered tickets }
{
    is_first_ticket(rt, &tickets);
    let log = merge(alloc, tickets).expect(rt, "memory");
    is_one_record(rt, &log);
    drop(log);
}

// Compares the closed board of two events, up to its merged log.
fn leaves_one_record(rt: &impl Abort, alloc: Global, instance: &Instance) {
    are_two(rt, instance);
    are_two_events(rt, instance);
    let closed = close_after_pop(rt, alloc, instance);
    is_after_one_pop(rt, &closed);
    let Closed {
        cursors,
        log,
        suspects,
        ..
    } = closed;
    drop(cursors);
    drop(suspects);
    make_one_record(rt, alloc, log.expect(rt, "a log"));
}

// Worked by hand.
#[test]
fn one_pop_leaves_a_log_of_one_record(rt: HostRuntime) {
    let alloc = rt.alloc();
    let instance = made(&rt, listed(alloc, &ROWS, &EVENTS));
    leaves_one_record(&rt, alloc, &instance);
    drop(instance);
}
