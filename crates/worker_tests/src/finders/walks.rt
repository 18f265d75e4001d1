//! Walks on boards of two variables with two slots each.
ghost use Rattle.std.specs.Prelude.{◌≡◌, ◌<◌, false, length};
ghost use Rattle.pop_model.specs.Stacks.{variables_of};
ghost use Rattle.claim_words.specs.Openings.{is_listed};
ghost use Rattle.claim_words.specs.Passes.{IsOf, IsIdle, view, instance_of, count_of};
ghost use Rattle.event_finders.specs.Trails.{resting};

use super::{Want, is_left};
use crate::comparing::{is_so, same};
use crate::made::made;
use crate::passes::{close, started};
use claim_words::{Board, Closed, Pass};
use confluence_core::Keep;
use event_finders::{Tried, WalkBounds, Walker, try_walk, walk_on};
use pop_instance::{Family, Instance};
use pop_stacks::Reader;
use std::alloc::Global;
use std::process::Abort;
use test_instances::{arrows, stacks};

// The instance of these rows and heads. Its events are the cycles.
fn cycles(rt: &impl Abort, alloc: Global, rows: &[&[u32]], table: &[[Option<u32>; 2]]) -> Instance
    ensures { is_listed result.family ≡ false }
{
    let arrows = made(rt, arrows(alloc, table));
    let stacks = made(rt, stacks(alloc, rows));
    Instance::new(stacks, Family::Cycles(arrows)).expect(rt, "an instance")
}

// A walk to make: its start, after how many pops it ends (None for `try_walk`), and the expected
// result.
type Turn = (u32, Option<u64>, Tried);

// Makes a walk.
fn walk(
    rt: &impl Abort,
    board: &Board,
    pass: &mut Pass,
    instance: &Instance,
    walker: &mut Walker,
    turn: &Turn,
) -> Tried
    requires pass { IsOf board.now pass.old × IsIdle pass.old }
    requires instance { instance_of board.now ≡ instance.now }
    requires cycles { is_listed instance.now.family ≡ false }
    requires walker { walker.old ≡ resting (count_of board.now) }
    ensures pass { IsOf board.now pass.new × IsIdle pass.new }
    ensures walker { walker.new ≡ walker.old }
{
    let (start, pops, _) = *turn;
    let count = instance.stacks().count();
    assert!(rt; start < count);
    let mut reader = Reader::new(instance.stacks());
    let answer = match pops {
        None => try_walk(board, pass, instance, &mut reader, walker, start),
        Some(pops) => {
            assert!(rt; pops >= 1);
            let bounds = WalkBounds { start, pops };
            walk_on(board, pass, instance, &mut reader, walker, bounds)
        }
    };
    drop(reader);
    answer
}

// Makes walks in turn, and compares their results.
fn walk_in_turn(
    rt: &impl Abort,
    board: &Board,
    pass: &mut Pass,
    instance: &Instance,
    walker: &mut Walker,
    turns: &[Turn],
)
    requires pass { IsOf board.now pass.old × IsIdle pass.old }
    requires instance { instance_of board.now ≡ instance.now }
    requires cycles { is_listed instance.now.family ≡ false }
    requires walker { walker.old ≡ resting (count_of board.now) }
    ensures pass { IsOf board.now pass.new × IsIdle pass.new }
    ensures walker { walker.new ≡ walker.old }
{
    for turn in turns {
        let answer = walk(rt, board, pass, instance, walker, turn);
        is_so(rt, answer == turn.2, "walk from", turn.0);
    }
}

// Closes a board after work by one pass, which has all shares.
fn close_whole(rt: &impl Abort, board: Board, pass: Pass) -> Closed
    requires pass { IsOf board pass × IsIdle pass }
    ensures { length result.cursors ≡ count_of board.entry }
{
    same(rt, pass.share() as u64, 64, "shares");
    close(rt, board, pass)
}

// The closed board after these walks of one pass.
fn closed_after(rt: &impl Abort, alloc: Global, instance: &Instance, turns: &[Turn]) -> Closed
    requires cycles { is_listed instance.now.family ≡ false }
    ensures { length result.cursors ≡ variables_of instance.now.stacks }
{
    let mut walker = Walker::new(alloc, instance.stacks().count()).expect(rt, "memory");
    let (board, mut pass) = started(rt, alloc, instance, Keep::Log);
    walk_in_turn(rt, &board, &mut pass, instance, &mut walker, turns);
    drop(walker);
    close_whole(rt, board, pass)
}

// Makes walks on a new board, and compares the closed board.
fn leaves(rt: &impl Abort, alloc: Global, instance: &Instance, turns: &[Turn], want: &Want)
    requires cycles { is_listed instance.now.family ≡ false }
{
    let closed = closed_after(rt, alloc, instance, turns);
    is_left(rt, &closed, instance.stacks().count(), want);
    drop(closed);
}

// The edges 1-2, 2-3 and 1-3 with the root 1. Variable 0 is vertex 2, and variable 1 is vertex 3.
// They point to each other at first, and then 2 to 1 and 3 to 2.
static TRIANGLE_HEADS: [[Option<u32>; 2]; 2] = [[None, Some(1)], [Some(0), None]];

static TRIANGLE_ROWS: [&[u32]; 2] = [&[1, 0], &[0, 0]];

// Worked by hand.
static TRIANGLE_TURNS: [Turn; 3] = [
    (0, None, Tried::Popped(0)),
    (0, None, Tried::Cleared(0, 1)),
    (1, None, Tried::Cleared(1, 1)),
];

static TRIANGLE_LEFT: Want = Want {
    cursors: &[1, 1],
    pops: 1,
};

#[test]
fn a_cycle_is_popped_and_then_its_path_is_settled(rt: HostRuntime) {
    let instance = cycles(&rt, rt.alloc(), &TRIANGLE_ROWS, &TRIANGLE_HEADS);
    leaves(&rt, rt.alloc(), &instance, &TRIANGLE_TURNS, &TRIANGLE_LEFT);
    drop(instance);
}

// Worked by hand: variable 0 leads to 1, which leads to itself three times and then to the root.
// So the second walk continues from variable 1 after its first pop, while 0 is still claimed.
static LOOP_HEADS: [[Option<u32>; 2]; 2] = [[Some(1), None], [None, Some(1)]];

static LOOP_ROWS: [&[u32]; 2] = [&[0, 0], &[1, 1, 1, 0]];

static LOOP_TURNS: [Turn; 3] = [
    (0, Some(2), Tried::Popped(1)),
    (0, Some(9), Tried::Cleared(0, 0)),
    (1, Some(9), Tried::Cleared(1, 3)),
];

static LOOP_LEFT: Want = Want {
    cursors: &[0, 3],
    pops: 3,
};

#[test]
fn a_walk_goes_on_where_a_cycle_closed(rt: HostRuntime) {
    let instance = cycles(&rt, rt.alloc(), &LOOP_ROWS, &LOOP_HEADS);
    leaves(&rt, rt.alloc(), &instance, &LOOP_TURNS, &LOOP_LEFT);
    drop(instance);
}

// A pass that holds a variable.
fn holder<'i>(rt: &impl Abort, board: &Board<'i>, pass: &mut Pass, v: u32) -> Pass
    requires pass { IsOf board.now pass.old × IsIdle pass.old }
    requires share { 1 < (view pass.old).share }
    requires known { v < count_of board.now }
    ensures pass { IsOf board.now pass.new × IsIdle pass.new }
    ensures holder { IsOf board.now result }
{
    let mut other = board.split(pass, 1);
    board.reserve(&mut other, 1).expect(rt, "memory");
    board.try_claim(&mut other, v);
    other
}

// Worked by hand: bit 63 is 9223372036854775808. After the first walk released variable 0, the
// second finds it free.
static BUSY_TURNS: [Turn; 3] = [
    (0, None, Tried::Busy(1, 9223372036854775808)),
    (0, Some(2), Tried::Busy(1, 9223372036854775808)),
    (1, None, Tried::Busy(1, 9223372036854775808)),
];

// Makes walks that reach a claim of variable 1, on a new board.
fn meet_claim(rt: &impl Abort, alloc: Global, instance: &Instance)
    requires cycles { is_listed instance.now.family ≡ false }
{
    let count = instance.stacks().count();
    assert!(rt; 1 < count);
    let mut walker = Walker::new(alloc, count).expect(rt, "memory");
    let (board, mut pass) = started(rt, alloc, instance, Keep::Nothing);
    let other = holder(rt, &board, &mut pass, 1);
    walk_in_turn(rt, &board, &mut pass, instance, &mut walker, &BUSY_TURNS);
    same(rt, pass.share() as u64, 63, "shares");
    same(rt, other.share() as u64, 1, "shares of the other");
    drop(other);
    drop(pass);
    drop(board);
    drop(walker);
}

#[test]
fn a_walk_that_meets_a_claim_holds_nothing(rt: HostRuntime) {
    let instance = cycles(&rt, rt.alloc(), &TRIANGLE_ROWS, &TRIANGLE_HEADS);
    meet_claim(&rt, rt.alloc(), &instance);
    drop(instance);
}
