//! Tries at units of boards of one variable or two.
ghost use Rattle.std.specs.Prelude.{◌≡◌, ◌≤◌, length};
ghost use Rattle.pop_model.specs.Stacks.{variables_of};
ghost use Rattle.claim_words.specs.Passes.{IsOf, IsIdle, view, spare, instance_of};
ghost use Rattle.event_finders.specs.UnitConditions.{Indexes};

use super::{Want, is_left};
use crate::comparing::is_so;
use crate::made::made;
use crate::passes::{close, started};
use claim_words::{Board, Claim, Closed, Pass};
use confluence_core::Keep;
use event_finders::{Tried, try_unit};
use pop_instance::{Family, Index, Instance};
use pop_stacks::Reader;
use std::alloc::Global;
use std::process::Abort;
use test_instances::{EventRow, listed};

// Two variables with the entries 0, 1 each. Unit 0 demands 0 of both, unit 1 demands 1 and 0.
const TWO_ROWS: [&[u32]; 2] = [&[0, 1], &[0, 1]];

const TWO_EVENTS: [EventRow; 2] = [(1, &[(0, 0), (1, 0)]), (2, &[(0, 1), (1, 0)])];

// One variable with the entries 0, 0, and an event that demands 0.
const ONE_ROW: [&[u32]; 1] = [&[0, 0]];

const ONE_EVENT: [EventRow; 1] = [(1, &[(0, 0)])];

// The index of the events of an instance.
fn index_of(rt: &impl Abort, alloc: Global, instance: &Instance) -> Index
    ensures { Indexes instance.now result }
{
    let _units = instance.units();
    let Family::Listed(events) = instance.family() else {
        panic!(rt; "a listed family");
    };
    Index::build(alloc, events, instance.stacks().count()).expect(rt, "memory")
}

// Tries units one after another, and compares the results.
fn try_each(
    rt: &impl Abort,
    alloc: Global,
    board: &Board,
    pass: &mut Pass,
    instance: &Instance,
    table: &[(u32, Tried)],
)
    requires pass { IsOf board.now pass.old × IsIdle pass.old }
    requires instance { instance_of board.now ≡ instance.now }
    ensures pass { IsOf board.now pass.new × IsIdle pass.new }
    ensures share { (view pass.new).share ≡ (view pass.old).share }
{
    let index = index_of(rt, alloc, instance);
    let mut reader = Reader::new(instance.stacks());
    for (unit, wanted) in table {
        assert!(rt; *unit < instance.units());
        let tried = try_unit(board, pass, instance, &index, &mut reader, *unit);
        is_so(rt, tried == *wanted, "unit", *unit);
    }
    drop(reader);
    drop(index);
}

// The closed board after one pass tried these units.
fn close_after(
    rt: &impl Abort,
    alloc: Global,
    instance: &Instance,
    table: &[(u32, Tried)],
) -> Closed
    ensures { length result.cursors ≡ variables_of instance.now.stacks }
{
    let (board, mut pass) = started(rt, alloc, instance, Keep::Nothing);
    try_each(rt, alloc, &board, &mut pass, instance, table);
    close(rt, board, pass)
}

// Tries units of a new board, and compares the closed board.
fn leaves(
    rt: &impl Abort,
    alloc: Global,
    instance: &Instance,
    table: &[(u32, Tried)],
    want: &Want,
) {
    let closed = close_after(rt, alloc, instance, table);
    is_left(rt, &closed, instance.stacks().count(), want);
    drop(closed);
}

// Worked by hand. After the pop both variables are at their last entry, which has the value 1.
static TWO_TRIES: [(u32, Tried); 4] = [
    (0, Tried::Popped(0)),
    (1, Tried::Cleared(1, 1)),
    (1, Tried::Idle),
    (0, Tried::Cleared(0, 1)),
];

static TWO_LEFT: Want = Want {
    cursors: &[1, 1],
    pops: 1,
};

#[test]
fn a_cleared_unit_has_no_mark(rt: HostRuntime) {
    let instance = made(&rt, listed(rt.alloc(), &TWO_ROWS, &TWO_EVENTS));
    leaves(&rt, rt.alloc(), &instance, &TWO_TRIES, &TWO_LEFT);
    drop(instance);
}

// Worked by hand: the second entry of the only variable is its last, and has the event's value.
static ONE_TRIES: [(u32, Tried); 3] = [
    (0, Tried::Popped(0)),
    (0, Tried::Stuck(0, 1)),
    (0, Tried::Idle),
];

static ONE_LEFT: Want = Want {
    cursors: &[1],
    pops: 1,
};

#[test]
fn a_stuck_unit_has_no_mark(rt: HostRuntime) {
    let instance = made(&rt, listed(rt.alloc(), &ONE_ROW, &ONE_EVENT));
    leaves(&rt, rt.alloc(), &instance, &ONE_TRIES, &ONE_LEFT);
    drop(instance);
}

// The two events, and one that demands 0 of the last variable only.
const THREE_EVENTS: [EventRow; 3] = [
    (1, &[(0, 0), (1, 0)]),
    (2, &[(0, 1), (1, 0)]),
    (3, &[(1, 0)]),
];

// Worked by hand: bit 63 is 9223372036854775808.
static BUSY_TRIES: [(u32, Tried); 4] = [
    (0, Tried::Busy(1, 9223372036854775808)),
    (0, Tried::Busy(1, 9223372036854775808)),
    (2, Tried::Busy(1, 9223372036854775808)),
    (2, Tried::Busy(1, 9223372036854775808)),
];

static FREE_TRIES: [(u32, Tried); 2] = [(0, Tried::Popped(0)), (1, Tried::Cleared(1, 1))];

// Tries units while another pass holds variable 1, and then others after that pass released it.
fn try_beside(
    rt: &impl Abort,
    alloc: Global,
    board: &Board,
    pass: &mut Pass,
    other: &mut Pass,
    instance: &Instance,
)
    requires pass { IsOf board.now pass.old × IsIdle pass.old }
    requires other { IsOf board.now other.old × IsIdle other.old }
    requires room { 1 ≤ spare other.old }
    requires instance { instance_of board.now ≡ instance.now }
{
    assert!(rt; 1 < instance.stacks().count());
    let claim = board.try_claim(other, 1);
    assert!(rt; claim == Claim::Mine(0));
    try_each(rt, alloc, board, pass, instance, &BUSY_TRIES);
    if let Claim::Mine(_) = claim {
        board.release(other, 1);
    }
    try_each(rt, alloc, board, pass, instance, &FREE_TRIES);
}

// Tries units of a new board with another pass on it.
fn try_apart(rt: &impl Abort, alloc: Global, instance: &Instance) {
    let (board, mut pass) = started(rt, alloc, instance, Keep::Nothing);
    let mut other = board.split(&mut pass, 1);
    board.reserve(&mut other, 1).expect(rt, "memory");
    try_beside(rt, alloc, &board, &mut pass, &mut other, instance);
    drop(other);
    drop(pass);
    drop(board);
}

#[test]
fn a_unit_that_was_refused_is_marked_again(rt: HostRuntime) {
    let instance = made(&rt, listed(rt.alloc(), &TWO_ROWS, &THREE_EVENTS));
    try_apart(&rt, rt.alloc(), &instance);
    drop(instance);
}
