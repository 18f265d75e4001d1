//! Claims the variables of a listed event, in their order, and releases them.
ghost use Rattle.std.specs.Prelude.{◌≡◌, ◌+◌, ◌<◌, ◌≤◌, [], take, length, true, MatchOption};
ghost use Rattle.pop_model.specs.Stacks.{variables_of, height_of};
ghost use Rattle.pop_model.specs.Popping.{NamesBelow, variables};
ghost use Rattle.pop_stacks.specs.Readers.{Belongs};
ghost use Rattle.claim_words.specs.Openings.{is_listed};
ghost use Rattle.claim_words.specs.Passes.{IsOf, view, spare, log_spare, count_of, instance_of};
ghost use Rattle.event_finders.specs.UnitLooks.{Looks, UnitLooks};
ghost use Rattle.event_finders.specs.OwedMarks.{emptied};

use crate::unit_look::UnitLook;
use crate::variable_look::VariableLook;
use claim_words::{Board, Claim, Pass};
use pop_instance::{Cube, Instance};
use pop_stacks::{Reader, Stacks};

// Claims a variable, and compares its value with the one that the event demands.
fn look_at(
    board: &Board,
    pass: &mut Pass,
    instance: &Instance,
    reader: &mut Reader,
    v: u32,
    value: u32,
) -> VariableLook
    requires pass { IsOf board.now pass.old }
    requires instance { instance_of board.now ≡ instance.now }
    requires listed { is_listed instance.now.family ≡ true }
    requires known { v < count_of board.now }
    requires belongs { Belongs instance.now.stacks reader.old }
    requires room { 1 ≤ spare pass.old }
    ensures pass { IsOf board.now pass.new }
    ensures look { Looks instance.now (view pass.old) v value (view pass.new) result }
    ensures spare { spare pass.old ≤ spare pass.new + 1 }
    ensures log_spare { log_spare pass.new ≡ log_spare pass.old }
    ensures reader { reader.new ≡ reader.old }
{
    match board.try_claim(pass, v) {
        Claim::Mine(cursor) => {
            if reader.entry(instance.stacks(), v, cursor) != value {
                return VariableLook::Differs(cursor);
            }
            VariableLook::Fits(cursor)
        }
        Claim::Busy(word) => VariableLook::Busy(word),
        Claim::Settled(_) => unreachable!(),
    }
}

// The variable with its cursor, if that is its last entry.
fn at_last(stacks: &Stacks, v: u32, cursor: u32) -> Option<(u32, u32)>
    requires known { v < variables_of stacks.now }
    requires low { cursor < height_of stacks.now v }
    ensures { MatchOption result (cursor + 1 < height_of stacks.now v)
        (λ r. (r ≡ (v, cursor)) × (cursor + 1 ≡ height_of stacks.now v)) }
{
    let height = stacks.height(v);
    if cursor + 1 < height {
        return None;
    }
    Some((v, cursor))
}

/// Claims the variables of a listed event in their order, up to the first one that has another
/// value or is busy. Variables at their last entry do not stop it, since values are compared
/// first.
pub(crate) fn claim_unit(
    board: &Board,
    pass: &mut Pass,
    instance: &Instance,
    cube: &Cube,
    reader: &mut Reader,
) -> UnitLook
    requires pass { IsOf board.now pass.old }
    requires free { (view pass.old).held ≡ [] }
    requires instance { instance_of board.now ≡ instance.now }
    requires listed { is_listed instance.now.family ≡ true }
    requires known { NamesBelow cube.now (count_of board.now) }
    requires belongs { Belongs instance.now.stacks reader.old }
    requires room { length cube.now ≤ spare pass.old }
    ensures pass { IsOf board.now pass.new }
    ensures looks { UnitLooks instance.now (view pass.old) cube.now (view pass.new) result }
    ensures log_spare { log_spare pass.new ≡ log_spare pass.old }
    ensures reader { reader.new ≡ reader.old }
{
    let mut last = None;
    for i in 0..cube.len() {
        let (v, value) = cube.pair(i);
        match look_at(board, pass, instance, reader, v, value) {
            VariableLook::Fits(cursor) => last = last.or(at_last(instance.stacks(), v, cursor)),
            VariableLook::Differs(cursor) => return UnitLook::Differs(i, v, cursor),
            VariableLook::Busy(word) => return UnitLook::Busy(i, v, word),
        }
    }
    match last {
        Some((v, cursor)) => UnitLook::AtLast(v, cursor),
        None => UnitLook::Poppable,
    }
}

/// Releases the first variables of a cube, from the last one. They must be all that the pass
/// holds.
pub(crate) fn release_first(board: &Board, pass: &mut Pass, cube: &Cube, n: u32)
    requires pass { IsOf board.now pass.old }
    requires short { n ≤ length cube.now }
    requires held { variables (view pass.old).held ≡ variables (take n cube.now) }
    ensures pass { IsOf board.now pass.new }
    ensures view { view pass.new ≡ emptied (view pass.old) }
{
    let _len = cube.len();
    let mut left = n;
    while left > 0 {
        left -= 1;
        let (v, _) = cube.pair(left);
        board.release(pass, v);
    }
}
