//! Walks that claim variables along the arrows, and pop the cycles that they close: loop-erased
//! walks (Wilson 1996; Propp and Wilson 1998) of several passes on one board.
ghost use Rattle.std.specs.Prelude.{◌≡◌, ◌≤◌, ◌<◌, ◌+◌, false, ℕ, slice_index};
ghost use Rattle.pop_model.specs.Popping.{variables};
ghost use Rattle.pop_stacks.specs.Readers.{Belongs};
ghost use Rattle.claim_words.specs.Openings.{is_listed};
ghost use Rattle.claim_words.specs.Passes.{IsOf, IsIdle, view, count_of, opening_of, instance_of};
ghost use Rattle.claim_words.specs.declared.view.View.{View};
ghost use Rattle.event_finders.specs.Gains.{SeesWithin, Stays};
ghost use Rattle.event_finders.specs.Trails.{resting};
ghost use Rattle.event_finders.specs.Walks.{KeepsKnown, Traced, PopsCycles, IsWalkAnswer};
ghost use Rattle.event_finders.specs.WalkSteps.{IsWalking, HasSpare, SeesLast, Rounds, RoundsOn};

use crate::walker::Walker;
use crate::walking::{WalkStop, claim_on, follow, move_on, pop_loop, release_to, settle_all};
use crate::{Tried, WalkBounds};
use claim_words::{Board, Claim, Pass};
use confluence_core::CurrentArrows;
use pop_instance::{Family, Instance};
use pop_stacks::Reader;

// The result of following arrows until something happens.
enum Round {
    // A cycle was popped, with this ticket, and the walk continues from the variable that closed
    // it.
    Popped(u64),
    // The walk is over, and all variables were released or settled.
    Over(Tried),
}

/// Claims variables from a start along the arrows of a cycle family, until the path closes a cycle
/// or cannot continue.
///
/// - `Popped`: the path closed a cycle, which was popped. Then all variables are released.
/// - `Cleared`: the path reached the root, a settled variable or a variable at its last entry, and
///   all of it was settled from its end; or the start was settled already. The variable is the
///   start.
/// - `Busy`: this variable is claimed by another pass, and the path reached it or starts there.
///   All variables are released. A pass that has all 64 shares, and so is the only one, never gets
///   it.
/// - `Stuck` and `Idle` are never returned.
/// - `OutOfMemory`: there was no room for the claims, and no step was made; or there was none for
///   the records of a pop in a log that is kept, and all variables are released.
///
/// The pass must be idle, and is idle after the call. The walker must be one for the board's
/// variables (`Walker::new`) and between walks, and is so after the call.
pub fn try_walk(
    board: &Board,
    pass: &mut Pass,
    instance: &Instance,
    reader: &mut Reader,
    walker: &mut Walker,
    start: u32,
) -> Tried
    requires pass { IsOf board.now pass.old }
    requires idle { IsIdle pass.old }
    requires instance { instance_of board.now ≡ instance.now }
    requires cycles { is_listed instance.now.family ≡ false }
    requires belongs { Belongs instance.now.stacks reader.old }
    requires walker { walker.old ≡ resting (count_of board.now) }
    requires known { start < count_of board.now }

    ensures pass { IsOf board.now pass.new }
    ensures idle { IsIdle pass.new }
    ensures stays { Stays (view pass.old) (view pass.new) }
    ensures seen { SeesWithin 1 (view pass.old) (view pass.new) }
    ensures settled { KeepsKnown (view pass.old) (view pass.new) }
    ensures mine { PopsCycles (opening_of board.now) (view pass.old) (view pass.new) 1 start
        result }
    ensures answer { IsWalkAnswer (opening_of board.now) (view pass.old) (view pass.new) 1 start
        result }
    ensures walker { walker.new ≡ walker.old }
    ensures reader { reader.new ≡ reader.old }
{
    let bounds = WalkBounds { start, pops: 1 };
    walk_on(board, pass, instance, reader, walker, bounds)
}

/// The walk of `try_walk`, continued until as many cycles were popped as the bounds say. `Popped`
/// has the ticket of the last. After each pop the walk continues from the variable that closed the
/// cycle. The path up to there is still claimed, so no part of it is walked again. The other
/// results are those of `try_walk`, after fewer pops.
pub fn walk_on(
    board: &Board,
    pass: &mut Pass,
    instance: &Instance,
    reader: &mut Reader,
    walker: &mut Walker,
    bounds: WalkBounds,
) -> Tried
    requires pass { IsOf board.now pass.old }
    requires idle { IsIdle pass.old }
    requires instance { instance_of board.now ≡ instance.now }
    requires cycles { is_listed instance.now.family ≡ false }
    requires belongs { Belongs instance.now.stacks reader.old }
    requires walker { walker.old ≡ resting (count_of board.now) }
    requires known { bounds.start < count_of board.now }
    requires pops { 1 ≤ bounds.pops }

    ensures pass { IsOf board.now pass.new }
    ensures idle { IsIdle pass.new }
    ensures stays { Stays (view pass.old) (view pass.new) }
    ensures seen { SeesWithin bounds.pops (view pass.old) (view pass.new) }
    ensures settled { KeepsKnown (view pass.old) (view pass.new) }
    ensures mine { PopsCycles (opening_of board.now) (view pass.old) (view pass.new)
        bounds.pops bounds.start result }
    ensures answer { IsWalkAnswer (opening_of board.now) (view pass.old) (view pass.new)
        bounds.pops bounds.start result }
    ensures walker { walker.new ≡ walker.old }
    ensures reader { reader.new ≡ reader.old }
{
    let _units = instance.units();
    let Family::Cycles(arrows) = instance.family() else {
        unreachable!()
    };
    let current = CurrentArrows::of(instance.stacks(), arrows);
    // Room for twice the number of variables. A pop reserves room for its cycle while the path is
    // held, and so allocates only for a log that is kept.
    let count = current.count();
    if board.reserve(pass, count + count).is_err() {
        return Tried::OutOfMemory;
    }
    let WalkBounds { start, pops } = bounds;
    match claim_on(board, pass, walker, start) {
        Claim::Mine(_) => {}
        Claim::Settled(cursor) => return Tried::Cleared(start, cursor),
        Claim::Busy(word) => return Tried::Busy(start, word),
    }
    let mut last = 0;
    for _ in 0..pops {
        match go_round(board, pass, &current, reader, walker) {
            Round::Popped(ticket) => last = ticket,
            Round::Over(answer) => return answer,
        }
    }
    release_to(board, pass, walker, 0);
    Tried::Popped(last)
}

// Follows the arrows until they close a cycle, and pops it; or ends the walk.
fn go_round(
    board: &Board,
    pass: &mut Pass,
    current: &CurrentArrows,
    reader: &mut Reader,
    walker: &mut Walker,
) -> Round
    requires pass { IsOf board.now pass.old }
    requires belongs { Belongs current.now.stacks reader.old }
    requires walking { IsWalking (opening_of board.now) pass.old current.now walker.old }
    ensures pass { IsOf board.now pass.new }
    ensures stays { Stays (view pass.old) (view pass.new) }
    ensures settled { KeepsKnown (view pass.old) (view pass.new) }
    ensures spare { HasSpare pass.new walker.new }
    ensures round { Rounds (opening_of board.now) (view pass.old) (view pass.new) walker.old
        walker.new result }
    ensures seen { SeesLast (view pass.old) (view pass.new) walker.old.path }
    ensures traced { (n : ℕ) (d : View) → Traced n d (view pass.old) walker.old.path
        → RoundsOn (opening_of board.now) n d (view pass.new)
        (slice_index (variables walker.old.path) 0) walker.new.path result }
    ensures reader { reader.new ≡ reader.old }
{
    match follow(board, pass, current, reader, walker) {
        WalkStop::Rests => {
            let (start, cursor) = walker.at(0);
            settle_all(board, pass, current, walker);
            Round::Over(Tried::Cleared(start, cursor))
        }
        WalkStop::Back(place) => match pop_loop(board, pass, current, reader, walker, place) {
            Ok(ticket) => {
                release_to(board, pass, walker, place + 1);
                move_on(walker);
                Round::Popped(ticket)
            }
            Err(_) => {
                release_to(board, pass, walker, 0);
                Round::Over(Tried::OutOfMemory)
            }
        },
        WalkStop::Busy(v, word) => {
            release_to(board, pass, walker, 0);
            Round::Over(Tried::Busy(v, word))
        }
    }
}
