//! The parts of a walk. The pass holds the variables of the path.
ghost use Rattle.std.specs.Prelude.{◌≡◌, ◌≤◌, ◌<◌, ◌+◌, ◌-◌, ◌^◌, ◌++◌, ◌∷◌, [], ℕ, List, length, map, take, slice_index, All, IfOk, OnOk, MatchResult, MatchOption};
ghost use Rattle.std.specs.List.Sorted.{IsPermutation, IsNonDecreasingBy};
ghost use Rattle.pop_model.specs.Stacks.{height_of};
ghost use Rattle.pop_model.specs.Popping.{variables};
ghost use Rattle.pop_stacks.specs.Readers.{Belongs};
ghost use Rattle.claim_words.specs.Maps.{times_in};
ghost use Rattle.claim_words.specs.Conditions.{MaySettle};
ghost use Rattle.claim_words.specs.Tells.{SoleKnows};
ghost use Rattle.claim_words.specs.Openings.{count};
ghost use Rattle.claim_words.specs.Passes.{IsOf, view, spare, opening_of};
ghost use Rattle.claim_words.specs.declared.view.View.{View};
ghost use Rattle.event_finders.specs.Trails.{stand, last_of, IsTrail, Goes, Stands};
ghost use Rattle.event_finders.specs.Walks.{Traced};
ghost use Rattle.event_finders.specs.WalkSteps.{IsWalking, HasSpare, LeadsBack, IsLoopCube, Same, Puts, Enters, SeesLast, Grows, Rest, Followed, Stopped, PopsLoop, slot_pair};

use crate::walker::Walker;
use claim_words::{Board, Claim, Pass};
use confluence_core::CurrentArrows;
use pop_instance::Cube;
use pop_stacks::Reader;
use std::alloc::AllocError;

// Why a walk along arrows stops.
pub(crate) enum WalkStop {
    // The last variable is at its last entry, or its arrow leads to the root or to a settled
    // variable.
    Rests,
    // The arrow of the last variable leads back to this place of the path.
    Back(usize),
    // The arrow leads to this variable, which is busy; this is its word.
    Busy(u32, u64),
}

// Claims a variable that the path leads to, and adds it to the path.
pub(crate) fn claim_on(board: &Board, pass: &mut Pass, walker: &mut Walker, v: u32) -> Claim
    requires pass { IsOf board.now pass.old }
    requires stands { Stands (opening_of board.now) (view pass.old) walker.old }
    requires spare { HasSpare pass.old walker.old }
    requires known { v < count (opening_of board.now) }
    requires fresh { times_in v (variables walker.old.path) ≡ 0 }
    requires leads { (j : ℕ) → length walker.old.path ≡ j + 1
        → Goes (opening_of board.now) (stand walker.old.path j) v }
    ensures pass { IsOf board.now pass.new }
    ensures stands { Stands (opening_of board.now) (view pass.new) walker.new }
    ensures spare { HasSpare pass.new walker.new }
    ensures same { Same (view pass.old) (view pass.new) }
    ensures puts { Puts (view pass.new) walker.old walker.new v result }
    ensures seen { Enters (view pass.old) (view pass.new) v result }
    ensures sole { SoleKnows (view pass.new) }
{
    let claim = board.try_claim(pass, v);
    match claim {
        Claim::Mine(cursor) => walker.push(v, cursor),
        Claim::Settled(_) => {}
        Claim::Busy(_) => {}
    }
    claim
}

// Follows one arrow, or returns why the walk stops.
fn step(
    board: &Board,
    pass: &mut Pass,
    current: &CurrentArrows,
    reader: &mut Reader,
    walker: &mut Walker,
) -> Option<WalkStop>
    requires pass { IsOf board.now pass.old }
    requires belongs { Belongs current.now.stacks reader.old }
    requires walking { IsWalking (opening_of board.now) pass.old current.now walker.old }
    ensures pass { IsOf board.now pass.new }
    ensures walking { IsWalking (opening_of board.now) pass.new current.now walker.new }
    ensures same { Same (view pass.old) (view pass.new) }
    ensures step { MatchOption result
        (Grows (view pass.old) (view pass.new) walker.old walker.new)
        (Rest (opening_of board.now) (view pass.old) (view pass.new) walker.old walker.new) }
    ensures reader { reader.new ≡ reader.old }
{
    let (v, cursor) = walker.last();
    if !current.has_next_at(v, cursor) {
        return Some(WalkStop::Rests);
    }
    let Some(w) = current.head_at(reader, v, cursor) else {
        return Some(WalkStop::Rests);
    };
    if let Some(place) = walker.place(w) {
        return Some(WalkStop::Back(place));
    }
    match claim_on(board, pass, walker, w) {
        Claim::Mine(_) => None,
        Claim::Settled(_) => Some(WalkStop::Rests),
        Claim::Busy(word) => Some(WalkStop::Busy(w, word)),
    }
}

// Follows arrows until the walk stops.
pub(crate) fn follow(
    board: &Board,
    pass: &mut Pass,
    current: &CurrentArrows,
    reader: &mut Reader,
    walker: &mut Walker,
) -> WalkStop
    requires pass { IsOf board.now pass.old }
    requires belongs { Belongs current.now.stacks reader.old }
    requires walking { IsWalking (opening_of board.now) pass.old current.now walker.old }
    ensures pass { IsOf board.now pass.new }
    ensures walking { IsWalking (opening_of board.now) pass.new current.now walker.new }
    ensures same { Same (view pass.old) (view pass.new) }
    ensures followed { Followed (opening_of board.now) (view pass.new) walker.old walker.new
        result }
    ensures seen { SeesLast (view pass.old) (view pass.new) walker.old.path }
    ensures traced { (n : ℕ) (d : View) → Traced n d (view pass.old) walker.old.path
        → Stopped n d (view pass.new) walker.new.path result }
    ensures reader { reader.new ≡ reader.old }
{
    loop {
        if let Some(stop) = step(board, pass, current, reader, walker) {
            return stop;
        }
    }
}

// Releases the path's variables from its end, until this many are left.
pub(crate) fn release_to(board: &Board, pass: &mut Pass, walker: &mut Walker, keep: usize)
    requires pass { IsOf board.now pass.old }
    requires tied { variables (view pass.old).held ≡ variables walker.old.path }
    requires spare { HasSpare pass.old walker.old }
    requires keep { keep ≤ length walker.old.path }
    ensures pass { IsOf board.now pass.new }
    ensures view { view pass.new
        ≡ record (view pass.old) { held = take keep (view pass.old).held } }
    ensures walker { walker.new ≡ record walker.old { path = take keep walker.old.path } }
    ensures trail { IsTrail walker.new.count walker.new.path }
    ensures spare { HasSpare pass.new walker.new }
{
    while walker.len() > keep {
        let (v, _) = walker.pop();
        board.release(pass, v);
    }
}

// Settles the path's variables from its end.
pub(crate) fn settle_all(
    board: &Board,
    pass: &mut Pass,
    current: &CurrentArrows,
    walker: &mut Walker,
)
    requires pass { IsOf board.now pass.old }
    requires walking { IsWalking (opening_of board.now) pass.old current.now walker.old }
    requires may { MaySettle (opening_of board.now) (view pass.old) (last_of walker.old.path).0 }
    ensures pass { IsOf board.now pass.new }
    ensures view { view pass.new ≡ record (view pass.old) {
      held = [];
      settled = (view pass.old).held ++ (view pass.old).settled;
    } }
    ensures walker { walker.new ≡ record walker.old { path = [] } }
    ensures spare { HasSpare pass.new walker.new }
    ensures sole { SoleKnows (view pass.new) }
{
    while walker.len() > 0 {
        let (v, _) = walker.pop();
        board.settle(pass, v);
    }
}

// Adds variables, each with the slot at its cursor, to an empty list.
fn put_pairs(
    pairs: &mut Vec<(u32, u32)>,
    current: &CurrentArrows,
    reader: &mut Reader,
    path: &[(u32, u32)],
) -> Result<(), AllocError>
    requires empty { pairs.old.items ≡ [] }
    requires known { All (λ e. (e.0 < length current.now.heads)
        × (e.1 < height_of current.now.stacks e.0)) path.now }
    requires belongs { Belongs current.now.stacks reader.old }
    ensures pairs { OnOk result (pairs.new.items ≡ map (slot_pair current.now) path.now) }
    ensures reader { reader.new ≡ reader.old }
{
    for (v, cursor) in path {
        let slot = current.slot_at(reader, *v, *cursor);
        pairs.push((*v, slot))?;
    }
    Ok(())
}

// Sorts pairs by their variables.
fn sort_pairs(pairs: &mut Vec<(u32, u32)>)
    ensures same { IsPermutation pairs.old.items pairs.new.items }
    ensures rising { IsNonDecreasingBy (λ p. p.0) pairs.new.items }
{
    pairs.sort_unstable_by_key(|pair| pair.0);
}

// The cube of the cycle of the variables from a place on. Its pairs are collected in the walker's
// list. The walker is without that list until `Walker::keep_pairs_of` returns it.
fn loop_cube(
    current: &CurrentArrows,
    reader: &mut Reader,
    walker: &mut Walker,
    place: usize,
) -> Result<Cube, AllocError>
    requires back { LeadsBack current.now walker.old place }
    requires belongs { Belongs current.now.stacks reader.old }
    ensures cube { IfOk result (IsLoopCube current.now walker.old place) }
    ensures walker { walker.new ≡ walker.old }
    ensures reader { reader.new ≡ reader.old }
{
    let mut pairs = walker.take_pairs();
    put_pairs(&mut pairs, current, reader, walker.tail(place))?;
    sort_pairs(&mut pairs);
    Ok(Cube::of(pairs))
}

// Pops the cycle of the variables from a place on. It allocates only for a log that is kept, since
// the walker has room for the pairs.
pub(crate) fn pop_loop(
    board: &Board,
    pass: &mut Pass,
    current: &CurrentArrows,
    reader: &mut Reader,
    walker: &mut Walker,
    place: usize,
) -> Result<u64, AllocError>
    requires pass { IsOf board.now pass.old }
    requires belongs { Belongs current.now.stacks reader.old }
    requires walking { IsWalking (opening_of board.now) pass.old current.now walker.old }
    requires place { place < length walker.old.path }
    requires closes { Goes (opening_of board.now) (last_of walker.old.path)
        (slice_index (variables walker.old.path) place) }
    ensures pass { IsOf board.now pass.new }
    ensures popped { MatchResult result
        (PopsLoop (opening_of board.now) (view pass.old) (view pass.new) walker.old.path place)
        (λ _. view pass.new ≡ view pass.old) }
    ensures spare { HasSpare pass.new walker.new }
    ensures sole { SoleKnows (view pass.new) }
    ensures walker { walker.new ≡ walker.old }
    ensures reader { reader.new ≡ reader.old }
{
    let cube = loop_cube(current, reader, walker, place)?;
    if let Err(failed) = board.reserve(pass, cube.len()) {
        walker.keep_pairs_of(cube);
        return Err(failed);
    }
    let (unit, _) = cube.pair(0);
    let ticket = board.pop(pass, unit, &cube);
    walker.keep_pairs_of(cube);
    Ok(ticket)
}

// Adds 1 to the cursor of the path's last variable.
pub(crate) fn move_on(walker: &mut Walker)
    requires some { 0 < length walker.old.path }
    requires low { (last_of walker.old.path).1 < 2 ^ 31 }
    ensures walker { (q : List (ℕ × ℕ)) (e : ℕ × ℕ) → walker.old.path ≡ q ++ e ∷ []
        → walker.new ≡ record walker.old { path = q ++ (e.0, e.1 + 1) ∷ [] } }
    ensures trail { IsTrail walker.new.count walker.new.path }
{
    let _len = walker.len();
    let (v, cursor) = walker.pop();
    walker.push(v, cursor + 1);
}
