ghost use Rattle.std.specs.Prelude.{◌≡◌, ◌≢◌, ◌<◌, ◌≤◌, ◌+◌, ◌-◌, ◌^◌, ◌↔◌, ℕ, List, min, length, All, AllPairs, IsTrue, OnOk, MatchOption};
ghost use Rattle.pop_model.specs.Stacks.{variables_of, height_of};
ghost use Rattle.pop_model.specs.Popping.{AreWithin, cursor};
ghost use Rattle.confluence_core.specs.Loops.{Raises};
ghost use Rattle.prs_rounds.specs.Moves.{IsLeastShort, Puts};
ghost use Rattle.prs_rounds.specs.Values.{AreValues};

use crate::front::Front;
use crate::looker::Looker;
use pop_instance::Cursors;
use pop_stacks::Stacks;
use std::alloc::{AllocError, Global};

// Whether a variable is at its last entry.
fn is_last(stacks: &Stacks, cursors: &Cursors, v: u32) -> bool
    requires known { v < length cursors.now }
    requires count { variables_of stacks.now ≡ length cursors.now }
    requires within { AreWithin stacks.now cursors.now }
    ensures { IsTrue result ↔ (height_of stacks.now v ≤ cursor cursors.now v + 1) }
{
    let _table = stacks.count();
    let height = stacks.height(v);
    cursors.get(v) + 1 >= height
}

// The lower of two variables, or v if there is only one.
fn lesser(least: Option<u32>, v: u32) -> u32
    ensures { MatchOption least (result ≡ v) (λ w. result ≡ min w v) }
{
    match least {
        None => v,
        Some(w) => w.min(v),
    }
}

/// The lowest of these variables that is at its last entry.
pub(crate) fn least_short(stacks: &Stacks, cursors: &Cursors, variables: &[u32]) -> Option<u32>
    requires known { All (λ v. v < length cursors.now) variables.now }
    requires count { variables_of stacks.now ≡ length cursors.now }
    requires within { AreWithin stacks.now cursors.now }
    ensures { IsLeastShort stacks.now cursors.now variables.now result }
{
    let mut least = None;
    for v in variables {
        if is_last(stacks, cursors, *v) {
            least = Some(lesser(least, *v));
        }
    }
    least
}

/// Moves these variables on to their next entries.
pub(crate) fn move_on(cursors: &mut Cursors, variables: &[u32])
    requires known { All (λ v. v < length cursors.old) variables.now }
    requires differ { AllPairs (λ v w. v ≢ w) variables.now }
    requires room { All (λ v. cursor cursors.old v < 2 ^ 31 - 1) variables.now }
    ensures { Raises variables.now (length variables.now) cursors.old cursors.new }
{
    for v in variables {
        cursors.move_on(*v);
    }
}

// Stores the values that were read at the places of their variables.
fn put(values: &mut Vec<u32>, variables: &[u32], read: &[u32])
    requires known { All (λ v. v < length values.old.items) variables.now }
    requires differ { AllPairs (λ v w. v ≢ w) variables.now }
    requires size { length read.now ≡ length variables.now }
    ensures { Puts variables.now read.now (length variables.now) values.old.items values.new.items }
{
    for k in 0..variables.len() {
        values[variables[k] as usize] = read[k];
    }
}

/// Reads the values of these variables again, after their cursors have moved on.
pub(crate) fn refresh<L: Looker>(
    looker: &L,
    alloc: Global,
    stacks: &Stacks,
    cursors: &Cursors,
    variables: &[u32],
    values: &mut Vec<u32>,
) -> Result<(), AllocError>
    requires can_look { L.can_look }
    requires known { All (λ v. v < length cursors.now) variables.now }
    requires differ { AllPairs (λ v w. v ≢ w) variables.now }
    requires count { variables_of stacks.now ≡ length cursors.now }
    requires within { AreWithin stacks.now cursors.now }
    requires size { length values.old.items ≡ length cursors.now }
    ensures { OnOk result ((c : List ℕ) → AreValues stacks.now c values.old.items
        → Raises variables.now (length variables.now) c cursors.now
        → AreValues stacks.now cursors.now values.new.items) }
{
    let now = looker.read(alloc, Front { stacks, cursors }, variables)?;
    put(values, variables, &now);
    Ok(())
}
