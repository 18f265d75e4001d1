ghost use Rattle.std.specs.Prelude.{◌≡◌, ◌<◌, ◌≤◌, ◌+◌, ◌↔◌, ℕ, length, Contains, IfOk, IfSome, IfNone};
ghost use Rattle.std.specs.Bool.{OnTrue};
ghost use Rattle.std.specs.List.Sorted.{IsStrictlyIncreasing};
ghost use Rattle.pop_model.specs.Families.Family.{Listed};
ghost use Rattle.pop_model.specs.Extremal.{IsExtremal, Share};
ghost use Rattle.pop_model.specs.Places.{IsLeast, IsLeastPair};
ghost use Rattle.pop_instance.specs.Events.{cube_at};
ghost use Rattle.pop_instance.specs.Index.{IsIndex};
ghost use Rattle.extremal_check.specs.Clashes.{ClashAt, HasNoClash};
ghost use Rattle.extremal_check.specs.Tries.{AreLaterSharing, AreStamped, IsLeastTried};
ghost use Rattle.extremal_check.specs.Verdicts.{IsVerdict};

use crate::Verdict;
use crate::exclusion::exclude;
use pop_instance::{Events, Index};
use std::alloc::{AllocError, Global};

/// Whether the events are extremal. If not, the verdict has the numbers of the first pair that
/// clashes. Only pairs of events that share a variable are looked up, once for each shared
/// variable, and each pair is compared at most once. It takes memory for one number for each
/// event.
pub fn check(alloc: Global, events: &Events, index: &Index) -> Result<Verdict, AllocError>
    requires { IsIndex events.now index.now }
    ensures verdict { IfOk result (IsVerdict events.now) }
    ensures extremal { IfOk result
        (λ verdict. (verdict ≡ Verdict.Extremal) ↔ IsExtremal (Listed events.now)) }
{
    let mut stamps = vec![in alloc; 0; events.count() as usize]?;
    match first_clash(events, index, &mut stamps) {
        None => Ok(Verdict::Extremal),
        Some((i, j)) => Ok(Verdict::Clash(events.number(i), events.number(j))),
    }
}

// The first pair of places of events that clash.
fn first_clash(events: &Events, index: &Index, stamps: &mut [u32]) -> Option<(u32, u32)>
    requires index { IsIndex events.now index.now }
    requires stamped { AreStamped events.now 0 stamps.old }
    ensures none { IfNone result ((i : ℕ) → HasNoClash events.now i) }
    ensures found { IfSome result
        (λ places. IsLeastPair (ClashAt events.now) places.0 places.1) }
{
    for i in 0..events.count() {
        if let Some(j) = first_with(events, index, stamps, i) {
            return Some((i, j));
        }
    }
    None
}

// The first place of a later event that clashes with event i.
fn first_with(events: &Events, index: &Index, stamps: &mut [u32], i: u32) -> Option<u32>
    requires index { IsIndex events.now index.now }
    requires within { i < length events.now }
    requires stamped { AreStamped events.now i stamps.old }
    ensures stamped { AreStamped events.now (i + 1) stamps.new }
    ensures none { IfNone result (HasNoClash events.now i) }
    ensures found { IfSome result (IsLeast (ClashAt events.now i)) }
{
    let count = events.count();
    let least = least_with(events, index, stamps, i);
    if least < count { Some(least) } else { None }
}

// The first place of a later event that clashes with event i, or the number of events if none
// does. If one row has every later event, the other rows need not be tried. This is so if all
// events share a variable.
fn least_with(events: &Events, index: &Index, stamps: &mut [u32], i: u32) -> u32
    requires index { IsIndex events.now index.now }
    requires within { i < length events.now }
    requires stamped { AreStamped events.now i stamps.old }
    ensures tried { IsLeastTried events.now i stamps.new result }
    ensures none_below { (j : ℕ) → ClashAt events.now i j → result ≤ j }
{
    let cube = events.cube(i);
    let count = events.count();
    let mut least = count;
    for k in 0..cube.len() {
        let (v, _) = cube.pair(k);
        let later = places_after(index.at(v), i);
        least = least_in_row(events, later, stamps, i, least);
        if has_all_later(later, i, count) {
            return least;
        }
    }
    least
}

// Whether a row has every place after place i that is below the count, one after another.
fn has_all_later(row: &[u32], i: u32, count: u32) -> bool
    requires { i < count }
    ensures { OnTrue result ((j : ℕ) → i < j → j < count → Contains row.now j) }
{
    let first = i as usize + 1;
    if row.len() != count as usize - first {
        return false;
    }
    for k in 0..row.len() {
        if row[k] as usize != first + k {
            return false;
        }
    }
    true
}

// The places of a row after place i.
fn places_after(row: &[u32], i: u32) -> &[u32]
    requires rising { IsStrictlyIncreasing row.now }
    ensures later { (j : ℕ) → Contains result.now j ↔ (Contains row.now j × (i < j)) }
{
    let start = row.partition_point(|j| *j <= i);
    &row[start..]
}

// Tries the events of a row that come after event i and share a variable with it.
fn least_in_row(events: &Events, row: &[u32], stamps: &mut [u32], i: u32, least: u32) -> u32
    requires within { i < length events.now }
    requires sharing { AreLaterSharing events.now i row.now }
    requires tried { IsLeastTried events.now i stamps.old least }
    ensures tried { IsLeastTried events.now i stamps.new result }
    ensures falls { result ≤ least }
    ensures none_below { (j : ℕ) → Contains row.now j → ClashAt events.now i j → result ≤ j }
{
    let mut lowest = least;
    for j in row {
        lowest = try_with(events, stamps, i, *j, lowest);
    }
    lowest
}

// Tries the later event j with event i, unless this pair was tried or j cannot be the first event
// that clashes.
fn try_with(events: &Events, stamps: &mut [u32], i: u32, j: u32, least: u32) -> u32
    requires rising { i < j }
    requires within { j < length events.now }
    requires share { Share (cube_at events.now i) (cube_at events.now j) }
    requires tried { IsLeastTried events.now i stamps.old least }
    ensures tried { IsLeastTried events.now i stamps.new result }
    ensures falls { result ≤ least }
    ensures not_above { ClashAt events.now i j → result ≤ j }
{
    if j >= least {
        return least;
    }
    if stamps[j as usize] == i + 1 {
        return least;
    }
    stamps[j as usize] = i + 1;
    if exclude(events.cube(i), events.cube(j)) {
        return least;
    }
    j
}
