ghost use Rattle.std.specs.Prelude.{◌≡◌, ◌<◌, ◌≤◌, ◌^◌, ◌↔◌, [], length, slice_index_or, All, IsTrue, IfSome, IfOk, MatchOption};
ghost use Rattle.pop_model.specs.Cycles.{AreArrows, head_of};
ghost use Rattle.pop_instance.specs.Arrows.{
  heads_of,
  IsRow,
  heads_of_numbers,
  IsNumberRow,
  AreHeadNumbers,
};

use crate::kept_heads::KeptHeads;
use pop_rows::RowList;
use std::alloc::{AllocError, Global};
use std::marker::Model;

/// For each variable the heads of its slots. The head of a slot is the variable that the slot
/// points to, or None for the root. Each variable has a slot. Variables and slots count from 0.
#[derive(Drop)]
pub struct Arrows {
    heads: KeptHeads,
}

impl Model for Arrows {
    ghost use Rattle.std.specs.Prelude.{ℕ, List, Option, length, All, ◌<◌, ◌^◌};
    ghost use Rattle.pop_model.specs.Cycles.{AreArrows};
    ghost use Rattle.pop_instance.specs.KeptHeads.{heads_kept};

    ghost Value = { List (List (Option ℕ)) };

    ghost view = { λ a. heads_kept a.heads };

    ghost invariant = { λ a. AreArrows (heads_kept a.heads)
        × (length (heads_kept a.heads) < 2 ^ 31)
        × All (λ row. length row < 2 ^ 31) (heads_kept a.heads) };
}

impl Arrows {
    /// The arrows with these heads, one row for each variable and one head for each slot. A
    /// variable has at most 2^31 - 1 slots. The result is None exactly if a row is empty or a head
    /// is not below the number of rows.
    pub fn new(heads: Vec<Vec<Option<u32>>>) -> Option<Arrows>
        requires short { length heads.items < 2 ^ 31 }
        requires short_rows { All (λ row. length row < 2 ^ 31) (heads_of heads.items) }
        ensures { MatchOption result (AreArrows (heads_of heads.items) → ⊥)
            (λ arrows. arrows ≡ heads_of heads.items) }
    {
        if !are_rows(&heads) {
            return None;
        }
        Some(Arrows {
            heads: KeptHeads::Nested(heads),
        })
    }

    /// The arrows with these heads, which lie in one array: one row for each variable and one
    /// number for each slot. A number below the number of rows is a variable; the number of rows
    /// itself is the root. The result is None exactly if a row is empty or a number is greater
    /// than the number of rows.
    pub fn flat(rows: RowList) -> Option<Arrows>
        requires short { length rows < 2 ^ 31 }
        requires short_rows { All (λ row. length row < 2 ^ 31) rows }
        ensures { MatchOption result (AreHeadNumbers rows → ⊥)
            (λ arrows. arrows ≡ heads_of_numbers rows) }
    {
        if !are_head_numbers(&rows) {
            return None;
        }
        Some(Arrows {
            heads: KeptHeads::Flat(rows),
        })
    }

    /// The same arrows, compressed to one byte a variable. This is done if the heads lie in one
    /// array and have at most 256 patterns relative to their variables, as in a grid.
    pub fn packed(self, alloc: Global) -> Result<Arrows, AllocError>
        ensures { IfOk result (λ arrows. arrows ≡ self) }
    {
        Ok(Arrows {
            heads: self.heads.packed(alloc)?,
        })
    }

    /// A copy of these arrows.
    pub fn copy(&self, alloc: Global) -> Result<Arrows, AllocError>
        ensures { IfOk result (λ arrows. arrows ≡ self.now) }
    {
        Ok(Arrows {
            heads: self.heads.copy(alloc)?,
        })
    }

    /// The number of variables, at most 2^31 - 1.
    pub fn count(&self) -> u32
        ensures count { result ≡ length self.now }
        ensures arrows { AreArrows self.now }
        ensures short { result < 2 ^ 31 }
    {
        self.heads.count()
    }

    /// The number of slots of a variable, from 1 to 2^31 - 1.
    #[inline]
    pub fn slots(&self, v: u32) -> u32
        requires known { v < length self.now }
        ensures slots { result ≡ length (slice_index_or self.now v []) }
        ensures some { 0 < result }
        ensures short { result < 2 ^ 31 }
    {
        self.heads.slots(v)
    }

    /// The head of a slot: a variable, or None for the root.
    #[inline]
    pub fn head(&self, v: u32, slot: u32) -> Option<u32>
        requires known { v < length self.now }
        requires slot { slot < length (slice_index_or self.now v []) }
        ensures { result ≡ head_of self.now v slot }
    {
        self.heads.head(v, slot)
    }
}

// Whether a head is the root or below the count.
fn is_below(head: Option<u32>, count: u32) -> bool
    ensures { IsTrue result ↔ IfSome head (λ w. w < count) }
{
    match head {
        None => true,
        Some(w) => w < count,
    }
}

// Whether each head of a row is the root or below the count.
fn are_below(row: &[Option<u32>], count: u32) -> bool
    ensures { IsTrue result ↔ All (λ head. IfSome head (λ w. w < count)) row.now }
{
    for head in row {
        if !is_below(*head, count) {
            return false;
        }
    }
    true
}

// Whether a row has a slot and each of its heads is the root or below the count.
fn is_row(row: &[Option<u32>], count: u32) -> bool
    ensures { IsTrue result ↔ IsRow count row.now }
{
    !row.is_empty() && are_below(row, count)
}

// Whether each row has a slot and each head is the root or below the number of rows.
fn are_rows(rows: &[Vec<Option<u32>>]) -> bool
    requires { length rows.now < 2 ^ 31 }
    ensures { IsTrue result ↔ All (IsRow (length rows.now)) (heads_of rows.now) }
{
    let count = rows.len() as u32;
    for row in rows {
        if !is_row(row, count) {
            return false;
        }
    }
    true
}

// Whether no number of a row is greater than the count.
fn are_at_most(row: &[u32], count: u32) -> bool
    ensures { IsTrue result ↔ All (λ x. x ≤ count) row.now }
{
    for x in row {
        if *x > count {
            return false;
        }
    }
    true
}

// Whether a row has a slot, and no number of it is greater than the count.
fn is_number_row(row: &[u32], count: u32) -> bool
    ensures { IsTrue result ↔ IsNumberRow count row.now }
{
    !row.is_empty() && are_at_most(row, count)
}

// Whether each row has a slot, and no number is greater than the number of rows.
fn are_head_numbers(rows: &RowList) -> bool
    ensures { IsTrue result ↔ AreHeadNumbers rows.now }
{
    let count = rows.count();
    for v in 0..count {
        if !is_number_row(rows.row(v), count) {
            return false;
        }
    }
    true
}
