ghost use Rattle.std.specs.Prelude.{◌≡◌, ◌<◌, ◌^◌, ◌+◌, ◌++◌, [], ◌∷◌, length, map, IfOk, OnOk, OnErr, IfNone, IfSome, OnSome};
ghost use Rattle.pop_model.specs.Places.{IsLeast};
ghost use Rattle.pop_rows.specs.FlatRows.{row_at};
ghost use Rattle.pop_rows.specs.RowList.{rows_between, AreEndToEnd};
ghost use Rattle.pop_rows.specs.PrefixSums.{running, IsTooHeavy, AreLight};

use crate::parts::part;
use crate::prefix_sums::accumulate;
use std::alloc::{AllocError, Global};
use std::marker::Model;

/// Rows of numbers in one array, added one after another at the end. Rows count from 0. There are
/// at most 2^32 - 1 rows and at most 2^32 - 1 numbers.
#[derive(Drop)]
pub struct RowList {
    // Row v has its numbers in `items` from starts[v] up to, but without, starts[v + 1]. The last
    // start is the end of `items`.
    starts: Vec<u32>,
    items: Vec<u32>,
}

impl Model for RowList {
    ghost use Rattle.std.specs.Prelude.{ℕ, List};
    ghost use Rattle.pop_rows.specs.RowList.{rows_between, AreEndToEnd};

    ghost Value = { List (List ℕ) };

    ghost view = { λ a. rows_between a.starts.items a.items.items };

    ghost invariant = { λ a. AreEndToEnd a.starts.items a.items.items };
}

impl RowList {
    /// No rows yet, but room for this many rows and numbers.
    pub fn with_room(alloc: Global, rows: usize, numbers: usize) -> Result<RowList, AllocError>
        ensures { IfOk result (λ list. list ≡ []) }
    {
        let places = rows.checked_add(1).ok_or(AllocError)?;
        let mut starts = Vec::with_capacity(alloc, places)?;
        starts.push(0)?;
        let items = Vec::with_capacity(alloc, numbers)?;
        Ok(RowList { starts, items })
    }

    /// Adds a row at the end. If there would be 2^32 rows or numbers, the result is `AllocError`.
    pub fn push_row(&mut self, row: &[u32]) -> Result<(), AllocError>
        ensures added { OnOk result (self.new ≡ self.old ++ row.now ∷ []) }
        ensures kept { OnErr result (self.new ≡ self.old) }
    {
        let Some(end) = next_end(&self.starts, &self.items, row.len()) else {
            return Err(AllocError);
        };
        // The start is pushed first, so that it can be taken back if the second step fails.
        self.starts.push(end)?;
        if self.items.extend_from_slice(row).is_err() {
            self.starts.pop();
            return Err(AllocError);
        }
        Ok(())
    }

    /// A copy of these rows.
    pub fn copy(&self, alloc: Global) -> Result<RowList, AllocError>
        ensures { IfOk result (λ list. list ≡ self.now) }
    {
        Ok(RowList {
            starts: Vec::from_slice(alloc, &self.starts)?,
            items: Vec::from_slice(alloc, &self.items)?,
        })
    }

    /// The number of rows.
    pub fn count(&self) -> u32
        ensures { result ≡ length self.now }
    {
        (self.starts.len() - 1) as u32
    }

    /// The numbers of row v. Rows count from 0.
    #[inline]
    pub fn row(&self, v: u32) -> &[u32]
        requires known { v < length self.now }
        ensures row { result.now ≡ row_at self.now v }
        ensures short { length result.now < 2 ^ 32 }
    {
        let place = v as usize;
        part(&self.items, self.starts[place], self.starts[place + 1])
    }

    /// Replaces each row by its running sums. If a sum exceeds 32 bits, it returns the first row
    /// with such a sum. The rows must not be used after that.
    pub fn accumulate(&mut self) -> Option<u32>
        ensures sums { IfNone result (self.new ≡ map (running 0) self.old) }
        ensures light { IfNone result (AreLight self.old) }
        ensures heavy { IfSome result (IsLeast (IsTooHeavy self.old)) }
    {
        accumulate_between(&self.starts, &mut self.items)
    }
}

// Replaces each row between these starts by its running sums.
fn accumulate_between(starts: &[u32], items: &mut [u32]) -> Option<u32>
    requires { AreEndToEnd starts.now items.old }
    ensures sums { IfNone result
        (rows_between starts.now items.new ≡ map (running 0) (rows_between starts.now items.old)) }
    ensures light { IfNone result (AreLight (rows_between starts.now items.old)) }
    ensures heavy { IfSome result (IsLeast (IsTooHeavy (rows_between starts.now items.old))) }
{
    for v in 0..starts.len() - 1 {
        let row = &mut items[starts[v] as usize..starts[v + 1] as usize];
        if !accumulate(row) {
            return Some(v as u32);
        }
    }
    None
}

// The end of the items after `more` of them are added. None if it or the number of starts exceeds
// 32 bits.
fn next_end(starts: &[u32], items: &[u32], more: usize) -> Option<u32>
    ensures end { IfSome result (λ end. end ≡ length items.now + more) }
    ensures few { OnSome result (length starts.now < 2 ^ 32) }
{
    u32::try_from(starts.len()).ok()?;
    u32::try_from(items.len().checked_add(more)?).ok()
}
