ghost use Rattle.std.specs.Prelude.{◌≡◌, ◌<◌, ◌^◌, ℕ, List, length, map, replicate, All, OnOk, IfOk, IfErr, IfNone, IfSome};
ghost use Rattle.pop_model.specs.Stacks.{row_of};
ghost use Rattle.pop_model.specs.Places.{IsLeast};
ghost use Rattle.pop_rows.specs.PrefixSums.{running, IsTooHeavy, AreLight};
ghost use Rattle.pop_stacks.specs.Rows.{lists_of, AreShort};

use crate::prefix_sums::accumulate_rows;
use pop_rows::{Fronts, RowList, copy_lists};
use std::alloc::{AllocError, Global};
use std::marker::Model;

// The three ways of storing rows: an array for each row, one array for all, or prefixes of one
// list.
#[derive(Drop)]
enum KeptRows {
    Nested(Vec<Vec<u32>>),
    Flat(RowList),
    Front(Fronts),
}

/// A list of rows of numbers: fewer than 2^31 rows, each of fewer than 2^31 numbers.
#[derive(Drop)]
pub struct Rows {
    kept: KeptRows,
}

impl Model for Rows {
    ghost use Rattle.std.specs.Prelude.{ℕ, List};
    ghost use Rattle.pop_stacks.specs.Rows.{AreShort};
    ghost use Rattle.pop_stacks.specs.KeptRows.{rows_of};

    ghost Value = { List (List ℕ) };

    ghost view = { λ a. rows_of a.kept };

    ghost invariant = { λ a. AreShort (rows_of a.kept) };
}

impl Rows {
    /// These rows, stored as they are passed.
    pub fn of(rows: Vec<Vec<u32>>) -> Rows
        requires { AreShort (lists_of rows.items) }
        ensures { result ≡ lists_of rows.items }
    {
        Rows {
            kept: KeptRows::Nested(rows),
        }
    }

    /// These rows, stored in one array.
    pub fn flat(rows: RowList) -> Rows
        requires { AreShort rows }
        ensures { result ≡ rows }
    {
        Rows {
            kept: KeptRows::Flat(rows),
        }
    }

    /// Rows of ones with these lengths. They take the memory of the longest row.
    pub fn ones(alloc: Global, lengths: Vec<u32>) -> Result<Rows, AllocError>
        requires few { length lengths.items < 2 ^ 31 }
        requires short { All (λ n. n < 2 ^ 31) lengths.items }
        ensures { IfOk result (λ rows. rows ≡ map (λ n. replicate n 1) lengths.items) }
    {
        let ones = Fronts::ones(alloc, lengths)?;
        Ok(Rows {
            kept: KeptRows::Front(ones),
        })
    }

    /// The number of rows.
    pub fn count(&self) -> u32
        ensures count { result ≡ length self.now }
        ensures short { AreShort self.now }
    {
        match &self.kept {
            KeptRows::Nested(rows) => rows.len() as u32,
            KeptRows::Flat(rows) => rows.count(),
            KeptRows::Front(rows) => rows.count(),
        }
    }

    /// The numbers of row v. Rows count from 0.
    pub fn row(&self, v: u32) -> &[u32]
        requires { v < length self.now }
        ensures row { result.now ≡ row_of self.now v }
        ensures short { length result.now < 2 ^ 31 }
    {
        match &self.kept {
            KeptRows::Nested(rows) => &rows[v as usize],
            KeptRows::Flat(rows) => rows.row(v),
            KeptRows::Front(rows) => rows.row(v),
        }
    }

    /// A copy of these rows.
    pub fn copy(&self, alloc: Global) -> Result<Rows, AllocError>
        ensures { IfOk result (λ rows. rows ≡ self.now) }
    {
        match &self.kept {
            KeptRows::Nested(rows) => {
                let rows = copy_lists(alloc, rows)?;
                Ok(Rows::of(rows))
            }
            KeptRows::Flat(rows) => {
                let rows = rows.copy(alloc)?;
                Ok(Rows::flat(rows))
            }
            KeptRows::Front(rows) => {
                let rows = rows.copy(alloc)?;
                Ok(Rows {
                    kept: KeptRows::Front(rows),
                })
            }
        }
    }

    // The running sums of each row, made in place. If a sum exceeds 32 bits, the error is the
    // first row with such a sum.
    pub(crate) fn into_sums(self) -> Result<Rows, u32>
        ensures made { IfOk result (λ sums. sums ≡ map (running 0) self) }
        ensures light { OnOk result (AreLight self) }
        ensures heavy { IfErr result (IsLeast (IsTooHeavy self)) }
    {
        let Rows { mut kept } = self;
        if let Some(v) = kept.accumulate() {
            drop(kept);
            return Err(v);
        }
        Ok(Rows { kept })
    }
}

impl KeptRows {
    ghost use Rattle.pop_stacks.specs.KeptRows.{rows_of};

    // Replaces each row by its running sums. If a sum exceeds 32 bits, it returns the first row
    // with such a sum. The rows must not be used after that.
    fn accumulate(&mut self) -> Option<u32>
        requires { AreShort (rows_of self.old) }
        ensures sums { IfNone result (rows_of self.new ≡ map (running 0) (rows_of self.old)) }
        ensures light { IfNone result (AreLight (rows_of self.old)) }
        ensures heavy { IfSome result (IsLeast (IsTooHeavy (rows_of self.old))) }
    {
        match self {
            KeptRows::Nested(rows) => accumulate_rows(rows),
            KeptRows::Flat(rows) => rows.accumulate(),
            KeptRows::Front(rows) => rows.accumulate(),
        }
    }
}
