ghost use Rattle.std.specs.Prelude.{◌≡◌, ◌<◌, ◌^◌, [], length, slice_index_or, All, IfOk};
ghost use Rattle.pop_model.specs.Cycles.{head_of};
ghost use Rattle.pop_instance.specs.KeptHeads.{heads_kept};

use crate::shifted_rows::ShiftedRows;
use pop_rows::{RowList, copy_lists};
use std::alloc::{AllocError, Global};

// The three ways of storing the heads of all variables.
#[derive(Drop)]
pub(crate) enum KeptHeads {
    // A list for each variable.
    Nested(Vec<Vec<Option<u32>>>),
    // Numbers in one array. A number below the count of variables is a variable, and the count is
    // the root.
    Flat(RowList),
    // The same numbers as a few patterns.
    Shifted(ShiftedRows),
}

impl KeptHeads {
    // A copy of these heads.
    pub(crate) fn copy(&self, alloc: Global) -> Result<KeptHeads, AllocError>
        ensures { IfOk result (λ kept. heads_kept kept ≡ heads_kept self.now) }
    {
        match self {
            KeptHeads::Nested(rows) => {
                let rows = copy_lists(alloc, rows)?;
                Ok(KeptHeads::Nested(rows))
            }
            KeptHeads::Flat(rows) => {
                let rows = rows.copy(alloc)?;
                Ok(KeptHeads::Flat(rows))
            }
            KeptHeads::Shifted(rows) => {
                let rows = rows.copy(alloc)?;
                Ok(KeptHeads::Shifted(rows))
            }
        }
    }

    // The same heads as patterns, if they lie in one array and have few patterns.
    pub(crate) fn packed(self, alloc: Global) -> Result<KeptHeads, AllocError>
        ensures { IfOk result (λ kept. heads_kept kept ≡ heads_kept self) }
    {
        let KeptHeads::Flat(rows) = &self else {
            return Ok(self);
        };
        match ShiftedRows::of(alloc, rows) {
            Ok(None) => Ok(self),
            Ok(Some(rows)) => {
                drop(self);
                Ok(KeptHeads::Shifted(rows))
            }
            Err(error) => {
                drop(self);
                Err(error)
            }
        }
    }

    // The number of variables.
    #[inline]
    pub(crate) fn count(&self) -> u32
        requires { length (heads_kept self.now) < 2 ^ 31 }
        ensures { result ≡ length (heads_kept self.now) }
    {
        match self {
            KeptHeads::Nested(rows) => rows.len() as u32,
            KeptHeads::Flat(rows) => rows.count(),
            KeptHeads::Shifted(rows) => rows.count(),
        }
    }

    // The number of slots of a variable.
    #[inline]
    pub(crate) fn slots(&self, v: u32) -> u32
        requires known { v < length (heads_kept self.now) }
        requires short { All (λ row. length row < 2 ^ 31) (heads_kept self.now) }
        ensures { result ≡ length (slice_index_or (heads_kept self.now) v []) }
    {
        match self {
            KeptHeads::Nested(rows) => rows[v as usize].len() as u32,
            KeptHeads::Flat(rows) => rows.row(v).len() as u32,
            KeptHeads::Shifted(rows) => rows.row_len(v),
        }
    }

    // The head of a slot: a variable, or None for the root.
    #[inline]
    pub(crate) fn head(&self, v: u32, slot: u32) -> Option<u32>
        requires known { v < length (heads_kept self.now) }
        requires slot { slot < length (slice_index_or (heads_kept self.now) v []) }
        ensures { result ≡ head_of (heads_kept self.now) v slot }
    {
        match self {
            KeptHeads::Nested(rows) => rows[v as usize][slot as usize],
            KeptHeads::Flat(rows) => {
                let number = rows.row(v)[slot as usize];
                (number < rows.count()).then_some(number)
            }
            KeptHeads::Shifted(rows) => {
                let number = rows.number(v, slot);
                (number < rows.count()).then_some(number)
            }
        }
    }
}
