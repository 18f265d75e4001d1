ghost use Rattle.std.specs.Prelude.{◌<◌, ◌^◌, OnOk, IfErr};
ghost use Rattle.pop_model.specs.Stacks.{IsTable};

use crate::row_faults::{first_empty, first_too_large};
use crate::{Rows, StackFault, Weights};

/// The source of the entries.
#[derive(Drop)]
pub enum StackSpec {
    /// The ChaCha20 key stream of this key of 32 bytes (RFC 8439).
    Key([u8; 32]),
    /// Given rows: row v has the entries of variable v.
    Given(Rows),
}

impl StackSpec {
    ghost use Rattle.pop_stacks.specs.Tables.{origin_of, table_of};
    ghost use Rattle.pop_stacks.specs.Faults.{HasSoundRows, IsCause};

    // Rejects given rows that have a fault, and returns the first one.
    pub(crate) fn check(&self, weights: &Weights, height: u32) -> Result<(), StackFault>
        requires some { 0 < height }
        requires short { height < 2 ^ 31 }
        ensures table { OnOk result (IsTable (table_of self.now height weights.now)) }
        ensures rows { OnOk result (HasSoundRows (origin_of self.now height) weights.now) }
        ensures cause { IfErr result (IsCause (origin_of self.now height) weights.now) }
    {
        let count = weights.count();
        match self {
            StackSpec::Key(_) => Ok(()),
            StackSpec::Given(rows) => {
                if rows.count() != count {
                    return Err(StackFault::RowCount(rows.count(), count));
                }
                if let Some(v) = first_empty(rows) {
                    return Err(StackFault::EmptyRow(v));
                }
                if let Some((v, k)) = first_too_large(rows, weights) {
                    return Err(StackFault::ValueTooLarge(v, k));
                }
                Ok(())
            }
        }
    }
}
