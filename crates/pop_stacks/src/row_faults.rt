ghost use Rattle.std.specs.Prelude.{◌≡◌, ◌<◌, ◌≤◌, ◌^◌, length, slice_index, All, IfNone, IfSome};
ghost use Rattle.pop_model.specs.Places.{IsLeast, IsLeastPair};
ghost use Rattle.pop_stacks.specs.Faults.{HaveEntries, HaveValues, IsEmptyRow, IsTooLarge};

use crate::{Rows, Weights};

/// The first row without an entry.
pub fn first_empty(rows: &Rows) -> Option<u32>
    ensures none { IfNone result (HaveEntries rows.now) }
    ensures found { IfSome result (IsLeast (IsEmptyRow rows.now)) }
{
    for v in 0..rows.count() {
        if rows.row(v).is_empty() {
            return Some(v);
        }
    }
    None
}

// The first place of a number that is not below the limit.
fn first_at_least(row: &[u32], limit: u32) -> Option<u32>
    requires { length row.now < 2 ^ 31 }
    ensures none { IfNone result (All (λ x. x < limit) row.now) }
    ensures found { IfSome result
        (IsLeast (λ k. (k < length row.now) × (limit ≤ slice_index row.now k))) }
{
    for (k, x) in row.iter().enumerate() {
        if *x >= limit {
            return Some(k as u32);
        }
    }
    None
}

/// The first row with an entry that is not a value of its variable, and the first such entry in
/// it.
pub fn first_too_large(rows: &Rows, weights: &Weights) -> Option<(u32, u32)>
    requires { length rows.now ≡ length weights.now }
    ensures none { IfNone result (HaveValues rows.now weights.now) }
    ensures found { IfSome result
        (λ place. IsLeastPair (IsTooLarge rows.now weights.now) place.0 place.1) }
{
    for v in 0..rows.count() {
        if let Some(k) = first_at_least(rows.row(v), weights.slots(v)) {
            return Some((v, k));
        }
    }
    None
}
