ghost use Rattle.std.specs.Prelude.{◌≡◌, ◌<◌, ◌≤◌, ◌+◌, ◌^◌, ℕ, length, map, replicate, slice_index, sum, take, All, IfOk, IfNone, IfSome, OnSome};
ghost use Rattle.pop_model.specs.Places.{IsLeast};
ghost use Rattle.pop_rows.specs.FlatRows.{row_at};
ghost use Rattle.pop_rows.specs.PrefixSums.{running, IsTooHeavy, AreLight};

use crate::parts::part;
use crate::prefix_sums::accumulate;
use std::alloc::{AllocError, Global};
use std::marker::Model;

/// Rows that are prefixes of one list, such as rows of equal numbers. Rows count from 0; there are
/// at most 2^32 - 1.
#[derive(Drop)]
pub struct Fronts {
    // Row v has the first lengths[v] numbers of the list.
    lengths: Vec<u32>,
    list: Vec<u32>,
}

impl Model for Fronts {
    ghost use Rattle.std.specs.Prelude.{ℕ, List};
    ghost use Rattle.pop_rows.specs.Fronts.{fronts_of, AreFronts};

    ghost Value = { List (List ℕ) };

    ghost view = { λ a. fronts_of a.lengths.items a.list.items };

    ghost invariant = { λ a. AreFronts a.lengths.items a.list.items };
}

impl Fronts {
    /// Rows of ones with these lengths. They take the memory of the longest row.
    pub fn ones(alloc: Global, lengths: Vec<u32>) -> Result<Fronts, AllocError>
        requires { length lengths.items < 2 ^ 32 }
        ensures { IfOk result (λ rows. rows ≡ map (λ n. replicate n 1) lengths.items) }
    {
        let list = vec![in alloc; 1; greatest(&lengths) as usize]?;
        Ok(Fronts { lengths, list })
    }

    /// A copy of these rows.
    pub fn copy(&self, alloc: Global) -> Result<Fronts, AllocError>
        ensures { IfOk result (λ rows. rows ≡ self.now) }
    {
        Ok(Fronts {
            lengths: Vec::from_slice(alloc, &self.lengths)?,
            list: Vec::from_slice(alloc, &self.list)?,
        })
    }

    /// The number of rows.
    pub fn count(&self) -> u32
        ensures { result ≡ length self.now }
    {
        self.lengths.len() as u32
    }

    /// The numbers of row v. Rows count from 0.
    #[inline]
    pub fn row(&self, v: u32) -> &[u32]
        requires known { v < length self.now }
        ensures row { result.now ≡ row_at self.now v }
        ensures short { length result.now < 2 ^ 32 }
    {
        part(&self.list, 0, self.lengths[v as usize])
    }

    /// Replaces each row by its running sums. If a sum exceeds 32 bits, it returns the first row
    /// with such a sum and leaves the rows as they were.
    pub fn accumulate(&mut self) -> Option<u32>
        ensures sums { IfNone result (self.new ≡ map (running 0) self.old) }
        ensures light { IfNone result (AreLight self.old) }
        ensures heavy { IfSome result (IsLeast (IsTooHeavy self.old)) }
        ensures kept { OnSome result (self.new ≡ self.old) }
    {
        let light = light_front(&self.list);
        if let Some(v) = first_above(&self.lengths, light) {
            return Some(v);
        }
        // No row has numbers after the light front. The running sums of a prefix are a prefix of
        // the running sums.
        sum_front(&mut self.list, light);
        None
    }
}

// The largest of these numbers, or 0 if there are none.
fn greatest(numbers: &[u32]) -> u32
    ensures { All (λ n. n ≤ result) numbers.now }
{
    let mut most = 0;
    for n in numbers {
        most = most.max(*n);
    }
    most
}

// How many numbers from the start have a sum of at most 32 bits.
fn light_front(list: &[u32]) -> usize
    ensures within { result ≤ length list.now }
    ensures light { sum (take result list.now) < 2 ^ 32 }
    ensures most { result < length list.now → 2 ^ 32 ≤ sum (take (result + 1) list.now) }
{
    let mut total: u32 = 0;
    for (k, x) in list.iter().enumerate() {
        let Some(sum) = total.checked_add(*x) else {
            return k;
        };
        total = sum;
    }
    list.len()
}

// The first place of a number above the limit.
fn first_above(numbers: &[u32], limit: usize) -> Option<u32>
    requires { length numbers.now < 2 ^ 32 }
    ensures none { IfNone result (All (λ n. n ≤ limit) numbers.now) }
    ensures found { IfSome result
        (IsLeast (λ v. (v < length numbers.now) × (limit < slice_index numbers.now v))) }
{
    for (v, n) in numbers.iter().enumerate() {
        if *n as usize > limit {
            return Some(v as u32);
        }
    }
    None
}

// Replaces the first `count` numbers by their running sums, and drops the others.
fn sum_front(list: &mut Vec<u32>, count: usize)
    requires within { count ≤ length list.old.items }
    requires light { sum (take count list.old.items) < 2 ^ 32 }
    ensures { list.new.items ≡ running 0 (take count list.old.items) }
{
    list.truncate(count);
    accumulate(list);
}
