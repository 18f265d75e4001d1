//! Rows of variables with two values, in one array.
ghost use Rattle.std.specs.Prelude.{◌≡◌, ◌⊎◌, ◌+◌, ◌*◌, ◌/◌, ◌<◌, ◌≤◌, ◌^◌, ℕ, length, slice_index, slice_set, OnOk, IfOk};
ghost use Rattle.pop_model.specs.Stacks.{height_of};
ghost use Rattle.pop_batch.specs.Parts.{CanStart};
ghost use Rattle.array_calls.specs.Draws.{given};
ghost use Rattle.array_calls.specs.Rows.{PutsRow, PutsWanted};
ghost use Rattle.array_calls.specs.RowSamples.{ends_of, instance_of, stops_of};
ghost use Rattle.array_calls.specs.Trees.{FitsWanted, WantsStops};
ghost use Rattle.array_calls.specs.Values.{AreOfPairs, LeavesRows, number_at, value_arrays};

use crate::counts::{given, less, put_counts};
use crate::row_end::RowEnd;
use crate::row_samples::RowSamples;
use pop_instance::Cursors;
use std::alloc::{AllocError, Global};

// Puts this many cursors.
fn put_cursors(count: u32, cursors: &Cursors, numbers: &mut [u32], at: usize)
    requires count { count ≤ length cursors.now }
    requires room { at + count ≤ length numbers.old }
    ensures { PutsRow at count (number_at cursors.now) numbers.old numbers.new }
{
    for k in 0..count {
        numbers[at + k as usize] = cursors.get(k);
    }
}

// Puts this many cursors, if they are wanted.
fn put_wanted_cursors(count: u32, cursors: &Cursors, numbers: &mut [u32], at: usize)
    requires count { count ≤ length cursors.now }
    requires room { (length numbers.old ≡ 0) ⊎ (at + count ≤ length numbers.old) }
    ensures { PutsWanted at count (number_at cursors.now) numbers.old numbers.new }
{
    if !numbers.is_empty() {
        put_cursors(count, cursors, numbers, at);
    }
}

// Puts the end of a sample into its row of each array.
fn put_value_end(
    count: u32,
    end: &RowEnd,
    j: usize,
    values: &mut [u8],
    useds: &mut [u32],
    counts: &mut [u64],
)
    requires count { count ≤ length end.now.values }
    requires cursors { count ≤ length end.now.cursors }
    requires small { (v : ℕ) → v < count → slice_index end.now.values v < 256 }
    requires values { j * count + count ≤ length values.old }
    requires useds { (length useds.old ≡ 0) ⊎ (j * count + count ≤ length useds.old) }
    requires counts { 2 * j + 1 < length counts.old }
    ensures values { PutsRow (j * count) count (number_at end.now.values) values.old values.new }
    ensures useds { PutsWanted (j * count) count (number_at end.now.cursors) useds.old useds.new }
    ensures counts { counts.new ≡ slice_set (slice_set counts.old (2 * j) end.now.pops)
        (2 * j + 1) (length end.now.stuck) }
{
    let at = j * count as usize;
    end.put_values(count, values, at);
    put_wanted_cursors(count, end.cursors(), useds, at);
    put_counts(end.pops(), end.stuck(), j, counts);
}

// Puts the state at which a sample was stopped into its row of cursors and of counts.
fn put_value_stop(count: u32, stop: &RowEnd, j: usize, useds: &mut [u32], counts: &mut [u64])
    requires cursors { count ≤ length stop.now.cursors }
    requires useds { j * count + count ≤ length useds.old }
    requires counts { 2 * j + 1 < length counts.old }
    ensures useds { PutsRow (j * count) count (number_at stop.now.cursors) useds.old useds.new }
    ensures counts { counts.new ≡ slice_set (slice_set counts.old (2 * j) stop.now.pops)
        (2 * j + 1) (length stop.now.stuck) }
{
    put_cursors(count, stop.cursors(), useds, j * count as usize);
    put_counts(stop.pops(), stop.stuck(), j, counts);
}

/// Puts samples of this many variables into the rows of the arrays, until the budget is spent.
/// There is one row for each pair of counts. The result is the row at which the budget was spent.
pub(crate) fn put_value_samples(
    alloc: Global,
    count: u32,
    samples: &RowSamples,
    first: u32,
    from: &[u32],
    budget: u64,
    values: &mut [u8],
    useds: &mut [u32],
    counts: &mut [u64],
) -> Result<Option<usize>, AllocError>
    requires pairs { AreOfPairs count (instance_of samples.now).stacks }
    requires tall { (v : ℕ) → 0 < height_of (instance_of samples.now).stacks v }
    requires last { first + length counts.old / 2 ≤ 2 ^ 32 }
    requires start { CanStart (instance_of samples.now) (given from.now 0) }
    requires values { length values.old ≡ length counts.old / 2 * count }
    requires useds { FitsWanted count (length counts.old / 2) useds.old }
    requires stops { WantsStops budget count (length counts.old / 2) useds.old }
    ensures leaves { IfOk result (LeavesRows (ends_of samples.now) (stops_of samples.now) count
        first from.now budget (length counts.old / 2) (value_arrays values.old useds.old counts.old)
        (value_arrays values.new useds.new counts.new)) }
    ensures size { OnOk result (length counts.new ≡ length counts.old) }
{
    let mut left = budget;
    for j in 0..counts.len() / 2 {
        let start = given(alloc, from, j)?;
        let part = samples.run_part(alloc, count, first + j as u32, start, left)?;
        if part.is_open {
            put_value_stop(count, &part.at, j, useds, counts);
            return Ok(Some(j));
        }
        put_value_end(count, &part.at, j, values, useds, counts);
        left = less(left, part.at.pops());
    }
    Ok(None)
}
