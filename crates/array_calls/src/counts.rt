//! The counts of rows, the budget, and the cursors at which rows start.
ghost use Rattle.std.specs.Prelude.{◌≡◌, ◌↔◌, ◌+◌, ◌*◌, ◌/◌, ◌<◌, ◌≤◌, length, slice_set, IsTrue, IfOk};
ghost use Rattle.array_calls.specs.Draws.{AreSamples, IsOutcome, given, less, stopped_at};

use crate::outcome::Outcome;
use pop_instance::Cursors;
use std::alloc::{AllocError, Global};

/// The cursors from which the sample of row j continues, if there are any. Only row 0 has them.
pub(crate) fn given(alloc: Global, from: &[u32], j: usize) -> Result<Option<Cursors>, AllocError>
    ensures { IfOk result (λ start. start ≡ given from.now j) }
{
    if j > 0 || from.is_empty() {
        return Ok(None);
    }
    Ok(Some(Cursors::of(Vec::from_slice(alloc, from)?)))
}

/// What is left of a budget after this many pops. The largest budget is no limit.
pub(crate) fn less(budget: u64, pops: u64) -> u64
    requires { pops ≤ budget }
    ensures { result ≡ less budget pops }
{
    if budget == u64::MAX {
        return budget;
    }
    budget - pops
}

/// Puts the pops or rounds of row j, and how many events occur there.
pub(crate) fn put_counts(pops: u64, stuck: u64, j: usize, counts: &mut [u64])
    requires { 2 * j + 1 < length counts.old }
    ensures { counts.new ≡ slice_set (slice_set counts.old (2 * j) pops) (2 * j + 1) stuck }
{
    counts[2 * j] = pops;
    counts[2 * j + 1] = stuck;
}

// Whether no event occurs in any of the counted rows.
fn are_samples(counts: &[u64]) -> bool
    ensures { IsTrue result ↔ AreSamples (length counts.now / 2) counts.now }
{
    for j in 0..counts.len() / 2 {
        if counts[2 * j + 1] != 0 {
            return false;
        }
    }
    true
}

/// The result of a call that stopped at this row, or at none.
pub(crate) fn outcome_of(stopped: Option<usize>, counts: &[u64]) -> Outcome
    ensures stopped { stopped_at result ≡ stopped }
    ensures outcome { IsOutcome counts.now result }
{
    if let Some(row) = stopped {
        return Outcome::Stopped(row);
    }
    if are_samples(counts) {
        Outcome::Samples
    } else {
        Outcome::Exhausted
    }
}
