ghost use Rattle.std.specs.Prelude.{◌≡◌, ◌<◌, ◌↔◌, ℕ, IfOk, IsTrue};
ghost use Rattle.pop_model.specs.Stacks.{height_of, variables_of};
ghost use Rattle.pop_batch.specs.Parts.{CanStart, start_at};
ghost use Rattle.array_calls.specs.RowSamples.{IsRowPart, IsStopped, instance_of};
ghost use Rattle.array_calls.specs.declared.row_samples.RowSamples.TheVariants.{ByPopping, ByRounds};
ghost use Rattle.array_calls.specs.Values.{AreOfPairs};

use crate::row_end::RowEnd;
use crate::row_part::RowPart;
use pop_batch::Samples;
use pop_instance::Cursors;
use prs_rounds::{RoundEnd, RoundSamples};
use std::alloc::{AllocError, Global};

/// The samples of rows for listed events. They are run by popping or by rounds.
#[derive(Drop)]
pub(crate) enum RowSamples<'i> {
    ByPopping(Samples<'i>),
    ByRounds(RoundSamples<'i>),
}

impl<'i> RowSamples<'i> {
    /// The run of sample j from these cursors, or from its beginning if there are none. It goes to
    /// its end, or up to this many pops or rounds. The sample has `count` variables.
    pub(crate) fn run_part(
        &self,
        alloc: Global,
        count: u32,
        j: u32,
        from: Option<Cursors>,
        limit: u64,
    ) -> Result<RowPart, AllocError>
        requires pairs { AreOfPairs count (instance_of self.now).stacks }
        requires tall { (v : ℕ) → 0 < height_of (instance_of self.now).stacks v }
        requires start { CanStart (instance_of self.now) from }
        ensures { IfOk result (IsRowPart self.now j from limit) }
    {
        match self {
            RowSamples::ByPopping(samples) => popped_part(alloc, samples, j, from, limit),
            RowSamples::ByRounds(samples) => rounded_part(alloc, count, samples, j, from, limit),
        }
    }
}

// The run of sample j by popping.
fn popped_part(
    alloc: Global,
    samples: &Samples,
    j: u32,
    from: Option<Cursors>,
    limit: u64,
) -> Result<RowPart, AllocError>
    requires start { CanStart samples.now from }
    ensures { IfOk result (IsRowPart (ByPopping samples.now) j from limit) }
{
    let part = samples.run_part(alloc, j, from, limit)?;
    Ok(RowPart {
        at: RowEnd::popped(part.at),
        is_open: part.is_open,
    })
}

// The cursors at which a sample by rounds begins.
fn first_cursors(
    alloc: Global,
    count: u32,
    samples: &RoundSamples,
    from: Option<Cursors>,
) -> Result<Cursors, AllocError>
    requires count { variables_of samples.now.stacks ≡ count }
    ensures { IfOk result (λ cursors. cursors ≡ start_at samples.now from) }
{
    match from {
        Some(cursors) => Ok(cursors),
        None => Cursors::zeros(alloc, count),
    }
}

// Whether a run by rounds stopped before its end.
fn has_stopped(end: &RoundEnd) -> bool
    ensures { IsTrue result ↔ IsStopped end.now.short end.now.stuck }
{
    match end.short {
        Some(_) => false,
        None => end.stuck.len() > 0,
    }
}

// The run of sample j by rounds. It is open if this many rounds were made and events occur, also if
// no further round can be made.
fn rounded_part(
    alloc: Global,
    count: u32,
    samples: &RoundSamples,
    j: u32,
    from: Option<Cursors>,
    limit: u64,
) -> Result<RowPart, AllocError>
    requires pairs { AreOfPairs count samples.now.stacks }
    requires tall { (v : ℕ) → 0 < height_of samples.now.stacks v }
    requires start { CanStart samples.now from }
    ensures { IfOk result (IsRowPart (ByRounds samples.now) j from limit) }
{
    let start = first_cursors(alloc, count, samples, from)?;
    let end = samples.run_from(alloc, j, start, limit)?;
    let is_open = has_stopped(&end);
    Ok(RowPart {
        at: RowEnd::rounded(end),
        is_open,
    })
}
