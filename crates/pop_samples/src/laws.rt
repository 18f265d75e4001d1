//! Theorems about exact samples. The contract of each function states one.
//!
//! They count rows, and do not mention probabilities. They say that the end of a run has the
//! distribution of the samples. Propp and Wilson (1998) prove this for spanning trees, and Guo,
//! Jerrum and Liu (2019) for extremal instances.

ghost use Rattle.pop_samples.specs.Laws.{SamePops, FinishesExactly, FinishesFirst};
ghost use Rattle.pop_samples.specs.ExactLaws.{ExchangedSamples, ExchangedEnds};
ghost use Rattle.pop_samples.specs.ExactLaws.{ExactSamples, ExactSamplesAt};
ghost use Rattle.pop_samples.specs.ExactLaws.{ListedSamples, ListedSamplesAt, ReachedSamples};
ghost use Rattle.pop_samples.specs.Shares.{EntryShares, NumberedEntries};

/// A log that finishes an extremal instance at some cursors also finishes other stacks there.
/// These stacks must have the same entries below the cursors, and entries at the cursors with
/// which no event occurs.
pub fn same_pops()
    ensures { SamePops }
{}

/// Stacks that have the same entries below the cursors at which a log finishes are finished there
/// exactly if their values there are a sample.
pub fn finishes_exactly()
    ensures { FinishesExactly }
{}

/// Some log finishes an extremal instance at given cursors exactly if its one-thread run ends
/// there with no event stuck.
pub fn finishes_first()
    ensures { FinishesFirst }
{}

/// If rows finish with a sample, it can be replaced by any other sample. The new rows finish with
/// that one, at the same cursors and by the same logs. If the first sample is put back, the result
/// is the first rows.
pub fn exchanged_samples()
    ensures { ExchangedSamples }
{}

/// If the one-thread run of rows over an extremal family ends with no event stuck, the entries
/// there can be replaced by any sample. The run of the new rows ends at the same cursors, after as
/// many pops, with that sample.
pub fn exchanged_ends()
    ensures { ExchangedEnds }
{}

/// Of all rows of given heights over an extremal family, as many finish with one sample as with
/// another. The total weights of these two sets of rows are in the ratio of the samples' weights.
pub fn exact_samples()
    ensures { ExactSamples }
{}

/// Consider all rows of given heights that some log finishes at given cursors. As many of them
/// finish with one sample as with another, and their total weights are in the ratio of the
/// samples' weights. This holds for every family, even if events clash.
pub fn exact_samples_at()
    ensures { ExactSamplesAt }
{}

/// There are finitely many rows of given heights over an extremal family that finish with a given
/// sample.
pub fn listed_samples()
    ensures { ListedSamples }
{}

/// There are finitely many rows of given heights that finish with a given sample at given cursors,
/// for every family.
pub fn listed_samples_at()
    ensures { ListedSamplesAt }
{}

/// For each sample there are rows of given heights that finish with it before any pop.
pub fn reached_samples()
    ensures { ReachedSamples }
{}

/// An entry of a key is made from one of 2^64 numbers. The number of those that select a given
/// value is 2^64 times its weight over the sum of the weights. This is exact if the sum divides
/// 2^64, and otherwise holds to within 1.
pub fn entry_shares()
    ensures { EntryShares }
{}

/// The number of an entry of a key is one of the 2^64, and it selects the value of the entry.
pub fn numbered_entries()
    ensures { NumberedEntries }
{}
