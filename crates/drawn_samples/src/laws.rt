//! Theorems about the distribution of samples. The contract of each function states one. A
//! weighting by shares counts each sample with the product of the shares of its values.

ghost use Rattle.drawn_samples.specs.Laws.{DrawnSamples, DrawnSamplesAt};
ghost use Rattle.drawn_samples.specs.Laws.{DrawnRounds, DrawnRoundsBy};
ghost use Rattle.drawn_samples.specs.WhereLaws.{WantedRuns, WantedRounds};
ghost use Rattle.drawn_samples.specs.WhereLaws.{TallerRuns, TallerRounds};
ghost use Rattle.drawn_samples.specs.WhereLaws.{KeyedWantedRuns, KeyedWantedRounds};
ghost use Rattle.drawn_samples.specs.Mixed.{MixedRuns, MixedRounds, KeyedMixed};
ghost use Rattle.drawn_samples.specs.Grown.{GrownRuns, MayEnd};
ghost use Rattle.drawn_samples.specs.Retried.{RetriedRuns, RetriedRounds};
ghost use Rattle.drawn_samples.specs.Statistics.{RunStatistics, RoundStatistics};
ghost use Rattle.drawn_samples.specs.WholeRuns.{RunNumbers, DrawnByLogs, IndependentOfLogs};

/// Consider all tables of numbers with one-thread runs that end with a sample. The fraction of
/// them that end with a sample of some set is the fraction of that set among all samples, weighted
/// by shares. The family must be extremal.
pub fn drawn_samples()
    ensures { DrawnSamples }
{}

/// The theorem of `drawn_samples` holds for the tables with rows that some log finishes at given
/// cursors, for every family.
pub fn drawn_samples_at()
    ensures { DrawnSamplesAt }
{}

/// The theorem of `drawn_samples` holds for the tables that rounds finish, for any listed events.
pub fn drawn_rounds()
    ensures { DrawnRounds }
{}

/// The theorem of `drawn_samples` holds for the tables that a given number of rounds finish at
/// given cursors, for any listed events.
pub fn drawn_rounds_by()
    ensures { DrawnRoundsBy }
{}

/// The theorem of `drawn_samples` holds for the tables with one-thread runs that have an accepted
/// log, for any condition on the log. So if runs are given up after a number of pops, the
/// distribution of the others is unchanged. The family must be extremal.
pub fn wanted_runs()
    ensures { WantedRuns }
{}

/// The theorem of `wanted_runs` holds for rounds, for any condition on the cursors at the end and
/// on the number of rounds.
pub fn wanted_rounds()
    ensures { WantedRounds }
{}

/// A one-thread run that ends with no event stuck has the same log and the same values on all
/// taller stacks.
pub fn taller_runs()
    ensures { TallerRuns }
{}

/// Rounds that finish at cursors finish there on all taller stacks, after as many rounds and with
/// the same values.
pub fn taller_rounds()
    ensures { TallerRounds }
{}

/// The one-thread run of a key's stacks ends with a sample by an accepted log exactly if the table
/// of the key's numbers is counted for this sample.
pub fn keyed_wanted_runs()
    ensures { KeyedWantedRuns }
{}

/// The run by rounds of a key's stacks ends with a sample and is accepted exactly if the table of
/// the key's numbers is counted for this sample.
pub fn keyed_wanted_rounds()
    ensures { KeyedWantedRounds }
{}

/// Count the tables that finish by the records of a given log with a given sample. The count is a
/// product: of the shares of the values that the records demand, of the shares of the sample's
/// values, and of 2^64 for each entry that is not read. This holds for every family, even if
/// events clash.
pub fn run_numbers()
    ensures { RunNumbers }
{}

/// For every log, the tables that finish by it with a given sample are a fraction of those that
/// finish by it. This fraction is the weight of the sample by shares over that of all samples.
pub fn drawn_by_logs()
    ensures { DrawnByLogs }
{}

/// If the family is extremal, the sample of a table that finishes does not depend on the log of
/// its pops.
pub fn independent_of_logs()
    ensures { IndependentOfLogs }
{}

/// Consider batches in which certain runs end with samples, and the others with none. For two
/// choices of the samples, the numbers of such batches are in the ratio of the products of their
/// shares. So whichever runs of a batch are exhausted, the distribution of the others is
/// unchanged.
pub fn mixed_runs()
    ensures { MixedRuns }
{}

/// The theorem of `mixed_runs` holds for batches of rounds.
pub fn mixed_rounds()
    ensures { MixedRounds }
{}

/// The ends that `pop_batch` returns for a batch under a key are those of the key's own tables,
/// whether or not each has a sample.
pub fn keyed_mixed()
    ensures { KeyedMixed }
{}

/// Retrying is unbiased. Consider tries with their own tables, of any heights. The first try is
/// kept that ends with a sample by a log that is accepted for this try. The kept sample has the
/// distribution of the sample of one run.
pub fn retried_runs()
    ensures { RetriedRuns }
{}

/// The theorem of `retried_runs` holds for rounds, for any listed events.
pub fn retried_rounds()
    ensures { RetriedRounds }
{}

/// Trying again over the same numbers is unbiased too: with greater heights, or with other logs that are
/// wanted, as more pops. What is kept draws from all samples, and a sample of a try is that of each try
/// with greater heights.
pub fn grown_runs()
    ensures { GrownRuns }
{}

/// Rows of any heights are the first entries of taller ones of which a run ends with a sample, if there is
/// one. So an exhausted run may end with a sample at a greater height, whatever its entries are.
pub fn may_end()
    ensures { MayEnd }
{}

/// Each value of a function of samples is drawn by the shares of the samples that have it.
pub fn run_statistics()
    ensures { RunStatistics }
{}

/// The theorem of `run_statistics` holds for rounds.
pub fn round_statistics()
    ensures { RoundStatistics }
{}
