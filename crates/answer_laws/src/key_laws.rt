//! Theorems about answers under a key. The contract of each function states one.
//!
//! They count tables of numbers, and do not mention probabilities. That the tables of random keys
//! cannot be distinguished from equally likely tables is what ChaCha20 is trusted for; it is not
//! proved.
ghost use Rattle.answer_laws.specs.KeyAnswers.{KeyedAnswers, KeyedRoundAnswers};
ghost use Rattle.answer_laws.specs.StatisticAnswers.{StatisticAnswers};
ghost use Rattle.answer_laws.specs.RetriedAnswers.{RetriedAnswers};
ghost use Rattle.answer_laws.specs.StoppedAnswers.{StoppedAnswers};
ghost use Rattle.answer_laws.specs.MixedAnswers.{MixedAnswers};

/// The answers of `formula`, `orient`, `tree` and `make` under a key with status 0 or 1 are drawn
/// exactly. Count the tables of numbers that the stacks' entries may be made from and that end
/// with a given sample. For two samples the counts are in the ratio of the shares of their values.
/// The answer is a sample exactly if the key's own table is one of those for this sample. For a
/// batch the counts are multiplied.
pub fn keyed_answers()
    ensures { KeyedAnswers }
{}

/// The theorem of `keyed_answers` holds for `rounds`, for every formula, whether or not its
/// clauses clash.
pub fn keyed_round_answers()
    ensures { KeyedRoundAnswers }
{}

/// Runs of `formula`, `orient`, `tree` and `make` under a key may be stopped after a number of
/// pops. The runs that end before that have the distribution of all runs. The answer is a sample
/// exactly if the key's table is one of those that end with it within this number of pops. The
/// numbers of these tables are in the ratio of the shares.
pub fn stopped_answers()
    ensures { StoppedAnswers }
{}

/// Trying again is unbiased. Of calls under other keys, with any heights and any limits of pops, keep the
/// first answer that is a sample. It is this one exactly if it is kept of the keys' own tables, and of all
/// tables what is kept draws from all samples as one run does.
pub fn retried_answers()
    ensures { RetriedAnswers }
{}

/// A batch under a key ends, sample by sample, as the key's own tables do; and whichever of its samples
/// are exhausted, the others are drawn as ever.
pub fn mixed_answers()
    ensures { MixedAnswers }
{}

/// Each value of a function of the sample under a key is drawn in proportion to the shares of the
/// samples with this value. An example of a function is the sum that `make` prints. This also
/// holds if the run may be stopped after a number of pops.
pub fn statistic_answers()
    ensures { StatisticAnswers }
{}
