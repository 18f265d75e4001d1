//! Theorems about answers. The contract of each function states one. An answer is a status and an
//! output that the definitions allow for arguments, an input and watchers.
ghost use Rattle.answer_laws.specs.Laws.{OneAnswer, OneEndedAnswer, OneOutcome, OneLoggedAnswer, PausedExactly, SampleFinished};
ghost use Rattle.answer_laws.specs.ShownLogs.{OneShownLog, OneStoppedRun};
ghost use Rattle.answer_laws.specs.Shown.{SampleShown, ExhaustedShown};
ghost use Rattle.answer_laws.specs.Workers.{WorkersAgree};
ghost use Rattle.answer_laws.specs.Resumed.{ResumedAlike};
ghost use Rattle.answer_laws.specs.Unpaused.{ResumedUnpaused};
ghost use Rattle.answer_laws.specs.Stages.{GrownAlike, StagesAgree};
ghost use Rattle.answer_laws.specs.TallerAnswers.{TallerAnswers};
ghost use Rattle.answer_laws.specs.ExhaustedAnswers.{ExhaustedAnswers};
ghost use Rattle.answer_laws.specs.FirstSample.{FirstSample, FirstSampleOfWords};
ghost use Rattle.answer_laws.specs.BatchFront.{BatchFront};
ghost use Rattle.answer_laws.specs.RoundsLikeFormula.{RoundsLikeFormula};
ghost use Rattle.answer_laws.specs.ResampleLikeFormula.{ResampleLikeFormula};
ghost use Rattle.answer_laws.specs.SameReading.{SameReading};
ghost use Rattle.answer_laws.specs.Complete.{Complete};
ghost use Rattle.answer_laws.specs.ExactAnswers.{AskedRows, ExchangedAnswers, ReachedAnswers};
ghost use Rattle.answer_laws.specs.OtherRows.{AskedOthers};
ghost use Rattle.answer_laws.specs.SameLines.{SameLines};
ghost use Rattle.answer_laws.specs.EverySample.{EveryAssignment, EveryOrientation, EveryTree};

/// Arguments without `--pops` and an input have at most one answer, for watchers that report
/// alike. If they start or resume a resampling, its events must be extremal. So for such arguments
/// the contract of `run` determines the result, unless a device or memory fails.
pub fn one_answer()
    ensures { OneAnswer }
{}

/// Arguments with `--pops` and an input have at most one answer without a certificate. This also
/// holds for a resampling, if all orders of its pops lead to one end.
pub fn one_ended_answer()
    ensures { OneEndedAnswer }
{}

/// Arguments and an input have at most one outcome. Two things are free: the pops of a resampling,
/// also if it is resumed, and the pops up to a pause. In these cases each outcome is a run of the
/// same instance to an end or to a pause, with its log.
pub fn one_outcome()
    ensures { OneOutcome }
{}

/// Arguments, watchers and an input have at most one answer that shows a given log, byte for byte.
/// In a resampling only the order of pops is free, and in a run that is stopped only its pops are.
pub fn one_logged_answer()
    ensures { OneLoggedAnswer }
{}

/// An output shows one log. If two answers for the same arguments, watchers and input are the same
/// bytes, they show the same log: the same records in the same layers. A resampling always shows
/// the log of its run, so its output determines the layered order of its pops.
pub fn one_shown_log()
    ensures { OneShownLog }
{}

/// A certificate that `--pops` writes is that of one run. Suppose that the answers for two lists
/// of arguments and two inputs are the same bytes. Then both runs have the same input and the same
/// instance, and popped the same records in the same layers. So they reached the same cursors,
/// after as many pops.
pub fn one_stopped_run()
    ensures { OneStoppedRun }
{}

/// A run with `--pops` is answered by a certificate, with status 10, exactly if every run to an
/// end has more pops. For a resampling the events must be extremal.
pub fn paused_exactly()
    ensures { PausedExactly }
{}

/// At the end of a run with status 0 no event occurs. So the sample satisfies each clause, leaves
/// no vertex a sink, or is a tree with arrows that lead to the root
/// (`cycle_popping::laws::tree_end`).
pub fn sample_finished()
    ensures { SampleFinished }
{}

/// The meaning of an output with status 0. It shows one of these:
///
/// - for a formula, an assignment with literals that satisfy each clause;
/// - for a graph, an orientation with an arrow that leaves each vertex, or a spanning tree with
///   arrows that lead to the root;
/// - for a grid that is made, the sum over such a tree.
///
/// If a number of samples is requested, it shows this many, each after its number.
pub fn sample_shown()
    ensures { SampleShown }
{}

/// The meaning of an output with status 1. It shows the clauses that are false, the vertices that
/// no arrow leaves, or the cycles of the arrows. These are at the values of the stacks at the
/// printed cursors. For a grid that is made it shows the number of cycles. If a number of samples
/// is requested, it shows this for some of them, and a sample for each of the others.
pub fn exhausted_shown()
    ensures { ExhaustedShown }
{}

/// Arguments without `--pops` that differ only in `--workers` and `--board` have at most one
/// answer for an input, for watchers that report alike. If they start or resume a resampling, its
/// events must be extremal: otherwise the sample may differ. So unless a device or memory fails,
/// they have the same result for any number of workers, on either board.
pub fn workers_agree()
    ensures { WorkersAgree }
{}

/// If `replay` accepts a certificate, each answer of `resume` to it, with any crew, is an answer
/// to the line of the certificate. That line has its command, stacks, height and root, and the
/// input is that of the certificate. So for `formula`, `orient` and `tree` it is the one answer of
/// that line (`one_answer`).
pub fn resumed_alike()
    ensures { ResumedAlike }
{}

/// A run that is paused and resumed is like one that is not paused. Suppose that arguments with
/// `--pops` are answered by a certificate, with status 10, and that the certificate and its log
/// are within their limits. Then each answer of `resume` to the certificate is an answer to the
/// arguments without `--pops`, for the same input.
pub fn resumed_unpaused()
    ensures { ResumedUnpaused }
{}

/// Arguments with `--height H --grow T` have the same answers as those with `--height T` instead,
/// with any watchers and any input. This also holds for a resampling: no answer shows that its run
/// was made in stages.
pub fn grown_alike()
    ensures { GrownAlike }
{}

/// Arguments that differ only in `--height` and `--grow` have the same answers if their stacks
/// have the same last height. An example is `--height H --grow T` and `--height T`.
pub fn stages_agree()
    ensures { StagesAgree }
{}

/// Suppose that a number of samples is requested and the answer is not an error. Then the output
/// begins with the lines of the batch and of sample 0. After these it continues with the answer to
/// the same job without the number.
pub fn first_sample()
    ensures { FirstSample }
{}

/// The answer to arguments with `--count` continues, after the lines of the batch and of sample 0,
/// with an answer to the arguments without it.
pub fn first_sample_of_words()
    ensures { FirstSampleOfWords }
{}

/// A batch begins with each smaller batch of the same job. After the lines with the number of
/// samples, the output of the larger batch begins with that of the smaller one. So sample j does
/// not depend on how many samples are requested.
pub fn batch_front()
    ensures { BatchFront }
{}

/// If an answer of `formula`, `orient`, `tree` or `make` under a key has status 0, it is a sample
/// or a batch. It is also the answer with each greater height, byte for byte. So if stacks were
/// exhausted, a retry with taller stacks changes no sample.
pub fn taller_answers()
    ensures { TallerAnswers }
{}

/// An end of `formula`, `orient`, `tree` or `make` has status 1 exactly if no legal log within the
/// heights of the stacks leads to a sample. A batch has status 1 exactly if this holds for some
/// sample.
pub fn exhausted_answers()
    ensures { ExhaustedAnswers }
{}

/// If `formula` is answered by a sample or an exhausted end, its events are extremal, and `rounds`
/// has the same status over stacks from the same source. For a sample the two outputs are equal up
/// to the line `used`; after it one prints the pops and the other the rounds. If exhausted, each
/// has its own cursors.
pub fn rounds_like_formula()
    ensures { RoundsLikeFormula }
{}

/// The status of an answer is 0 or 1, or 10 if the run may be stopped by `--pops`, if all of the
/// following hold:
///
/// - the arguments are a command line;
/// - the input is in its grammar and within the limits, and the structure of the graph is valid;
/// - a batch has no more samples than are allowed;
/// - the stacks have no fault;
/// - the events are extremal, if the command requires it;
/// - for a resampling, the requested witness exists.
pub fn complete()
    ensures { Complete }
{}

/// If arguments with given rows are answered by a sample, its values can be replaced by those of
/// any other sample. The new rows are then answered by that sample, with the same cursors and as
/// many pops. The requested log, witness and reports are the same too.
pub fn exchanged_answers()
    ensures { ExchangedAnswers }
{}

/// Each sample of `formula`, `orient`, `tree` or `make` is the answer to some rows, of any
/// heights.
pub fn reached_answers()
    ensures { ReachedAnswers }
{}

/// Rows can be given by arguments for `formula`, `orient`, `tree`, `make` or `rounds`, with no
/// option except a root or a side, exactly if they are within the limits of arguments. These are
/// at most 2^22 rows, at most 2^20 numbers in all rows together, and numbers of 32 bits; and not
/// exactly one empty row. So the rows of a sample (`reached_answers`, `reached_round_answers`) can
/// be given if they are within these limits.
pub fn asked_rows()
    ensures { AskedRows }
{}

/// Words that ask for rows, with any options, may ask for any other rows within these limits instead, and
/// for no others: all else that the job says stays.
pub fn asked_others()
    ensures { AskedOthers }
{}

/// Samples, in the words of formulas and graphs: each assignment that satisfies a formula, each
/// orientation of a graph that leaves no vertex a sink, and each spanning tree with its arrows to
/// the root. So each of these is an answer (`reached_answers`).
pub fn every_sample()
    ensures assignments { EveryAssignment }
    ensures orientations { EveryOrientation }
    ensures trees { EveryTree }
{}

/// If `formula` with its log is answered by a sample or an exhausted end, `resample` prints the
/// same bytes. Its status is the same, or 6 if the requested witness does not exist. It has no
/// other answer (`one_answer`), so its sample has the distribution of that of `formula`.
pub fn resample_like_formula()
    ensures { ResampleLikeFormula }
{}

/// An answer to an input that is not an error is also an answer to each other input that is read
/// as the same formula or graph. So comments, white space and line ends have no effect, except in
/// certificates, which contain the input.
pub fn same_reading()
    ensures { SameReading }
{}

/// Texts that say the same are read as the same formula or graph. Comments and empty lines, blanks between
/// words and carriage returns say nothing.
pub fn same_lines()
    ensures { SameLines }
{}
