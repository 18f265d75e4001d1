//! The exact distribution of rounds, in terms of answers. The contract of each function states a
//! theorem.
//!
//! Partial rejection sampling by rounds samples exactly, whether or not clauses clash (Guo, Jerrum
//! and Liu 2019).
ghost use Rattle.answer_laws.specs.TallerAnswers.{TallerRoundAnswers};
ghost use Rattle.answer_laws.specs.RoundAnswers.{RoundOutputs, ExchangedRoundAnswers};
ghost use Rattle.answer_laws.specs.RoundAnswers.{ReachedRoundAnswers, SamplesSatisfy};

/// Arguments for `rounds` have an answer with status 0 exactly if they are answered by a
/// satisfying assignment of the formula. The output is the lines of that assignment.
pub fn round_outputs()
    ensures { RoundOutputs }
{}

/// If arguments for `rounds` with given rows are answered by an assignment, it can be replaced by
/// any satisfying assignment of the formula. The new rows are then answered by that one, after as
/// many rounds, at the same cursors. If the first assignment is put back, the result is the first
/// rows.
pub fn exchanged_round_answers()
    ensures { ExchangedRoundAnswers }
{}

/// Each satisfying assignment of the formula is the answer of `rounds` to some rows, of any
/// heights.
pub fn reached_round_answers()
    ensures { ReachedRoundAnswers }
{}

/// The samples of a formula's events are exactly its satisfying assignments.
pub fn samples_satisfy()
    ensures { SamplesSatisfy }
{}

/// An assignment that `rounds` prints under a key is also the answer with each greater height,
/// byte for byte.
pub fn taller_round_answers()
    ensures { TallerRoundAnswers }
{}
