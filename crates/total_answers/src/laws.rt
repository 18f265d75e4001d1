//! Theorems of totality. Each is the contract of a function.

ghost use Rattle.total_answers.specs.Totality.{AlwaysAnswered, ValidAnswered};

/// Every line has an answer: all arguments, watchers and texts have a status and an output. So if
/// neither a device nor memory fails, there always is an answer that `run` can give.
pub fn every_line_is_answered()
    ensures { AlwaysAnswered }
{}

/// Valid input has an answer, with status 0 or 1, or with 10 if it was stopped or is replayed. If a
/// witness is asked for, the status may also be 6, since its pop may not exist. Input is valid if
/// none of the errors of `complete` (`answer_laws`) applies to it.
pub fn valid_input_is_answered()
    ensures { ValidAnswered }
{}
