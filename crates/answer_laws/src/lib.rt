//! Theorems about answers: what the definition of answers of the top call means in terms of
//! outputs, formulas and graphs. No code runs: the theorems are the contracts of functions with an
//! empty body.
#![tactic(auto)]

mod key_laws;
mod laws;
mod print_laws;
mod round_laws;

pub use key_laws::{
    keyed_answers, keyed_round_answers, mixed_answers, retried_answers, statistic_answers,
    stopped_answers,
};
pub use laws::{
    asked_others, asked_rows, batch_front, complete, every_sample, exchanged_answers,
    exhausted_answers, exhausted_shown, first_sample, first_sample_of_words, grown_alike,
    one_answer, one_ended_answer, one_logged_answer, one_outcome, one_shown_log, one_stopped_run,
    paused_exactly, reached_answers, resample_like_formula, resumed_alike, resumed_unpaused,
    rounds_like_formula, same_lines, same_reading, sample_finished, sample_shown, stages_agree,
    taller_answers, workers_agree,
};
pub use print_laws::{
    every_spanning_tree, exact_outputs, exact_round_outputs, listed_outputs, listed_round_outputs,
    printed_apart,
};
pub use round_laws::{
    exchanged_round_answers, reached_round_answers, round_outputs, samples_satisfy,
    taller_round_answers,
};
