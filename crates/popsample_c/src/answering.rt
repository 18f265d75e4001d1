//! The answer to arguments and an input in memory.
ghost use Rattle.std.specs.Prelude.{map, string_bytes, IfOk, IfSome, MatchOption};
ghost use Rattle.joined_words.specs.Joined.{AreNoWords};
ghost use Rattle.top_call.specs.Answers.{IsAnswer};
ghost use Rattle.told_runs.specs.Outcomes.{IsAnswerStatus};
ghost use Rattle.popsample_c.specs.Told.{IsTold, fresh_watchers};

use joined_words::words_of;
use pop_watch::{Heights, Layers, Totals, Watch};
use std::alloc::{AllocError, Global};
use top_call::{Answer, answer_alone};

// The answer to arguments and an input, with a watcher of each kind.
fn watched_answer(alloc: Global, words: &[String], text: &[u8]) -> Result<Answer, AllocError>
    ensures answer { IfOk result (λ a. IsAnswer (map string_bytes words.now) fresh_watchers
        text.now a.status a.text.items) }
    ensures status { IfOk result (λ a. IsAnswerStatus a.status) }
{
    let totals = Box::new(alloc, Totals::new())?;
    let heights = Box::new(alloc, Heights::new())?;
    let layers = Box::new(alloc, Layers::new(alloc)?)?;
    let mut watchers: Vec<Box<dyn Watch>> = Vec::new(alloc);
    watchers.push(totals)?;
    watchers.push(heights)?;
    watchers.push(layers)?;
    answer_alone(alloc, words, watchers, text)
}

/// The answer to the arguments in these bytes and to an input. None if the bytes contain no
/// arguments.
#[tactic(auto, using(crate::proofs::Utf8Words::words_utf8))]
pub fn answer_of(alloc: Global, words: &[u8], text: &[u8]) -> Result<Option<Answer>, AllocError>
    ensures told { IfOk result (λ found. MatchOption found (AreNoWords words.now)
        (λ a. IsTold words.now text.now a.status a.text.items)) }
    ensures status { IfOk result (λ found. IfSome found (λ a. IsAnswerStatus a.status)) }
{
    match words_of(alloc, words)? {
        Some(words) => Ok(Some(watched_answer(alloc, &words, text)?)),
        None => Ok(None),
    }
}
