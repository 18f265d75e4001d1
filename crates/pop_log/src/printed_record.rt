ghost use Rattle.std.specs.Prelude.{◌≡◌, ◌<◌, ℕ, List, IfOk, IsTrue, MatchOption, ◌↔◌, ◌∷◌, []};
ghost use Rattle.pop_log.specs.Printed.{Printed, words_line};
ghost use Rattle.pop_log.specs.PrintedWords.{BeginsWithPair, FitsWords};

use crate::decimals::{front_number_32, number_behind};
use std::alloc::{AllocError, Global};
use std::marker::Model;

/// A record as it is printed: the number of its event, and the name and the entry of each
/// variable.
#[derive(Drop)]
pub(crate) struct PrintedRecord {
    number: u32,
    pairs: Vec<(u32, u32)>,
}

impl Model for PrintedRecord {
    ghost use Rattle.pop_log.specs.Printed.{Printed as ModelPrinted};

    ghost Value = { ModelPrinted };

    ghost view = { λ a. record { number = a.number; pairs = a.pairs.items } };
}

impl PrintedRecord {
    /// The record that these bytes denote, up to the end of their line. None exactly if they
    /// denote no record with numbers of 32 bits.
    pub fn read(alloc: Global, words: &[u8]) -> Result<Option<PrintedRecord>, AllocError>
        ensures { IfOk result (λ found. MatchOption found
            ((p : Printed) → FitsWords p → words.now ≡ words_line p → ⊥)
            (λ p. FitsWords p × (words.now ≡ words_line p))) }
    {
        let Some((number, mut rest)) = front_number_32(words) else {
            return Ok(None);
        };
        let mut pairs = Vec::new(alloc);
        while !is_line_end(rest) {
            let Some((name, entry, behind)) = front_pair(rest) else {
                return Ok(None);
            };
            pairs.push((name, entry))?;
            rest = behind;
        }
        Ok(Some(PrintedRecord { number, pairs }))
    }

    /// The number of the event.
    pub fn number(&self) -> u32
        ensures { result ≡ self.now.number }
    {
        self.number
    }

    /// The names and entries.
    pub fn pairs(&self) -> &[(u32, u32)]
        ensures { result.now ≡ self.now.pairs }
    {
        &self.pairs
    }
}

// A name and an entry at the start of a text, after a space, and the rest.
fn front_pair(text: &[u8]) -> Option<(u32, u32, &[u8])>
    ensures { MatchOption result ((q : ℕ × ℕ) (rest : List ℕ) → BeginsWithPair text.now q rest → ⊥)
        (λ r. BeginsWithPair text.now (r.0, r.1) r.2.now) }
{
    let (name, behind) = number_behind(b" ", text)?;
    let (entry, rest) = number_behind(b":", behind)?;
    Some((name, entry, rest))
}

/// Whether the text is exactly a line end.
pub(crate) fn is_line_end(text: &[u8]) -> bool
    ensures { IsTrue result ↔ (text.now ≡ 10 ∷ []) }
{
    text.len() == 1 && text[0] == b'\n'
}
