//! The words of a board. Word 0 is the number of tickets drawn. After it there is a word for each
//! variable:
//!
//! - bit 63: claimed
//! - bit 62: settled
//! - bits 0 to 31: the cursor; all others are 0
//!
//! After these there is, for a listed family, a word for each unit: its mark, 0 or 1.
ghost use Rattle.std.specs.Prelude.{◌≡◌, ◌<◌};
ghost use Rattle.claim_words.specs.Words.{word_of, mark_of, cursor_in, is_settled};

// The bit that is set in a claimed word.
pub(crate) const CLAIMED: u64 = 1 << 63;

// The bit that is set in a settled word, in addition to the bit of a claim.
pub(crate) const SETTLED: u64 = 1 << 62;

// All bits except that of a claim.
pub(crate) const UNCLAIMED: u64 = CLAIMED - 1;

// A mark that is set.
pub(crate) const MARKED: u64 = 1;

// The index of the word that counts tickets.
pub(crate) const TICKETS: usize = 0;

// The index of the word of a variable.
pub(crate) fn word_of(v: u32) -> usize
    ensures { result ≡ word_of v }
{
    1 + v as usize
}

// The index of the word with the mark of a unit, if there are `count` variables.
pub(crate) fn mark_of(count: u32, unit: u32) -> usize
    ensures { result ≡ mark_of count unit }
{
    1 + count as usize + unit as usize
}

// The cursor in a word.
pub(crate) fn cursor_of(word: u64) -> u32
    ensures { result ≡ cursor_in word }
{
    (word % (1 << 32)) as u32
}

// Whether a word is settled.
pub(crate) fn is_settled(word: u64) -> bool
    ensures { result ≡ is_settled word }
{
    word > CLAIMED + SETTLED - 1
}
