//! The arguments of a call.
ghost use Rattle.std.specs.Prelude.{◌≡◌, ◌++◌, ◌∷◌, [], map, string_bytes, IfOk, MatchOption, IsUtf8, Ok, true, false};
ghost use Rattle.joined_words.specs.Joined.{AreJoined, AreNoWords};

use std::alloc::{AllocError, Global};
use std::str;

// Adds an argument after the others if it is UTF-8, and returns whether it is.
fn push_word(alloc: Global, words: &mut Vec<String>, word: &[u8]) -> Result<bool, AllocError>
    ensures pushed { result ≡ Ok true → map string_bytes words.new.items
        ≡ map string_bytes words.old.items ++ word.now ∷ [] }
    ensures bad { result ≡ Ok false → IsUtf8 word.now → ⊥ }
{
    match str::from_utf8(word) {
        Ok(word) => {
            words.push(word.to_string(alloc)?)?;
            Ok(true)
        }
        Err(_) => Ok(false),
    }
}

/// The arguments in bytes that end each with a byte 0; the bytes determine them. None if the last
/// byte is not 0 or an argument is not UTF-8. Empty bytes have no arguments.
pub fn words_of(alloc: Global, bytes: &[u8]) -> Result<Option<Vec<String>>, AllocError>
    ensures { IfOk result (λ found. MatchOption found (AreNoWords bytes.now)
        (λ words. AreJoined bytes.now (map string_bytes words.items))) }
{
    let mut words = Vec::new(alloc);
    let mut start = 0;
    for at in 0..bytes.len() {
        if bytes[at] == 0 {
            if !push_word(alloc, &mut words, &bytes[start..at])? {
                return Ok(None);
            }
            start = at + 1;
        }
    }
    if start < bytes.len() {
        return Ok(None);
    }
    Ok(Some(words))
}
