//! The export for command-line arguments and an input.
ghost use Rattle.std.specs.Prelude.{◌≡◌, ◌≢◌, ◌<◌, ◌≤◌, ◌↔◌, ◌⊎◌, IsTrue, drop, length, take};
ghost use Rattle.joined_words.specs.Joined.{AreNoWords};
ghost use Rattle.popsample_c.specs.Told.{IsTold, IsTooLong, IsCallStatus};

use crate::answering::answer_of;
use std::alloc::Global;

// The statuses that no answer has.
const OUT_OF_MEMORY: u32 = 9;

const NO_ROOM: u32 = 12;

const NO_WORDS: u32 = 13;

// Copies a text to the start of the output, if there is room for it. Returns whether there is.
fn put(text: &[u8], output: &mut [u8]) -> bool
    ensures room { IsTrue result ↔ (length text.now ≤ length output.old) }
    ensures put { IsTrue result → take (length text.now) output.new ≡ text.now }
    ensures behind { drop (length text.now) output.new ≡ drop (length text.now) output.old }
    ensures kept { length output.old < length text.now → output.new ≡ output.old }
{
    let count = text.len();
    if count > output.len() {
        return false;
    }
    output[..count].copy_from_slice(text);
    true
}

/// Answers the arguments and the input as the program does, and writes what it prints to the start
/// of the output. Each argument is ended by a byte 0. `written` is set to the number of bytes of
/// the answer.
///
/// The status is that of the program, or one of these:
///
/// - 9 if memory ran out;
/// - 12 if the output has less room than the answer needs; `written` says how much it needs;
/// - 13 if the arguments have no byte 0 at their end, or are not UTF-8.
///
/// With these three the output is unchanged, and otherwise it is unchanged after the answer.
#[unsafe(no_mangle)]
pub extern "C" fn popsample_run(
    alloc: Global,
    words: &[u8],
    text: &[u8],
    output: &mut [u8],
    written: &mut usize,
) -> u32
    // With a status of the program the start of the output is an answer to the arguments and the
    // input.
    ensures told { result < 12 → result ≢ 9 → IsTold words.now text.now result
        (take written.new output.new) }
    ensures fits { result < 12 → written.new ≤ length output.old }
    ensures statuses { IsCallStatus result }

    ensures no_room { result ≡ 12
        → IsTooLong words.now text.now (length output.old) written.new }
    ensures no_words { result ≡ 13 → AreNoWords words.now }

    ensures nothing { (result ≡ 9) ⊎ (result ≡ 13) → written.new ≡ 0 }
    ensures behind { drop written.new output.new ≡ drop written.new output.old }
    ensures kept { (result ≡ 9) ⊎ (12 ≤ result) → output.new ≡ output.old }
{
    *written = 0;
    match answer_of(alloc, words, text) {
        Err(_) => OUT_OF_MEMORY,
        Ok(None) => NO_WORDS,
        Ok(Some(answer)) => {
            *written = answer.text.len();
            if put(&answer.text, output) {
                u32::from(answer.status)
            } else {
                NO_ROOM
            }
        }
    }
}
