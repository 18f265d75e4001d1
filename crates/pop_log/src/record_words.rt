ghost use Rattle.std.specs.Prelude.{ℕ, List, MatchOption};
ghost use Rattle.pop_log.specs.RecordWords.{HasWords, SaysLayer};

use crate::decimals::front_number;
use crate::log_version::LogVersion;

/// The layer that a line states, 0 in version 1, and the bytes after it. None exactly if no line
/// of a record of this version begins this way.
pub(crate) fn cut_words(version: LogVersion, line: &[u8]) -> Option<(u64, &[u8])>
    ensures { MatchOption result ((y : ℕ) (words : List ℕ) → HasWords version line.now y words → ⊥)
        (λ r. HasWords version line.now r.0 r.1.now) }
{
    match version {
        LogVersion::Ordered => {
            let Some(words) = line.strip_prefix(b"pop ") else {
                return None;
            };
            Some((0, words))
        }
        LogVersion::Layered => cut_layer(line),
    }
}

// The layer that a line states, at least 1, and what follows after it and a space.
fn cut_layer(line: &[u8]) -> Option<(u64, &[u8])>
    ensures { MatchOption result ((y : ℕ) (words : List ℕ) → SaysLayer line.now y words → ⊥)
        (λ r. SaysLayer line.now r.0 r.1.now) }
{
    let Some(text) = line.strip_prefix(b"pop ") else {
        return None;
    };
    let Some((layer, behind)) = front_number(text) else {
        return None;
    };
    if layer == 0 {
        return None;
    }
    let Some(words) = behind.strip_prefix(b" ") else {
        return None;
    };
    Some((layer, words))
}
