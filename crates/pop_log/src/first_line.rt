ghost use Rattle.std.specs.Prelude.{◌≡◌, ◌<◌, ◌^◌, ◌++◌, ℕ, decimal, MatchOption};
ghost use Rattle.pop_model.specs.Text.{line as line_spec};
ghost use Rattle.pop_log.specs.declared.log_version.LogVersion.{LogVersion};
ghost use Rattle.pop_log.specs.LogVersions.{head_of};

use crate::decimals::front_number;
use crate::log_version::LogVersion;
use crate::printed_record::is_line_end;

/// The version and the number of records that the first line of a log declares. None exactly if it
/// is not a first line with a number of 64 bits.
pub(crate) fn read_head(line: &[u8]) -> Option<(LogVersion, u64)>
    ensures { MatchOption result
        ((v : LogVersion) (n : ℕ) → n < 2 ^ 64 → line.now ≡ head_of v n → ⊥)
        (λ r. (r.1 < 2 ^ 64) × (line.now ≡ head_of r.0 r.1)) }
{
    if let Some(count) = count_behind(b"log 1 ", line) {
        return Some((LogVersion::Ordered, count));
    }
    if let Some(count) = count_behind(b"log 2 ", line) {
        return Some((LogVersion::Layered, count));
    }
    None
}

// The number after this prefix, up to the end of the line.
fn count_behind(front: &[u8], line: &[u8]) -> Option<u64>
    ensures { MatchOption result
        ((n : ℕ) → n < 2 ^ 64 → line.now ≡ front.now ++ line_spec (decimal n) → ⊥)
        (λ n. (n < 2 ^ 64) × (line.now ≡ front.now ++ line_spec (decimal n))) }
{
    let Some(text) = line.strip_prefix(front) else {
        return None;
    };
    let Some((count, rest)) = front_number(text) else {
        return None;
    };
    if is_line_end(rest) { Some(count) } else { None }
}
