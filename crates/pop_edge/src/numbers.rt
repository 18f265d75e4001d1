ghost use Rattle.std.specs.Prelude.{◌≡◌, ◌≤◌, length, None, Some, if◌then◌else◌};
ghost use Rattle.std.specs.List.{list_all};
ghost use Rattle.std.specs.Str.Parse.{digits_value};
ghost use Rattle.pop_edge.specs.Numbers.{is_digit, number_of};

// The largest number of digits of a number.
const MAX_DIGITS: usize = 10;

// The value of up to ten digits, or None if a byte is not a digit.
fn value_of(word: &[u8]) -> Option<u64>
    requires { length word.now ≤ 10 }
    ensures { result ≡ (if list_all is_digit word.now
        then Some (digits_value 10 word.now) else None) }
{
    let mut value: u64 = 0;
    for b in word {
        if *b < b'0' || *b > b'9' {
            return None;
        }
        value = value * 10 + u64::from(*b - b'0');
    }
    Some(value)
}

/// The number that a token denotes, or None if it denotes none. Numbers have one to ten decimal
/// digits, leading zeros allowed, and are below 2^32.
pub fn number(word: &[u8]) -> Option<u32>
    ensures { result ≡ number_of word.now }
{
    if word.is_empty() || word.len() > MAX_DIGITS {
        return None;
    }
    let value = value_of(word)?;
    u32::try_from(value).ok()
}
