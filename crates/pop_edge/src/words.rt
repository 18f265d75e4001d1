ghost use Rattle.std.specs.Prelude.{◌≡◌, ◌<◌, ◌∷◌, length, position, not, IsTrue, slice_index};
ghost use Rattle.pop_edge.specs.Words.{CutsWord, is_blank, words_of};

fn is_blank_byte(b: u8) -> bool
    ensures { result ≡ is_blank b }
{
    b == b' ' || b == b'\t' || b == b'\r'
}

fn first_blank(line: &[u8]) -> Option<usize>
    ensures { result ≡ position is_blank line.now }
{
    line.iter().position(|b| is_blank_byte(*b))
}

fn first_other(line: &[u8]) -> Option<usize>
    ensures { result ≡ position (λ b. not (is_blank b)) line.now }
{
    line.iter().position(|b| !is_blank_byte(*b))
}

// The token at the start of bytes that begin with no white space, and the bytes after it.
fn front_word(bytes: &[u8]) -> (&[u8], &[u8])
    requires some { 0 < length bytes.now }
    requires no_blank { IsTrue (not (is_blank (slice_index bytes.now 0))) }
    ensures word { words_of bytes.now ≡ result.0.now ∷ words_of result.1.now }
    ensures not_empty { 0 < length result.0.now }
    ensures shorter { length result.1.now < length bytes.now }
{
    match first_blank(bytes) {
        Some(end) => (&bytes[..end], &bytes[end + 1..]),
        None => (bytes, &bytes[bytes.len()..]),
    }
}

/// The first token of a line and the bytes after it, or None if there is no token. White space is
/// space, tab and carriage return.
pub fn next_word(line: &[u8]) -> Option<(&[u8], &[u8])>
    ensures { CutsWord line.now result }
{
    match first_other(line) {
        None => None,
        Some(start) => {
            let (word, rest) = front_word(&line[start..]);
            Some((word, rest))
        }
    }
}
