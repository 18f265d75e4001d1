ghost use Rattle.std.specs.Prelude.{◌≡◌, ◌+◌, ◌<◌, ◌≤◌, ◌++◌, ◌∷◌, [], length, drop, decimal};

use itoa::write_digits;
use std::marker::Model;

/// A text of at most 48 bytes that is written backwards, from its end. Contracts see its bytes as
/// a list. A line that is built here is added to an output in one step.
#[derive(Drop)]
pub struct ShortText {
    bytes: [u8; 48],
    // The start of the text. It ends at the end of the array.
    start: usize,
}

impl Model for ShortText {
    ghost use Rattle.std.specs.Prelude.{ℕ, List, ◌≤◌, drop};

    ghost Value = { List ℕ };

    ghost view = { λ a. drop a.start a.bytes };

    ghost invariant = { λ a. a.start ≤ 48 };
}

impl ShortText {
    /// An empty text.
    #[inline]
    pub fn new() -> ShortText
        ensures { result ≡ [] }
    {
        ShortText {
            bytes: [0; 48],
            start: 48,
        }
    }

    /// Puts a byte before the text.
    #[inline]
    pub fn put(&mut self, byte: u8)
        requires { length self.old < 48 }
        ensures { self.new ≡ byte ∷ self.old }
    {
        self.start -= 1;
        self.bytes[self.start] = byte;
    }

    /// Puts a number before the text, in decimal digits.
    #[inline]
    pub fn put_number(&mut self, n: u64)
        requires { length (decimal n) + length self.old ≤ 48 }
        ensures { self.new ≡ decimal n ++ self.old }
    {
        self.start = write_digits(n, &mut self.bytes, self.start);
    }

    /// Puts a space and a number before the text.
    #[inline]
    pub fn put_spaced(&mut self, n: u64)
        requires { length (decimal n) + length self.old < 48 }
        ensures { self.new ≡ 32 ∷ decimal n ++ self.old }
    {
        self.put_number(n);
        self.put(b' ');
    }

    /// The text.
    #[inline]
    pub fn as_bytes(&self) -> &[u8]
        ensures { result.now ≡ self.now }
    {
        &self.bytes[self.start..]
    }
}
