ghost use Rattle.std.specs.Prelude.{◌≡◌, ◌++◌, ◌∷◌, [], decimal, IfOk, OnOk};

use crate::short_text::ShortText;
use std::alloc::{AllocError, Global};
use std::marker::Model;

/// The bytes of an output so far. Contracts see them as a list.
#[derive(Drop)]
pub struct Output {
    bytes: Vec<u8>,
}

impl Model for Output {
    ghost use Rattle.std.specs.Prelude.{ℕ, List};

    ghost Value = { List ℕ };

    ghost view = { λ a. a.bytes.items };
}

impl Output {
    /// An empty output, with room for this many bytes.
    pub fn with_room(alloc: Global, room: usize) -> Result<Output, AllocError>
        ensures { IfOk result (λ out. out ≡ []) }
    {
        Ok(Output {
            bytes: Vec::with_capacity(alloc, room)?,
        })
    }

    /// An output that starts with these bytes. It allocates nothing.
    pub fn behind(bytes: Vec<u8>) -> Output
        ensures { result ≡ bytes.items }
    {
        Output { bytes }
    }

    /// Makes sure that there is room for this many more bytes.
    pub fn reserve(&mut self, room: usize) -> Result<(), AllocError>
        ensures { self.new ≡ self.old }
    {
        self.bytes.reserve(room)
    }

    /// Adds bytes at the end.
    pub fn push(&mut self, bytes: &[u8]) -> Result<(), AllocError>
        ensures { OnOk result (self.new ≡ self.old ++ bytes.now) }
    {
        self.bytes.extend_from_slice(bytes)
    }

    /// Adds a number in decimal digits.
    pub fn push_number(&mut self, n: u64) -> Result<(), AllocError>
        ensures { OnOk result (self.new ≡ self.old ++ decimal n) }
    {
        let mut text = ShortText::new();
        text.put_number(n);
        self.push(text.as_bytes())
    }

    /// Adds a space and a number.
    pub fn push_spaced(&mut self, n: u64) -> Result<(), AllocError>
        ensures { OnOk result (self.new ≡ self.old ++ 32 ∷ decimal n) }
    {
        let mut text = ShortText::new();
        text.put_spaced(n);
        self.push(text.as_bytes())
    }

    /// Adds a space and two numbers with a separator between them.
    pub fn push_pair(&mut self, first: u64, sign: u8, second: u64) -> Result<(), AllocError>
        ensures { OnOk result (self.new
            ≡ self.old ++ 32 ∷ (decimal first ++ sign ∷ decimal second)) }
    {
        let mut text = ShortText::new();
        text.put_number(second);
        text.put(sign);
        text.put_spaced(first);
        self.push(text.as_bytes())
    }

    /// The whole output.
    pub fn into_bytes(self) -> Vec<u8>
        ensures { result.items ≡ self }
    {
        let Output { bytes } = self;
        bytes
    }
}
