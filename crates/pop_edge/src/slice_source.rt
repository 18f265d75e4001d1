ghost use Rattle.std.specs.Prelude.{◌≡◌, ◌<◌, ℕ, List, length, min, Some, IfOk, IsOk};
ghost use Rattle.std.specs.Io.{ReadsAtMost};
ghost use Rattle.std.specs.Io.KnownBytes.{ReadConsumes};
ghost use Rattle.pop_model.specs.Faults.{HasCause};

use crate::{Failed, Source};
use std::marker::Model;

/// A source over borrowed bytes, which it gives in order. No read fails. Contracts see the bytes
/// that are still to come.
#[derive(Drop)]
pub struct SliceSource<'b> {
    bytes: &'b [u8],
    // How many bytes were read.
    at: usize,
}

impl<'b> Model for SliceSource<'b> {
    ghost use Rattle.std.specs.Prelude.{List, ℕ, drop, length, ◌≤◌};

    ghost Value = { List ℕ };

    ghost view = { λ s. drop s.at s.bytes.now };

    ghost invariant = { λ s. s.at ≤ length s.bytes.now };
}

impl<'b> SliceSource<'b> {
    /// A source of these bytes.
    pub fn new(bytes: &'b [u8]) -> SliceSource<'b>
        ensures { result ≡ bytes.now }
    {
        SliceSource { bytes, at: 0 }
    }
}

impl<'b> Source for SliceSource<'b> {
    ghost left = { λ s. Some s };

    ghost faults = { λ _. 0 };

    /// Gives as many bytes as the room allows and as are left.
    fn read(&mut self, room: &mut [u8]) -> Result<usize, Failed>
        requires { 0 < length room.old }
        ensures bound { ReadsAtMost result room.new }
        ensures bytes { ReadConsumes (Some self.old) (Some self.new) result room.new }
        ensures count { IfOk result (λ n. n ≡ min (length room.old) (length self.old)) }
        ensures given { IsOk result }
        ensures cause { HasCause 0 0 result }
    {
        let count = room.len().min(self.bytes.len() - self.at);
        room[..count].copy_from_slice(&self.bytes[self.at..self.at + count]);
        self.at += count;
        Ok(count)
    }
}
