ghost use Rattle.std.specs.Prelude.{◌≡◌, ◌<◌, ◌≤◌, ◌↔◌, length, min, Contains, Some, IfOk, IsErr};
ghost use Rattle.std.specs.Io.{ReadsAtMost};
ghost use Rattle.std.specs.Io.KnownBytes.{ReadConsumes};
ghost use Rattle.pop_model.specs.Faults.{HasCause};
ghost use Rattle.pop_edge.specs.Devices.{one_more};
ghost use Rattle.pop_edge.specs.Memory.{after_piece, after_read, new_source};
ghost use Rattle.pop_edge.specs.NeededReads.{given};

use crate::{Failed, Source};
use std::marker::Model;

/// A source in memory that gives its bytes in pieces. Chosen reads fail.
#[derive(Drop)]
pub struct MemSource {
    bytes: Vec<u8>,
    // How many bytes were read.
    at: usize,
    piece: usize,
    failing: Vec<u64>,
    calls: u64,
    faults: u64,
}

impl Model for MemSource {
    ghost use Rattle.std.specs.Prelude.{drop, length, ◌≤◌};
    ghost use Rattle.pop_edge.specs.Memory.{Input};

    ghost Value = { Input };

    ghost view = { λ s. record {
      left = drop s.at s.bytes.items;
      piece = s.piece;
      failing = s.failing.items;
      calls = s.calls;
      faults = s.faults;
    } };

    ghost invariant = { λ s. (s.at ≤ length s.bytes.items) × (1 ≤ s.piece) };
}

impl MemSource {
    /// Gives these bytes, at most `piece` of them in one read. The reads with the numbers in
    /// `failing`, counted from 1, fail.
    pub fn new(bytes: Vec<u8>, piece: usize, failing: Vec<u64>) -> MemSource
        requires { 1 ≤ piece }
        ensures { result ≡ new_source bytes.items piece failing.items }
    {
        MemSource {
            bytes,
            at: 0,
            piece,
            failing,
            calls: 0,
            faults: 0,
        }
    }
}

impl Source for MemSource {
    ghost left = { λ s. Some s.left };

    ghost faults = { λ s. s.faults };

    ghost read_gives = { λ s given after. after ≡ after_piece s given };

    /// Fails exactly if the number of this read is listed. Otherwise it gives as many of the bytes
    /// left as the piece and the room allow.
    fn read(&mut self, room: &mut [u8]) -> Result<usize, Failed>
        requires { 0 < length room.old }
        ensures bound { ReadsAtMost result room.new }
        ensures bytes { ReadConsumes (Some self.old.left) (Some self.new.left) result room.new }
        ensures count { IfOk result (λ n. n ≡
            min self.old.piece (min (length room.old) (length self.old.left))) }

        ensures fails { IsErr result ↔ Contains self.old.failing (one_more self.old.calls) }
        ensures cause { HasCause self.old.faults self.new.faults result }

        ensures after { self.new ≡ after_read self.old result }
        ensures gives { self.new ≡ after_piece self.old (given result room.new) }
    {
        self.calls = self.calls.saturating_add(1);
        if self.failing.contains(&self.calls) {
            self.faults = self.faults.saturating_add(1);
            return Err(Failed);
        }
        let count = self.piece.min(room.len().min(self.bytes.len() - self.at));
        room[..count].copy_from_slice(&self.bytes[self.at..self.at + count]);
        self.at += count;
        Ok(count)
    }
}
