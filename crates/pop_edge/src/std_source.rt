ghost use Rattle.std.specs.Prelude.{◌≡◌, ◌<◌, length};
ghost use Rattle.std.specs.Io.{ReadsAtMost};
ghost use Rattle.std.specs.Io.KnownBytes.{ReadConsumes};
ghost use Rattle.pop_model.specs.Faults.{HasCause};
ghost use Rattle.pop_edge.specs.Devices.{faults_after};

use crate::{Failed, Source};
use std::io::Read;
use std::marker::Model;

/// A source over a reader of std, such as standard input. Contracts do not say which bytes such a
/// reader gives.
#[derive(Drop)]
pub struct StdSource<I: Read> {
    reader: I,
    faults: u64,
}

impl<I: Read> Model for StdSource<I> {
    ghost use Rattle.pop_edge.specs.Devices.{Counted};

    ghost Value = { Counted };

    ghost view = { λ s. record { bytes = I.remaining s.reader; faults = s.faults } };
}

impl<I: Read> StdSource<I> {
    /// A source over this reader. No fault is counted yet.
    pub fn new(reader: I) -> StdSource<I>
        ensures { result ≡ record { bytes = I.remaining reader; faults = 0 } }
    {
        StdSource { reader, faults: 0 }
    }
}

impl<I: Read> Source for StdSource<I> {
    ghost left = { λ s. s.bytes };

    ghost faults = { λ s. s.faults };

    /// Reads once. Each error of the reader is a fault.
    fn read(&mut self, room: &mut [u8]) -> Result<usize, Failed>
        requires { 0 < length room.old }
        ensures bound { ReadsAtMost result room.new }
        ensures bytes { ReadConsumes self.old.bytes self.new.bytes result room.new }
        ensures cause { HasCause self.old.faults self.new.faults result }
        ensures count { self.new.faults ≡ faults_after self.old.faults result }
    {
        match self.reader.read(room) {
            Ok(count) => Ok(count),
            Err(_) => {
                self.faults = self.faults.saturating_add(1);
                Err(Failed)
            }
        }
    }
}
