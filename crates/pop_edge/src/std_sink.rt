ghost use Rattle.std.specs.Prelude.{◌≡◌, ◌<◌, length};
ghost use Rattle.std.specs.Io.KnownBytes.{WriteAppends};
ghost use Rattle.pop_model.specs.Faults.{HasCause};
ghost use Rattle.pop_edge.specs.Devices.{TakesSome, faults_after};

use crate::{Failed, Sink};
use std::io::Write;
use std::marker::Model;

/// A sink over a writer of std, such as standard output. Contracts do not say which bytes such a
/// writer holds.
#[derive(Drop)]
pub struct StdSink<O: Write> {
    writer: O,
    faults: u64,
}

impl<O: Write> Model for StdSink<O> {
    ghost use Rattle.pop_edge.specs.Devices.{Counted};

    ghost Value = { Counted };

    ghost view = { λ s. record { bytes = O.contents s.writer; faults = s.faults } };
}

impl<O: Write> StdSink<O> {
    /// A sink over this writer. No fault is counted yet.
    pub fn new(writer: O) -> StdSink<O>
        ensures { result ≡ record { bytes = O.contents writer; faults = 0 } }
    {
        StdSink { writer, faults: 0 }
    }
}

impl<O: Write> Sink for StdSink<O> {
    ghost holds = { λ s. s.bytes };

    ghost faults = { λ s. s.faults };

    /// Writes once. Each error of the writer is a fault, and so is a write that took 0 bytes.
    fn write(&mut self, piece: &[u8]) -> Result<usize, Failed>
        requires { 0 < length piece.now }
        ensures some { TakesSome result piece.now }
        ensures bytes { WriteAppends self.old.bytes self.new.bytes result piece.now }
        ensures cause { HasCause self.old.faults self.new.faults result }
        ensures count { self.new.faults ≡ faults_after self.old.faults result }
    {
        match self.writer.write(piece) {
            Ok(count) if count > 0 => Ok(count),
            _ => {
                self.faults = self.faults.saturating_add(1);
                Err(Failed)
            }
        }
    }
}
