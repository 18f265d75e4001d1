ghost use Rattle.std.specs.Prelude.{◌<◌, ℕ, List, length, Option, OnErr, OnOk};
ghost use Rattle.std.specs.Io.KnownBytes.{Appends, WriteAppends};
ghost use Rattle.pop_model.specs.Faults.{HasCause};
ghost use Rattle.pop_edge.specs.Devices.{AppendsFront, TakesSome};

use crate::Failed;

/// An output that takes bytes.
pub trait Sink {
    /// The bytes that it has taken, if they are known.
    ghost holds: { Self → Option (List ℕ) };

    /// How many writes failed.
    ghost faults: { Self → ℕ };

    /// Takes at least one byte from the start of the piece, and returns how many it took. If the
    /// result is `Failed`, it took none, and the count of faults rose.
    fn write(&mut self, piece: &[u8]) -> Result<usize, Failed>
        requires { 0 < length piece.now }
        ensures some { TakesSome result piece.now }
        ensures bytes { WriteAppends (holds self.old) (holds self.new) result piece.now }
        ensures cause { HasCause (faults self.old) (faults self.new) result };
}

/// Writes all the bytes, in as many pieces as the sink takes them. It allocates nothing. If the
/// result is `Failed`, the sink took a prefix of the bytes and then failed.
pub fn put_all<K: Sink>(sink: &mut K, bytes: &[u8]) -> Result<(), Failed>
    ensures ok { OnOk result (Appends (K.holds sink.old) (K.holds sink.new) bytes.now) }
    ensures err { OnErr result (AppendsFront (K.holds sink.old) (K.holds sink.new) bytes.now) }
    ensures cause { HasCause (K.faults sink.old) (K.faults sink.new) result }
{
    let mut done = 0;
    while done < bytes.len() {
        let count = sink.write(&bytes[done..])?;
        done += count;
    }
    Ok(())
}
