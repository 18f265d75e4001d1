ghost use Rattle.std.specs.Prelude.{◌<◌, ℕ, List, length, Option, ⊤};
ghost use Rattle.std.specs.Io.{ReadsAtMost};
ghost use Rattle.std.specs.Io.KnownBytes.{ReadConsumes};
ghost use Rattle.pop_model.specs.Faults.{HasCause};
ghost use Rattle.pop_edge.specs.NeededReads.{given};

use crate::Failed;

/// An input that gives bytes.
pub trait Source {
    /// The bytes that are still to come, if they are known.
    ghost left: { Self → Option (List ℕ) };

    /// How many reads failed.
    ghost faults: { Self → ℕ };

    /// What one read does, if the source specifies it: the source before, the bytes read or None
    /// for a failure, and the source after.
    ghost read_gives: { Self → Option (List ℕ) → Self → Type 0 } = { λ _ _ _. ⊤ };

    /// Reads some bytes into the start of the room and returns how many. 0 means the end of the
    /// input. If the result is `Failed`, it took no bytes, and the count of faults rose.
    fn read(&mut self, room: &mut [u8]) -> Result<usize, Failed>
        requires { 0 < length room.old }
        ensures bound { ReadsAtMost result room.new }
        ensures bytes { ReadConsumes (left self.old) (left self.new) result room.new }
        ensures cause { HasCause (faults self.old) (faults self.new) result }
        ensures gives { read_gives self.old (given result room.new) self.new };
}
