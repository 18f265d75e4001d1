ghost use Rattle.std.specs.Prelude.{◌≡◌, ◌<◌, IfOk};
ghost use Rattle.pop_model.specs.Stacks.{variables_of, domain_of, height_of, value_at};

use crate::Stacks;
use crate::kept_values::KeptValues;
use crate::key_stream::KeyStream;
use std::alloc::{AllocError, Global};
use std::marker::Model;
use std::snapshot::Snapshot;

/// Reads the entries of stacks; each thread has its own reader. It owns its key stream and its
/// cache of values. It holds no stacks, so they may be raised while it lives. Contracts see which
/// stacks it was made for, and nothing of its cache.
#[derive(Drop)]
pub struct Reader {
    stream: KeyStream,
    kept: KeptValues,
    made_of: Snapshot<Stacks>,
}

impl Model for Reader {
    ghost use Rattle.pop_stacks.specs.KeptValues.{keeps, KeepsValues};
    ghost use Rattle.pop_stacks.specs.Readers.{ReaderOf, Streams, KeepsOfKeys};

    ghost Value = { ReaderOf };

    ghost view = { λ a. record { stacks = a.made_of.value; keeping = keeps a.kept } };

    ghost invariant = { λ a. Streams a.made_of.value.origin a.stream
        × KeepsValues a.made_of.value a.kept
        × KeepsOfKeys a.made_of.value.origin (keeps a.kept) };
}

impl Reader {
    ghost use Rattle.pop_stacks.specs.Readers.{Belongs, plain_reader};

    /// A reader of these stacks without a cache. It allocates nothing, and it also reads stacks of
    /// the same source with other weights.
    pub fn new(stacks: &Stacks) -> Reader
        ensures made { result ≡ plain_reader stacks.now }
        ensures belongs { Belongs stacks.now result }
    {
        Reader {
            stream: stacks.stream(),
            kept: KeptValues::Nothing,
            made_of: Snapshot::of(stacks),
        }
    }

    /// A reader of these stacks with a cache. For each variable it keeps values of the group of 32
    /// entries that was read last. These are all of them, or the blocks of eight drawn so far. It
    /// draws the next block for four variables at once. Its memory is linear in the number of
    /// variables.
    pub fn keeping(alloc: Global, stacks: &Stacks) -> Result<Reader, AllocError>
        ensures { IfOk result (Belongs stacks.now) }
    {
        let kept = stacks.room_for_values(alloc)?;
        Ok(Reader {
            stream: stacks.stream(),
            kept,
            made_of: Snapshot::of(stacks),
        })
    }

    /// Entry k of variable v. The stacks must have the source of the reader: the same key and
    /// sample, or the same given rows. With a cache they must also have the same weights. The
    /// result does not depend on earlier reads. It allocates nothing.
    #[inline]
    pub fn entry(&mut self, stacks: &Stacks, v: u32, k: u32) -> u32
        requires belongs { Belongs stacks.now self.old }
        requires variable { v < variables_of stacks.now }
        requires place { k < height_of stacks.now v }
        ensures value { result ≡ value_at stacks.now v k }
        ensures within { result < domain_of stacks.now v }
        ensures same { self.new ≡ self.old }
    {
        if let Some(value) = self.kept.value(v, k) {
            return value;
        }
        let _count = stacks.count();
        stacks.value(&mut self.stream, &mut self.kept, v, k)
    }
}
