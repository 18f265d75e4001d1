ghost use Rattle.std.specs.Prelude.{◌≡◌, ◌<◌, ◌^◌, length, slice_get, Some};
ghost use Rattle.pop_batch.specs.Batches.{some_stuck};

use confluence_core::End;
use std::marker::Model;

/// The ends of fewer than 2^32 samples, in the order of the samples' numbers, from 0.
#[derive(Drop)]
pub struct Ends {
    ends: Vec<End>,
}

impl Model for Ends {
    ghost use Rattle.std.specs.Prelude.{List, length, ◌<◌, ◌^◌};
    ghost use Rattle.confluence_core.specs.declared.end.End.{End};

    ghost Value = { List End };

    ghost view = { λ a. a.ends.items };

    ghost invariant = { λ a. length a.ends.items < 2 ^ 32 };
}

impl Ends {
    // These ends.
    pub(crate) fn of(ends: Vec<End>) -> Ends
        requires short { length ends.items < 2 ^ 32 }
        ensures { result ≡ ends.items }
    {
        Ends { ends }
    }

    /// The number of ends.
    pub fn len(&self) -> u32
        ensures { result ≡ length self.now }
    {
        self.ends.len() as u32
    }

    /// The end of sample j.
    pub fn at(&self, j: u32) -> &End
        requires known { j < length self.now }
        ensures { slice_get self.now j ≡ Some result.now }
    {
        &self.ends[j as usize]
    }

    /// Whether an event still occurs at some end.
    pub fn some_stuck(&self) -> bool
        ensures { result ≡ some_stuck self.now }
    {
        self.ends.iter().any(|end| end.stuck.len() > 0)
    }
}
