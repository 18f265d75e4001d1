ghost use Rattle.std.specs.Prelude.{◌≡◌, ◌≤◌, ◌<◌, length, IfOk};
ghost use Rattle.pop_instance.specs.KeptPairs.{pairs_kept, AreKept};

use std::alloc::{AllocError, Global};
use std::marker::Model;

// The largest number of pairs that are stored in place.
const FEW: usize = 4;

// The two ways of storing pairs. A few are stored in place, so that a list of cubes is one array.
// Many are stored in a list of their own.
#[derive(Drop)]
enum KeptPairs {
    // The first of these pairs, as many as the number says. The others are unused.
    Few(u32, [(u32, u32); FEW]),
    Many(Vec<(u32, u32)>),
}

/// Pairs of numbers. Contracts see them as a list.
#[derive(Drop)]
pub(crate) struct Pairs {
    kept: KeptPairs,
}

impl Model for Pairs {
    ghost use Rattle.std.specs.Prelude.{ℕ, List};
    ghost use Rattle.pop_instance.specs.KeptPairs.{pairs_kept, AreKept};

    ghost Value = { List (ℕ × ℕ) };

    ghost view = { λ a. pairs_kept a.kept };

    ghost invariant = { λ a. AreKept a.kept };
}

impl Pairs {
    /// These pairs, stored in place or in a list without spare capacity.
    pub fn new(pairs: Vec<(u32, u32)>) -> Pairs
        ensures { result ≡ pairs.items }
    {
        if pairs.len() <= FEW {
            return few_of(&pairs);
        }
        let mut pairs = pairs;
        pairs.shrink_to_fit();
        Pairs {
            kept: KeptPairs::Many(pairs),
        }
    }

    /// These pairs, stored in this list with its capacity.
    pub fn of(pairs: Vec<(u32, u32)>) -> Pairs
        ensures { result ≡ pairs.items }
    {
        Pairs {
            kept: KeptPairs::Many(pairs),
        }
    }

    /// The pairs.
    #[inline]
    pub fn as_slice(&self) -> &[(u32, u32)]
        ensures { result.now ≡ self.now }
    {
        match &self.kept {
            KeptPairs::Few(count, pairs) => &pairs[..*count as usize],
            KeptPairs::Many(pairs) => pairs,
        }
    }

    /// A copy of these pairs.
    pub fn copy(&self, alloc: Global) -> Result<Pairs, AllocError>
        ensures { IfOk result (λ pairs. pairs ≡ self.now) }
    {
        let kept = match &self.kept {
            KeptPairs::Few(count, pairs) => KeptPairs::Few(*count, *pairs),
            KeptPairs::Many(pairs) => KeptPairs::Many(Vec::from_slice(alloc, pairs)?),
        };
        Ok(Pairs { kept })
    }

    /// The pairs in a list: the list that was passed to `of`, or a new one for pairs that are
    /// stored in place.
    pub fn into_list(self, alloc: Global) -> Result<Vec<(u32, u32)>, AllocError>
        ensures { IfOk result (λ list. list.items ≡ self) }
    {
        let Pairs { kept } = self;
        match kept {
            KeptPairs::Few(count, pairs) => Vec::from_slice(alloc, &pairs[..count as usize]),
            KeptPairs::Many(pairs) => Ok(pairs),
        }
    }
}

// These pairs, at most `FEW`, stored in place.
fn few_of(pairs: &[(u32, u32)]) -> Pairs
    requires { length pairs.now ≤ 4 }
    ensures { result ≡ pairs.now }
{
    let mut few = [(0, 0); FEW];
    few[..pairs.len()].copy_from_slice(pairs);
    Pairs {
        kept: KeptPairs::Few(pairs.len() as u32, few),
    }
}
