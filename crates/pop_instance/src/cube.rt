ghost use Rattle.std.specs.Prelude.{◌≡◌, ◌<◌, ◌^◌, ◌↔◌, length, slice_get, Some, IfOk, IsTrue, MatchOption, refl};
ghost use Rattle.std.specs.Cmp.{partial_equiv_from_equiv, partial_order_from_agreeing_total};
ghost use Rattle.std.specs.Ordering.{as_partial_cmp, eq_by_cmp};
ghost use Rattle.std.proofs.lemmas.Cmp.{eq_by_cmp_equiv};
ghost use Rattle.std.specs.List.Sorted.{IsStrictlyIncreasing};
ghost use Rattle.pop_model.specs.Popping.{IsCube, variables, names};
ghost use Rattle.pop_model.specs.Cycles.{demand};
ghost use Rattle.pop_model.specs.Extremal.{Share};
ghost use Rattle.pop_instance.specs.Cubes.{cube_cmp, cube_total};
ghost use Rattle.pop_instance.specs.Digests.{digest};

use crate::pairs::Pairs;
use std::alloc::{AllocError, Global};
use std::cmp::Ordering;
use std::marker::Model;

// The base of the digests (Knuth's multiplier for MMIX).
const DIGEST_BASE: u64 = 6364136223846793005;

/// What an event demands: pairs of a variable and the value that it must have. There is at least
/// one pair, and the variables rise. Variables and values count from 0.
#[derive(Drop)]
pub struct Cube {
    pairs: Pairs,
}

impl Model for Cube {
    ghost use Rattle.std.specs.Prelude.{ℕ, List, length, ◌<◌, ◌^◌};
    ghost use Rattle.pop_model.specs.Popping.{IsCube};

    ghost Value = { List (ℕ × ℕ) };

    ghost view = { λ a. a.pairs };

    ghost invariant = { λ a. IsCube a.pairs × (length a.pairs < 2 ^ 31) };
}

impl Cube {
    /// The cube of these pairs, at most 2^31 - 1. Up to four pairs are stored in place, and more
    /// in a list without spare capacity. The result is None exactly if there is no pair or the
    /// variables do not rise strictly.
    pub fn new(pairs: Vec<(u32, u32)>) -> Option<Cube>
        requires short { length pairs.items < 2 ^ 31 }
        ensures { MatchOption result (IsCube pairs.items → ⊥) (λ cube. cube ≡ pairs.items) }
    {
        if pairs.is_empty() || !rises(&pairs) {
            return None;
        }
        Some(Cube {
            pairs: Pairs::new(pairs),
        })
    }

    /// The cube of these pairs, with variables that rise strictly: at least one pair, and at most
    /// 2^31 - 1. The list is kept with its capacity, and `into_pairs` returns it.
    pub fn of(pairs: Vec<(u32, u32)>) -> Cube
        requires cube { IsCube pairs.items }
        requires short { length pairs.items < 2 ^ 31 }
        ensures { result ≡ pairs.items }
    {
        Cube {
            pairs: Pairs::of(pairs),
        }
    }

    /// The pairs in a list: the list that was passed to `of`, or a new one for pairs that are
    /// stored in place.
    pub fn into_pairs(self, alloc: Global) -> Result<Vec<(u32, u32)>, AllocError>
        ensures { IfOk result (λ pairs. pairs.items ≡ self) }
    {
        let Cube { pairs } = self;
        pairs.into_list(alloc)
    }

    /// The number of pairs, from 1 to 2^31 - 1.
    pub fn len(&self) -> u32
        ensures len { result ≡ length self.now }
        ensures cube { IsCube self.now }
        ensures short { result < 2 ^ 31 }
    {
        self.pairs.as_slice().len() as u32
    }

    /// The variable and the value of a pair. Pairs count from 0.
    pub fn pair(&self, i: u32) -> (u32, u32)
        requires { i < length self.now }
        ensures { slice_get self.now i ≡ Some result }
    {
        self.pairs.as_slice()[i as usize]
    }

    /// The value that the cube demands of a variable, if it names the variable. It is found by
    /// binary search.
    pub fn demand(&self, v: u32) -> Option<u32>
        ensures { result ≡ demand self.now v }
    {
        let pairs = self.pairs.as_slice();
        match pairs.binary_search_by_key(&v, |pair| pair.0) {
            Ok(place) => Some(pairs[place].1),
            Err(_) => None,
        }
    }

    /// Whether two cubes have a variable in common.
    pub fn shares(&self, other: &Cube) -> bool
        ensures { IsTrue result ↔ Share self.now other.now }
    {
        share(self.pairs.as_slice(), other.pairs.as_slice())
    }

    /// A hash of the cube. Equal cubes have equal digests, and different cubes almost always have
    /// different ones.
    pub(crate) fn digest(&self) -> u64
        ensures { result ≡ digest self.now }
    {
        digest_of(self.pairs.as_slice())
    }

    /// A copy of this cube.
    pub fn copy(&self, alloc: Global) -> Result<Cube, AllocError>
        ensures { IfOk result (λ cube. cube ≡ self.now) }
    {
        Ok(Cube {
            pairs: self.pairs.copy(alloc)?,
        })
    }
}

impl PartialEq for Cube {
    ghost eq = { eq_by_cmp cube_cmp };

    ghost laws = { partial_equiv_from_equiv (eq_by_cmp_equiv cube_total) };

    fn eq(&self, other: &Cube) -> bool
        ensures value { result ≡ eq_by_cmp cube_cmp self.now other.now }
        ensures same { IsTrue result ↔ (self.now ≡ other.now) }
    {
        self.cmp(other).is_eq()
    }
}

impl Eq for Cube {
    ghost laws = { eq_by_cmp_equiv cube_total };
}

impl PartialOrd for Cube {
    ghost partial_cmp = { as_partial_cmp cube_cmp };

    ghost laws = { partial_order_from_agreeing_total cube_cmp cube_total
        (λ x y. refl) (λ x y. refl) };

    fn partial_cmp(&self, other: &Cube) -> Option<Ordering> {
        Some(self.cmp(other))
    }
}

// Cubes are ordered as lists of pairs, and pairs by variable, then by value.
impl Ord for Cube {
    ghost cmp = { cube_cmp };

    ghost total = { cube_total };

    ghost matches_partial_cmp = { λ x y. refl };

    ghost matches_eq = { λ x y. refl };

    fn cmp(&self, other: &Cube) -> Ordering {
        self.pairs.as_slice().cmp(other.pairs.as_slice())
    }
}

// The digest of a list of pairs.
fn digest_of(pairs: &[(u32, u32)]) -> u64
    ensures { result ≡ digest pairs.now }
{
    let mut digest: u64 = 1;
    for (v, x) in pairs {
        let digit = *v as u64 + *x as u64 * 0x1_0000_0000;
        digest = digest.wrapping_mul(DIGEST_BASE).wrapping_add(digit);
    }
    digest
}

// Whether the variables rise strictly.
fn rises(pairs: &[(u32, u32)]) -> bool
    ensures { IsTrue result ↔ IsStrictlyIncreasing (variables pairs.now) }
{
    for i in 1..pairs.len() {
        if pairs[i - 1].0 >= pairs[i].0 {
            return false;
        }
    }
    true
}

// Whether a variable has a pair.
fn has(pairs: &[(u32, u32)], v: u32) -> bool
    ensures { result ≡ names pairs.now v }
{
    pairs.iter().any(|pair| pair.0 == v)
}

// Whether some variable has a pair in both.
fn share(pairs: &[(u32, u32)], others: &[(u32, u32)]) -> bool
    ensures { IsTrue result ↔ Share pairs.now others.now }
{
    for (v, _) in pairs {
        if has(others, *v) {
            return true;
        }
    }
    false
}
