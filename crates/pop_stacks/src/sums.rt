ghost use Rattle.std.specs.Prelude.{◌≡◌, ◌<◌, ◌≤◌, ◌+◌, ◌*◌, ◌^◌, ◌↔◌, ℕ, List, [], ◌∷◌, length, OnOk, IfOk, IfErr, IsTrue};
ghost use Rattle.pop_model.specs.Stacks.{row_of, weighted};
ghost use Rattle.pop_model.specs.Places.{IsLeast};
ghost use Rattle.pop_stacks.specs.Faults.{AreLight, IsTooHeavy};
ghost use Rattle.pop_stacks.specs.Draws.{AreDrawn};
ghost use Rattle.pop_stacks.specs.Rows.{AreWeights};

use crate::drawing::draw;
use crate::drawing_many::{draw_all, draw_pairs};
use crate::{Rows, Weights};
use std::alloc::{AllocError, Global};
use std::marker::Model;

// How running sums are stored. Two weights of 1 have the sums 1 and 2, which take no memory.
#[derive(Drop)]
enum KeptSums {
    Pairs(u32),
    Rows(Rows),
}

/// Weights, stored as running sums so that binary search can draw a value. Contracts see the
/// weights.
#[derive(Drop)]
pub struct Sums {
    kept: KeptSums,
}

impl Model for Sums {
    ghost use Rattle.std.specs.Prelude.{ℕ, List, map};
    ghost use Rattle.pop_stacks.specs.Draws.{differences, AreRunning};
    ghost use Rattle.pop_stacks.specs.Sums.{sums_of};

    ghost Value = { List (List ℕ) };

    ghost view = { λ a. map (differences 0) (sums_of a.kept) };

    ghost invariant = { λ a. AreRunning (sums_of a.kept) };
}

// The sums of rows of weights, made in place.
fn sums_of_rows(rows: Rows) -> Result<Sums, u32>
    requires { AreWeights rows }
    ensures made { IfOk result (λ sums. sums ≡ rows) }
    ensures light { OnOk result (AreLight rows) }
    ensures heavy { IfErr result (IsLeast (IsTooHeavy rows)) }
{
    let sums = rows.into_sums()?;
    Ok(Sums {
        kept: KeptSums::Rows(sums),
    })
}

impl Sums {
    /// The sums of these weights. The error is the lowest variable with weights that sum to more
    /// than 2^32 - 1.
    pub fn of(weights: Weights) -> Result<Sums, u32>
        ensures made { IfOk result (λ sums. sums ≡ weights) }
        ensures light { OnOk result (AreLight weights) }
        ensures heavy { IfErr result (IsLeast (IsTooHeavy weights)) }
    {
        let count = weights.count();
        match weights.into_rows() {
            None => Ok(Sums {
                kept: KeptSums::Pairs(count),
            }),
            Some(rows) => sums_of_rows(rows),
        }
    }

    /// A copy of these sums.
    pub fn copy(&self, alloc: Global) -> Result<Sums, AllocError>
        ensures { IfOk result (λ sums. sums ≡ self.now) }
    {
        match &self.kept {
            KeptSums::Pairs(count) => Ok(Sums {
                kept: KeptSums::Pairs(*count),
            }),
            KeptSums::Rows(rows) => {
                let rows = rows.copy(alloc)?;
                Ok(Sums {
                    kept: KeptSums::Rows(rows),
                })
            }
        }
    }

    /// The number of variables.
    pub fn count(&self) -> u32
        ensures count { result ≡ length self.now }
        ensures short { result < 2 ^ 31 }
    {
        match &self.kept {
            KeptSums::Pairs(count) => *count,
            KeptSums::Rows(rows) => rows.count(),
        }
    }

    /// Whether every variable has at most this many values.
    pub fn have_at_most(&self, values: u32) -> bool
        ensures { IsTrue result
            ↔ ((v : ℕ) → v < length self.now → length (row_of self.now v) ≤ values) }
    {
        for v in 0..self.count() {
            if self.slots(v) > values {
                return false;
            }
        }
        true
    }

    /// The number of values of variable v.
    pub fn slots(&self, v: u32) -> u32
        requires { v < length self.now }
        ensures { result ≡ length (row_of self.now v) }
    {
        match &self.kept {
            KeptSums::Pairs(_) => 2,
            KeptSums::Rows(rows) => rows.row(v).len() as u32,
        }
    }

    /// The value that the two words of an entry, low word first, select for variable v.
    pub fn draw(&self, v: u32, low: u32, high: u32) -> u32
        requires { v < length self.now }
        ensures value { result ≡ weighted (row_of self.now v) (low + 2 ^ 32 * high) }
        ensures within { result < length (row_of self.now v) }
    {
        match &self.kept {
            // With two equal weights the top bit of the number chooses.
            KeptSums::Pairs(_) => high >> 31,
            KeptSums::Rows(rows) => draw(rows.row(v), low, high),
        }
    }

    /// The values that the words of entries, from place `at` on, select for variable v. It has at
    /// most 256 values.
    pub fn draw_many<const N: usize>(&self, v: u32, words: &[u32; 64], at: usize) -> [u8; N]
        requires known { v < length self.now }
        requires small { length (row_of self.now v) ≤ 256 }
        requires place { at + 2 * N ≤ 64 }
        ensures { AreDrawn (row_of self.now v) words.now at N result }
    {
        match &self.kept {
            KeptSums::Pairs(_) => draw_pairs(words, at),
            KeptSums::Rows(rows) => draw_all(rows.row(v), words, at),
        }
    }
}
