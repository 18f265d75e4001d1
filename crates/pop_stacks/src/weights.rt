ghost use Rattle.std.specs.Prelude.{◌≡◌, ◌<◌, ◌^◌, ℕ, List, [], ◌∷◌, length, replicate, All, MatchOption};
ghost use Rattle.pop_model.specs.Stacks.{row_of};
ghost use Rattle.pop_stacks.specs.Rows.{AreWeights};

use crate::Rows;
use std::marker::Model;

// How weights are stored. Two weights of 1 for each variable take no memory.
#[derive(Drop)]
enum KeptWeights {
    Pairs(u32),
    Rows(Rows),
}

/// For each variable the weights of its values, from value 0 on. Each variable has a value, and no
/// weight is 0.
#[derive(Drop)]
pub struct Weights {
    kept: KeptWeights,
}

impl Model for Weights {
    ghost use Rattle.std.specs.Prelude.{ℕ, List};
    ghost use Rattle.pop_stacks.specs.Rows.{AreWeights};
    ghost use Rattle.pop_stacks.specs.Weights.{weights_of};

    ghost Value = { List (List ℕ) };

    ghost view = { λ a. weights_of a.kept };

    ghost invariant = { λ a. AreWeights (weights_of a.kept) };
}

impl Weights {
    /// Two values of weight 1 for each of this many variables.
    pub fn pairs(count: u32) -> Weights
        requires { count < 2 ^ 31 }
        ensures { result ≡ replicate count (1 ∷ 1 ∷ []) }
    {
        Weights {
            kept: KeptWeights::Pairs(count),
        }
    }

    /// The weights of variable v are those of row v.
    pub fn of(rows: Rows) -> Weights
        requires some { All (λ row. 0 < length row) rows }
        requires positive { All (λ row. All (λ weight. 0 < weight) row) rows }
        ensures { result ≡ rows }
    {
        let _count = rows.count();
        Weights {
            kept: KeptWeights::Rows(rows),
        }
    }

    // The number of variables.
    pub(crate) fn count(&self) -> u32
        ensures count { result ≡ length self.now }
        ensures weights { AreWeights self.now }
    {
        match &self.kept {
            KeptWeights::Pairs(count) => *count,
            KeptWeights::Rows(rows) => rows.count(),
        }
    }

    // The number of values of variable v.
    pub(crate) fn slots(&self, v: u32) -> u32
        requires { v < length self.now }
        ensures { result ≡ length (row_of self.now v) }
    {
        match &self.kept {
            KeptWeights::Pairs(_) => 2,
            KeptWeights::Rows(rows) => rows.row(v).len() as u32,
        }
    }

    // The rows of weights, or None if each variable has two values of weight 1.
    pub(crate) fn into_rows(self) -> Option<Rows>
        ensures rows { MatchOption result (self ≡ replicate (length self) (1 ∷ 1 ∷ []))
            (λ rows. self ≡ rows) }
        ensures weights { AreWeights self }
    {
        let Weights { kept } = self;
        match kept {
            KeptWeights::Pairs(_) => None,
            KeptWeights::Rows(rows) => Some(rows),
        }
    }
}
