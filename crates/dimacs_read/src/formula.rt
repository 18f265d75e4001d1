ghost use Rattle.std.specs.Prelude.{◌≡◌, ◌<◌, ◌≤◌, ◌^◌, [], ◌∷◌, length, slice_index, slice_index_or};
ghost use Rattle.dimacs_read.specs.Cnf.{AreLiterals};
ghost use Rattle.dimacs_read.specs.Flat.{Rises, parts};

use std::marker::Model;

/// A formula in conjunctive normal form: its number of variables, and the literals of each clause
/// in the order of the input. Literal v is the variable v, from 1, and -v is its negation. It has
/// at most 2^22 variables, 2^22 clauses and 2^25 literals. Clauses count from 0 here.
#[derive(Drop)]
pub struct Formula {
    variables: u32,
    // The literals of all clauses, one clause after another.
    literals: Vec<i32>,
    // The end of each clause.
    ends: Vec<u32>,
}

impl Model for Formula {
    ghost use Rattle.std.specs.Prelude.{length, ◌^◌, ◌≤◌};
    ghost use Rattle.dimacs_read.specs.Cnf.{AreLiterals, Cnf};
    ghost use Rattle.dimacs_read.specs.Flat.{Rises, parts};

    ghost Value = { Cnf };

    ghost view = { λ f. record {
      variables = f.variables;
      clauses = parts f.literals.items 0 f.ends.items;
    } };

    ghost invariant = { λ f. (f.variables ≤ 2 ^ 22) × (length f.ends.items ≤ 2 ^ 22)
        × (length f.literals.items ≤ 2 ^ 25)
        × Rises 0 f.ends.items (length f.literals.items)
        × AreLiterals f.variables (parts f.literals.items 0 f.ends.items) };
}

impl Formula {
    // The formula with these literals and with clauses that end at these places.
    pub(crate) fn of(variables: u32, literals: Vec<i32>, ends: Vec<u32>) -> Formula
        requires variables { variables ≤ 2 ^ 22 }
        requires few { length ends.items ≤ 2 ^ 22 }
        requires room { length literals.items ≤ 2 ^ 25 }
        requires rises { Rises 0 ends.items (length literals.items) }
        requires within { AreLiterals variables (parts literals.items 0 ends.items) }
        ensures { result ≡
            record { variables = variables; clauses = parts literals.items 0 ends.items } }
    {
        Formula {
            variables,
            literals,
            ends,
        }
    }

    /// The number of variables, at most 2^22. Each literal is one of them or its negation.
    pub fn variables(&self) -> u32
        ensures count { result ≡ self.now.variables }
        ensures bound { result ≤ 2 ^ 22 }
        ensures literals { AreLiterals self.now.variables self.now.clauses }
    {
        self.variables
    }

    /// The number of clauses, at most 2^22.
    pub fn clauses(&self) -> u32
        ensures count { result ≡ length self.now.clauses }
        ensures bound { result ≤ 2 ^ 22 }
    {
        self.ends.len() as u32
    }

    /// The literals of clause i in the order of the input, at most 2^25. Clauses count from 0.
    pub fn clause(&self, i: u32) -> &[i32]
        requires { i < length self.now.clauses }
        ensures literals { result.now ≡ slice_index_or self.now.clauses i [] }
        ensures bound { length result.now ≤ 2 ^ 25 }
    {
        clause_at(&self.literals, &self.ends, i as usize)
    }
}

// The start of clause i.
fn start_of(ends: &[u32], i: usize) -> usize
    requires { i < length ends.now }
    ensures { result ≡ slice_index (0 ∷ ends.now) i }
{
    if i == 0 {
        return 0;
    }
    ends[i - 1] as usize
}

#[tactic(auto, using(crate::proofs::FlatLemmas::rises_start, crate::proofs::FlatLemmas::rises_end, crate::proofs::FlatLemmas::part_at))]
fn clause_at<'a>(literals: &'a [i32], ends: &[u32], i: usize) -> &'a [i32]
    requires within { i < length ends.now }
    requires rises { Rises 0 ends.now (length literals.now) }
    ensures part { result.now ≡ slice_index_or (parts literals.now 0 ends.now) i [] }
    ensures bound { length result.now ≤ length literals.now }
{
    let start = start_of(ends, i);
    &literals[start..ends[i] as usize]
}
