//! Formulas from arrays of literals.
ghost use Rattle.std.specs.Prelude.{◌≡◌, ◌-◌, ◌<◌, ◌≤◌, ◌^◌, ◌↔◌, [], length, count_by, nat_abs, pos, slice_index_or, None, IsTrue, IfOk, OnOk, IfErr, IfNone, IfSome};
ghost use Rattle.pop_model.specs.Places.{IsLeast};
ghost use Rattle.dimacs_read.specs.Cnf.{first_empty};
ghost use Rattle.dimacs_read.specs.Literals.{AreClauses, AreOfVariables, HaveRoom, IsEnded, IsLiteralFault, cnf_in, ends_clause, token_at};
ghost use Rattle.dimacs_read.specs.Reading.{Adds, HoldsArray};

use crate::Formula;
use crate::clauses::Clauses;
use crate::finish::first_empty_clause;
use pop_edge::MAX_VARIABLES;
use std::alloc::{AllocError, Global};

/// Why an array of literals is no formula: the first fault in the order of these variants.
#[derive(Clone, Copy, Debug, PartialEq, Eq)]
pub enum LiteralFault {
    /// There are more than 2^22 variables.
    TooManyVariables,
    /// There are more than 2^25 literals, or more than 2^22 clauses.
    TooManyLiterals,
    /// The first place, from 0, of a number that is neither 0 nor a literal of a variable.
    NoLiteral(u32),
    /// The last clause is not ended by a 0.
    Unended,
    /// The lowest number, from 1, of a clause without literals.
    EmptyClause(u32),
    /// Out of memory.
    OutOfMemory,
}

impl From<AllocError> for LiteralFault {
    ghost use Rattle.std.specs.Prelude.{◌≡◌};
    ghost use Rattle.dimacs_read.specs.declared.literals.LiteralFault.TheVariants.{OutOfMemory};

    ghost from_gives = { λ _ fault. fault ≡ OutOfMemory };

    fn from(_: AllocError) -> Self {
        LiteralFault::OutOfMemory
    }
}

const MAX_CLAUSES: usize = 4194304;

const MAX_LITERALS: usize = 33554432;

// The number of clauses that are ended.
fn count_ends(literals: &[i32]) -> usize
    ensures count { result ≡ count_by ends_clause literals.now }
    ensures bound { result ≤ length literals.now }
{
    let mut ends = 0;
    for literal in literals {
        if *literal == 0 {
            ends += 1;
        }
    }
    ends
}

// The first place of a number that is neither 0 nor a literal of these variables.
fn first_beyond(literals: &[i32], variables: u32) -> Option<u32>
    requires { length literals.now < 2 ^ 32 }
    ensures none { IfNone result (AreOfVariables variables literals.now) }
    ensures found { IfSome result (IsLeast (λ k. (k < length literals.now)
        × (variables < nat_abs (slice_index_or literals.now k (pos 0))))) }
{
    for (k, literal) in literals.iter().enumerate() {
        if literal.unsigned_abs() > variables {
            return Some(k as u32);
        }
    }
    None
}

// Whether the last clause is ended.
fn is_ended(literals: &[i32]) -> bool
    ensures { IsTrue result ↔ IsEnded literals.now }
{
    literals.is_empty() || literals[literals.len() - 1] == 0
}

impl Clauses {
    // No clause yet, but room for this many literals and clauses.
    fn with_room(alloc: Global, literals: usize, ends: usize) -> Result<Clauses, AllocError>
        ensures { IfOk result (λ clauses. HoldsArray clauses []) }
    {
        Ok(Clauses {
            literals: Vec::with_capacity(alloc, literals)?,
            ends: Vec::with_capacity(alloc, ends)?,
        })
    }

    // Adds the next number of the array.
    fn put(&mut self, literal: i32) -> Result<(), AllocError>
        requires room { length self.old.literals.items < 2 ^ 32 }
        ensures { OnOk result (Adds self.old self.new (token_at literal)) }
    {
        if literal == 0 {
            self.ends.push(self.literals.len() as u32)?;
        } else {
            self.literals.push(literal)?;
        }
        Ok(())
    }
}

// The clauses of the array. `ends` is the number of those that are ended.
fn cut(alloc: Global, literals: &[i32], ends: usize) -> Result<Clauses, AllocError>
    requires count { ends ≡ count_by ends_clause literals.now }
    requires bound { ends ≤ length literals.now }
    requires room { HaveRoom literals.now }
    ensures { IfOk result (λ clauses. HoldsArray clauses literals.now) }
{
    let mut clauses = Clauses::with_room(alloc, literals.len() - ends, ends)?;
    for literal in literals {
        clauses.put(*literal)?;
    }
    Ok(clauses)
}

// The number of clauses of the array, or the first fault of the array.
fn check_literals(variables: u32, literals: &[i32]) -> Result<usize, LiteralFault>
    ensures clauses { OnOk result (AreClauses variables literals.now) }
    ensures count { IfOk result (λ ends. ends ≡ count_by ends_clause literals.now) }
    ensures bound { IfOk result (λ ends. ends ≤ length literals.now) }
    ensures fault { IfErr result (IsLiteralFault variables literals.now) }
{
    if variables > MAX_VARIABLES {
        return Err(LiteralFault::TooManyVariables);
    }
    let ends = count_ends(literals);
    if ends > MAX_CLAUSES || literals.len() - ends > MAX_LITERALS {
        return Err(LiteralFault::TooManyLiterals);
    }
    if let Some(place) = first_beyond(literals, variables) {
        return Err(LiteralFault::NoLiteral(place));
    }
    if !is_ended(literals) {
        return Err(LiteralFault::Unended);
    }
    Ok(ends)
}

/// The formula with this many variables and with the clauses in `literals`, one after another.
/// Each clause is ended by a 0. Literal v is the variable v, from 1, and -v is its negation.
pub fn formula_of_literals(
    alloc: Global,
    variables: u32,
    literals: &[i32],
) -> Result<Formula, LiteralFault>
    ensures formula { IfOk result (λ formula. formula ≡ cnf_in variables literals.now) }
    ensures no_empty { IfOk result (λ formula. first_empty formula ≡ None) }
    ensures clauses { OnOk result (AreClauses variables literals.now) }
    ensures fault { IfErr result (IsLiteralFault variables literals.now) }
{
    let ends = check_literals(variables, literals)?;
    let clauses = cut(alloc, literals, ends)?;
    match first_empty_clause(&clauses.ends) {
        Some(empty) => Err(LiteralFault::EmptyClause(empty + 1)),
        None => Ok(Formula::of(variables, clauses.literals, clauses.ends)),
    }
}
