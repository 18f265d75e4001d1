//! Theorems about the grammar. Each is the contract of a function without arguments.
ghost use Rattle.dimacs_read.specs.Laws.{AcceptsExactly, HasOneFormula};

/// An input is accepted exactly if it is in the grammar. Then its formula is the one that the
/// grammar assigns to it.
pub fn accepts_exactly()
    ensures { AcceptsExactly }
{}

/// An input denotes at most one formula.
pub fn one_formula()
    ensures { HasOneFormula }
{}
