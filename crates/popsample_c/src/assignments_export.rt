//! The export for assignments of formulas in arrays.
ghost use Rattle.std.specs.Prelude.{◌≡◌, ◌≢◌, ◌⊎◌, ◌↔◌, ◌+◌, ◌*◌, ◌<◌, ◌≤◌, ◌/◌, ◌^◌, length, IsTrue, IfErr, IfOk, OnOk};
ghost use Rattle.array_calls.specs.declared.formula_refusal.FormulaRefusal.TheVariants.{OutOfMemory};
ghost use Rattle.array_calls.specs.Assignments.{IsFormulaRefusal};
ghost use Rattle.array_calls.specs.Draws.{AreSamples, IsOutcome, stopped_at};
ghost use Rattle.array_calls.specs.Trees.{FitFrom, FitsWanted, WantsStops};
ghost use Rattle.array_calls.specs.Values.{value_arrays};
ghost use Rattle.dimacs_read.specs.Literals.{cnf_in};
ghost use Rattle.popsample_c.specs.Formulas.{AreUnassigned, EndAssignments, FitVariableRows, IsAssignCall, IsFormulaStatus, LeavesBy, RefusesBy, StopAssignments, formula_told_as};

use crate::drawing::{
    EXHAUSTED, SAMPLES, STOPPED, USAGE, fit_from, fits_wanted, is_drawn, key_of, wants_stops,
};
use array_calls::{
    ArrayFormula, Draw, FormulaRefusal, Outcome, assignments, assignments_by_rounds,
};
use dimacs_read::LiteralFault;
use std::alloc::Global;

// The status, the kind and the place of a refusal.
fn formula_told(refusal: FormulaRefusal) -> (u32, u64, u64)
    ensures { result ≡ formula_told_as refusal }
{
    match refusal {
        FormulaRefusal::NoFormula(fault) => match fault {
            LiteralFault::TooManyVariables => (4, 11, 0),
            LiteralFault::TooManyLiterals => (4, 12, 0),
            LiteralFault::NoLiteral(place) => (3, 13, place as u64),
            LiteralFault::Unended => (3, 14, 0),
            LiteralFault::EmptyClause(number) => (6, 15, number as u64),
            LiteralFault::OutOfMemory => (9, 0, 0),
        },
        FormulaRefusal::Clash(number, other) => {
            (5, 16, number as u64 * (1 << 32) + other as u64)
        }
        FormulaRefusal::OutOfMemory => (9, 0, 0),
    }
}

// Whether arrays have this many rows with a number for each variable.
fn fit_variable_rows(variables: u32, count: usize, values: &[u8], useds: &[u32]) -> bool
    requires { count ≤ 2 ^ 32 }
    ensures { IsTrue result ↔ FitVariableRows variables count values.now useds.now }
{
    values.len() == count * variables as usize && fits_wanted(variables as usize, count, useds)
}

// Whether it is a call for assignments, with arrays that have one row for each pair of counts.
fn is_assign_call(
    variables: u32,
    by_rounds: u32,
    key: &[u8],
    height: u32,
    first: u32,
    from: &[u32],
    budget: u64,
    values: &[u8],
    useds: &[u32],
    counts: &[u64],
) -> bool
    ensures { IsTrue result ↔ IsAssignCall variables by_rounds key.now height first from.now budget
        values.now useds.now counts.now }
{
    let count = counts.len() / 2;
    by_rounds < 2
        && is_drawn(key, height, first, count)
        && fit_variable_rows(variables, count, values, useds)
        && fit_from(variables as usize, height, from)
        && wants_stops(budget, variables as usize, count, useds)
}

// Puts assignments into the rows of the arrays, by popping (0) or by rounds.
fn drawn_by(
    alloc: Global,
    by_rounds: u32,
    asked: ArrayFormula,
    draw: Draw,
    values: &mut [u8],
    useds: &mut [u32],
    counts: &mut [u64],
) -> Result<Outcome, FormulaRefusal>
    requires some { 0 < draw.height }
    requires short { draw.height < 2 ^ 31 }
    requires last { draw.first + length counts.old / 2 ≤ 2 ^ 32 }
    requires from { FitFrom asked.variables draw.height draw.from.now }
    requires values { length values.old ≡ length counts.old / 2 * asked.variables }
    requires useds { FitsWanted asked.variables (length counts.old / 2) useds.old }
    requires stops { WantsStops draw.budget asked.variables (length counts.old / 2) useds.old }
    ensures leaves { IfOk result (λ outcome. LeavesBy by_rounds draw.entry.key draw.entry.height
        (cnf_in asked.entry.variables asked.entry.literals.now) draw.entry.first
        draw.entry.from.now draw.entry.budget (length counts.old / 2)
        (value_arrays values.old useds.old counts.old)
        (value_arrays values.new useds.new counts.new) (stopped_at outcome)) }
    ensures outcome { IfOk result (IsOutcome counts.new) }
    ensures size { OnOk result (length counts.new ≡ length counts.old) }
    ensures refused { IfErr result (IsFormulaRefusal
        (RefusesBy by_rounds asked.entry.variables asked.entry.literals.now)) }
    ensures kept { IfErr result (λ refusal. refusal ≢ OutOfMemory
        → (values.new ≡ values.old) × (useds.new ≡ useds.old) × (counts.new ≡ counts.old)) }
{
    if by_rounds == 0 {
        assignments(alloc, asked, draw, values, useds, counts)
    } else {
        assignments_by_rounds(alloc, asked, draw, values, useds, counts)
    }
}

/// Draws assignments of the formula in an array of literals, one for each pair of `counts`. They
/// are drawn by popping, or by rounds if `by_rounds` is 1. Row 0 has the sample with the number
/// `first`, which continues from the cursors `from`. `kind` and `place` say why the input is
/// rejected. If the budget was spent, `place` is the row.
#[unsafe(no_mangle)]
pub extern "C" fn popsample_assignments(
    alloc: Global,
    variables: u32,
    literals: &[i32],
    by_rounds: u32,
    key: &[u8],
    height: u32,
    first: u32,
    from: &[u32],
    budget: u64,
    values: &mut [u8],
    useds: &mut [u32],
    counts: &mut [u64],
    kind: &mut u64,
    place: &mut u64,
) -> u32
    // Each row of the arrays has the end of its sample, within the budget. With status 0 each row
    // is an assignment that satisfies the formula.
    ensures rows { result < 2 → EndAssignments variables literals.now by_rounds key.now height first
        from.now budget (length counts.old / 2) (value_arrays values.old useds.old counts.old)
        (value_arrays values.new useds.new counts.new) }
    ensures satisfied { result ≡ 0 → AreSamples (length counts.old / 2) counts.new }
    ensures exhausted { result ≡ 1 → AreSamples (length counts.old / 2) counts.new → ⊥ }

    // Or the budget was spent at a row.
    ensures stopped { result ≡ 10 → StopAssignments variables literals.now by_rounds key.now height
        first from.now budget (length counts.old / 2) (value_arrays values.old useds.old counts.old)
        (value_arrays values.new useds.new counts.new) place.new }

    // Otherwise the call is wrong, or the input is rejected for this reason, or memory ran out.
    ensures usage { (result ≡ 2) ↔ (IsAssignCall variables by_rounds key.now height first from.now
        budget values.old useds.old counts.old → ⊥) }
    ensures refused { 2 < result → result < 9 → AreUnassigned variables literals.now by_rounds
        result kind.new place.new }
    ensures statuses { IsFormulaStatus result }

    // Then the arrays stay as they were, unless memory ran out.
    ensures kept { 2 ≤ result → result < 9 → (values.new ≡ values.old)
        × (useds.new ≡ useds.old) × (counts.new ≡ counts.old) }
    ensures no_kind { (result < 3) ⊎ (9 ≤ result) → kind.new ≡ 0 }
    ensures no_place { (result < 3) ⊎ (result ≡ 9) → place.new ≡ 0 }
{
    *kind = 0;
    *place = 0;
    if !is_assign_call(
        variables, by_rounds, key, height, first, from, budget, values, useds, counts,
    ) {
        return USAGE;
    }
    let asked = ArrayFormula {
        variables,
        literals,
    };
    let draw = Draw {
        key: key_of(key),
        height,
        first,
        from,
        budget,
    };
    match drawn_by(alloc, by_rounds, asked, draw, values, useds, counts) {
        Ok(Outcome::Samples) => SAMPLES,
        Ok(Outcome::Exhausted) => EXHAUSTED,
        Ok(Outcome::Stopped(row)) => {
            *place = row as u64;
            STOPPED
        }
        Err(refusal) => {
            let (status, of_kind, at) = formula_told(refusal);
            *kind = of_kind;
            *place = at;
            status
        }
    }
}
