//! Assignments of a formula that is given as an array of literals, by rounds.
ghost use Rattle.std.specs.Prelude.{◌≡◌, ◌≢◌, ◌+◌, ◌*◌, ◌/◌, ◌<◌, ◌≤◌, ◌^◌, length, None, OnOk, IfOk, IfErr};
ghost use Rattle.dimacs_read.specs.Literals.{cnf_in};
ghost use Rattle.array_calls.specs.declared.formula_refusal.FormulaRefusal.TheVariants.{OutOfMemory};
ghost use Rattle.array_calls.specs.Assignments.{IsFormulaRefusal, LeavesRounded, RefusesLiterals};
ghost use Rattle.array_calls.specs.Draws.{IsOutcome, stopped_at};
ghost use Rattle.array_calls.specs.Trees.{FitFrom, FitsWanted, WantsStops};
ghost use Rattle.array_calls.specs.Values.{value_arrays};

use crate::assigning::{ArrayFormula, events_instance, indexed_events};
use crate::counts::outcome_of;
use crate::draw::Draw;
use crate::formula_refusal::FormulaRefusal;
use crate::outcome::Outcome;
use crate::row_samples::RowSamples;
use crate::value_rows::put_value_samples;
use dimacs_read::formula_of_literals;
use prs_rounds::RoundSamples;
use std::alloc::Global;

/// Puts assignments of any formula into the rows of the arrays, by rounds (Guo, Jerrum and Liu
/// 2019). The formula is an array of literals. There is one row for each pair of counts, and row 0
/// has the sample with the first number.
///
/// The rows are those of `assignments`, except that a pair of counts begins with the number of
/// rounds. The budget counts the rounds of all rows together. If it is spent, the call stops at a
/// row with events that occur, also if no further round can be made there. The next call then finds
/// the row exhausted, without a round.
pub fn assignments_by_rounds(
    alloc: Global,
    asked: ArrayFormula,
    draw: Draw,
    values: &mut [u8],
    useds: &mut [u32],
    counts: &mut [u64],
) -> Result<Outcome, FormulaRefusal>
    requires some { 0 < draw.height }
    requires short { draw.height < 2 ^ 31 }
    requires last { draw.first + length counts.old / 2 ≤ 2 ^ 32 }
    requires from { FitFrom asked.variables draw.height draw.from.now }
    requires values { length values.old ≡ length counts.old / 2 * asked.variables }
    requires useds { FitsWanted asked.variables (length counts.old / 2) useds.old }
    requires stops { WantsStops draw.budget asked.variables (length counts.old / 2) useds.old }
    ensures leaves { IfOk result (λ outcome. LeavesRounded draw.entry.key draw.entry.height
        (cnf_in asked.entry.variables asked.entry.literals.now) draw.entry.first
        draw.entry.from.now draw.entry.budget (length counts.old / 2)
        (value_arrays values.old useds.old counts.old)
        (value_arrays values.new useds.new counts.new) (stopped_at outcome)) }
    ensures outcome { IfOk result (IsOutcome counts.new) }
    ensures size { OnOk result (length counts.new ≡ length counts.old) }
    ensures refused { IfErr result (IsFormulaRefusal
        (RefusesLiterals asked.entry.variables asked.entry.literals.now)) }
    // After an error, except out of memory, the arrays are as they were.
    ensures kept { IfErr result (λ refusal. refusal ≢ OutOfMemory
        → (values.new ≡ values.old) × (useds.new ≡ useds.old) × (counts.new ≡ counts.old)) }
{
    let formula = formula_of_literals(alloc, asked.variables, asked.literals)?;
    let (events, index) = indexed_events(alloc, &formula)?;
    let instance = events_instance(asked.variables, events, draw.key, draw.height)?;
    let samples = RoundSamples::with(&instance, index);
    let stopped = put_value_samples(
        alloc,
        asked.variables,
        &RowSamples::ByRounds(samples),
        draw.first,
        draw.from,
        draw.budget,
        values,
        useds,
        counts,
    )?;
    Ok(outcome_of(stopped, counts))
}
