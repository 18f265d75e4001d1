//! Assignments of a formula that is given as an array of literals, by popping.
ghost use Rattle.std.specs.Prelude.{◌≡◌, ◌≢◌, ◌+◌, ◌*◌, ◌/◌, ◌<◌, ◌≤◌, ◌^◌, length, None, OnOk, IfOk, IfErr};
ghost use Rattle.pop_model.specs.Extremal.{IsExtremal};
ghost use Rattle.pop_model.specs.Families.Family.{Listed as ListedEvents};
ghost use Rattle.pop_instance.specs.Index.{IsIndex};
ghost use Rattle.dimacs_read.specs.Cnf.{first_empty};
ghost use Rattle.dimacs_read.specs.Falsifying.{AreEventsOf};
ghost use Rattle.dimacs_read.specs.Literals.{cnf_in};
ghost use Rattle.array_calls.specs.declared.formula_refusal.FormulaRefusal.TheVariants.{OutOfMemory};
ghost use Rattle.array_calls.specs.Assignments.{HasClashOf, IsFormulaRefusal, LeavesAssignments, RefusesExtremal};
ghost use Rattle.pop_instance.specs.Events.{FitVariables};
ghost use Rattle.array_calls.specs.Draws.{IsOutcome, stopped_at};
ghost use Rattle.array_calls.specs.Trees.{FitFrom, FitsWanted, WantsStops};
ghost use Rattle.array_calls.specs.Values.{pairs_under, value_arrays};

use crate::counts::outcome_of;
use crate::draw::Draw;
use crate::formula_refusal::FormulaRefusal;
use crate::orienting::pair_stacks;
use crate::outcome::Outcome;
use crate::row_samples::RowSamples;
use crate::value_rows::put_value_samples;
use dimacs_read::{Formula, formula_of_literals};
use extremal_check::{Verdict, check};
use pop_batch::Samples;
use pop_instance::{Events, Family, Index, Instance};
use std::alloc::{AllocError, Global};

/// A formula as an array of literals.
#[derive(Clone, Copy)]
pub struct ArrayFormula<'a> {
    pub variables: u32,
    /// The literals of each clause, and a 0 at its end. Literal v is the variable v, from 1, and
    /// -v is its negation.
    pub literals: &'a [i32],
}

/// The events of a formula without empty clauses, and their index.
pub(crate) fn indexed_events(
    alloc: Global,
    formula: &Formula,
) -> Result<(Events, Index), AllocError>
    requires no_empty { first_empty formula.now ≡ None }
    ensures events { IfOk result (λ made. AreEventsOf formula.now.clauses made.0) }
    ensures fit { IfOk result (λ made. FitVariables formula.now.variables made.0) }
    ensures index { IfOk result (λ made. IsIndex made.0 made.1) }
    ensures count { IfOk result (λ made. length made.1 ≡ formula.now.variables) }
{
    let events = formula.events(alloc)?;
    let index = Index::build(alloc, &events, formula.variables())?;
    Ok((events, index))
}

/// The instance of events over this many variables with two values.
pub(crate) fn events_instance(
    variables: u32,
    events: Events,
    key: [u8; 32],
    height: u32,
) -> Result<Instance, AllocError>
    requires few { variables < 2 ^ 31 }
    requires some { 0 < height }
    requires short { height < 2 ^ 31 }
    requires fit { FitVariables variables events }
    ensures { IfOk result (λ i. i ≡ pairs_under key height variables events) }
{
    let stacks = pair_stacks(variables, key, height)?;
    match Instance::new(stacks, Family::Listed(events)) {
        Some(instance) => Ok(instance),
        None => unreachable!(),
    }
}

// Rejects a formula with events that clash.
fn check_extremal(alloc: Global, events: &Events, index: &Index) -> Result<(), FormulaRefusal>
    requires index { IsIndex events.now index.now }
    ensures extremal { OnOk result (IsExtremal (ListedEvents events.now)) }
    ensures refused { IfErr result (IsFormulaRefusal (HasClashOf events.now)) }
{
    match check(alloc, events, index)? {
        Verdict::Extremal => Ok(()),
        Verdict::Clash(number, other) => Err(FormulaRefusal::Clash(number, other)),
    }
}

/// Draws assignments of the extremal formula in an array of literals, by popping, as many as there
/// are pairs of counts. They are those of the samples from the first number on, and are stored in
/// the rows of the arrays.
///
/// A row has a number for each variable. In `values` it is 0 if the variable is false, and 1 if it
/// is true. In `useds` it is the number of entries that were consumed. With a budget the call may
/// stop at a row, as `trees` does.
pub fn assignments(
    alloc: Global,
    asked: ArrayFormula,
    draw: Draw,
    values: &mut [u8],
    useds: &mut [u32],
    counts: &mut [u64],
) -> Result<Outcome, FormulaRefusal>
    requires some { 0 < draw.height }
    requires short { draw.height < 2 ^ 31 }
    requires last { draw.first + length counts.old / 2 ≤ 2 ^ 32 }
    requires from { FitFrom asked.variables draw.height draw.from.now }
    requires values { length values.old ≡ length counts.old / 2 * asked.variables }
    requires useds { FitsWanted asked.variables (length counts.old / 2) useds.old }
    requires stops { WantsStops draw.budget asked.variables (length counts.old / 2) useds.old }
    ensures leaves { IfOk result (λ outcome. LeavesAssignments draw.entry.key draw.entry.height
        (cnf_in asked.entry.variables asked.entry.literals.now) draw.entry.first
        draw.entry.from.now draw.entry.budget (length counts.old / 2)
        (value_arrays values.old useds.old counts.old)
        (value_arrays values.new useds.new counts.new) (stopped_at outcome)) }
    ensures outcome { IfOk result (IsOutcome counts.new) }
    ensures size { OnOk result (length counts.new ≡ length counts.old) }
    ensures refused { IfErr result (IsFormulaRefusal
        (RefusesExtremal asked.entry.variables asked.entry.literals.now)) }
    // After an error, except out of memory, the arrays are as they were.
    ensures kept { IfErr result (λ refusal. refusal ≢ OutOfMemory
        → (values.new ≡ values.old) × (useds.new ≡ useds.old) × (counts.new ≡ counts.old)) }
{
    let formula = formula_of_literals(alloc, asked.variables, asked.literals)?;
    let (events, index) = indexed_events(alloc, &formula)?;
    check_extremal(alloc, &events, &index)?;
    let instance = events_instance(asked.variables, events, draw.key, draw.height)?;
    let samples = Samples::with(&instance, index);
    let stopped = put_value_samples(
        alloc,
        asked.variables,
        &RowSamples::ByPopping(samples),
        draw.first,
        draw.from,
        draw.budget,
        values,
        useds,
        counts,
    )?;
    Ok(outcome_of(stopped, counts))
}
