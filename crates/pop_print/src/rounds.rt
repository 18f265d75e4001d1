//! The end of a run by rounds as text.
ghost use Rattle.std.specs.Prelude.{◌≡◌, ◌++◌, ℕ, OnOk, IfOk};
ghost use Rattle.pop_print.specs.declared.facts.Facts.TheVariants.{Formula as FormulaFacts};
ghost use Rattle.pop_print.specs.Ends.{IsOfPairs};
ghost use Rattle.pop_print.specs.Output.{findings};
ghost use Rattle.pop_print.specs.Rounds.{IsShownAt, short_line, rounds_text};

use crate::Facts;
use crate::assignment::push_assignment_of;
use crate::counts::push_used;
use crate::line::push_line;
use crate::printing::room_for;
use crate::stuck::push_stuck;
use pop_instance::Instance;
use pop_text::Output;
use prs_rounds::RoundEnd;
use std::alloc::{AllocError, Global};

// Adds the result: the sample, or the events that occur.
fn push_found(
    out: &mut Output,
    variables: u32,
    instance: &Instance,
    end: &RoundEnd,
) -> Result<(), AllocError>
    requires pairs { IsOfPairs variables instance.now }
    requires end { IsShownAt instance.now end.now.cursors end.now.stuck end.now.values.items }
    ensures { OnOk result (out.new ≡ out.old ++ findings (FormulaFacts variables) instance.now
        end.now.cursors end.now.stuck) }
{
    // Read for its contract, which bounds the units by their type.
    let _units = instance.units();
    if end.stuck.len() == 0 {
        out.push(b"s SAMPLE\n")?;
        push_assignment_of(out, &end.values, variables)
    } else {
        out.push(b"s EXHAUSTED\n")?;
        let facts = Facts::Formula(variables);
        push_stuck(out, &facts, instance.family(), &end.stuck)
    }
}

// Adds the line of the variable without a next entry, if there is one.
fn push_short(out: &mut Output, short: Option<u32>) -> Result<(), AllocError>
    ensures { (variables : ℕ) → OnOk result
        (out.new ≡ out.old ++ short_line (FormulaFacts variables) short) }
{
    match short {
        Some(v) => push_line(out, b"short ", u64::from(v) + 1),
        None => Ok(()),
    }
}

/// The text of the end of a run by rounds, for the events of a formula with this many variables.
/// It has the result and the cursors, as `text` prints them, then `rounds` and their number. If
/// the run is exhausted, `short` follows, with the lowest variable of the resampling set without a
/// next entry. It counts from 1 here.
pub fn text_of_rounds(
    alloc: Global,
    variables: u32,
    instance: &Instance,
    end: &RoundEnd,
) -> Result<Vec<u8>, AllocError>
    requires pairs { IsOfPairs variables instance.now }
    requires end { IsShownAt instance.now end.now.cursors end.now.stuck end.now.values.items }
    ensures { IfOk result (λ bytes. bytes.items ≡ rounds_text (FormulaFacts variables)
        instance.now end.now.cursors end.now.rounds end.now.stuck end.now.short) }
{
    let mut out = Output::with_room(alloc, room_for(&Facts::Formula(variables), variables))?;
    push_found(&mut out, variables, instance, end)?;
    push_used(&mut out, &end.cursors, variables)?;
    push_line(&mut out, b"rounds ", end.rounds)?;
    push_short(&mut out, end.short)?;
    Ok(out.into_bytes())
}
