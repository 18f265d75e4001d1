//! The command `check`: whether a formula's events are extremal.
ghost use Rattle.std.specs.Prelude.{◌≡◌, ℕ, List, None, Some, OnOk, IsErrOf};
ghost use Rattle.std.specs.Io.KnownBytes.{IsAtEnd, Consumes};
ghost use Rattle.pop_model.specs.Faults.{Rose};
ghost use Rattle.dimacs_read.specs.Cnf.{first_empty};
ghost use Rattle.dimacs_read.specs.CnfText.{HasNoBadLine};
ghost use Rattle.job_subjects.specs.declared.refusal.Refusal.TheVariants.{Stopped};
ghost use Rattle.job_subjects.specs.declared.stop.Stop.TheVariants.{ReadFault};
ghost use Rattle.told_runs.specs.Results.{IsResultOf, IsTextResult};
ghost use Rattle.top_call.specs.Checks.{ComesOfFormula, ComesOfChecking};

use dimacs_read::Formula;
use job_subjects::{Answer, Refusal, formula_of, refuse_clash, told_in_line};
use pop_edge::Source;
use std::alloc::Global;

// Whether the formula's events are extremal, as an answer.
fn check_formula(alloc: Global, formula: &Formula) -> Result<Answer, Refusal>
    requires filled { first_empty formula.now ≡ None }
    ensures { IsResultOf (ComesOfFormula formula.now) result }
{
    let events = formula.events(alloc)?;
    refuse_clash(alloc, false, formula.variables(), &events)?;
    Ok(told_in_line(alloc, 0, "EXTREMAL", &[events.count() as u64])?)
}

/// The answer of `check`: whether the events of the formula that the source contains are extremal.
pub fn check<S: Source>(alloc: Global, source: &mut S) -> Result<Answer, Refusal>
    ensures answer { (text : List ℕ) → S.left source.old ≡ Some text
        → (IsErrOf result (Stopped ReadFault) → ⊥)
        → IsResultOf (ComesOfChecking text) result }
    ensures status { IsTextResult result }
    ensures whole { OnOk result (IsAtEnd (S.left source.new)) }
    ensures read_fault { IsErrOf result (Stopped ReadFault)
        → Rose (S.faults source.old) (S.faults source.new) }
    ensures no_bad_line { IsErrOf result (Stopped ReadFault) → (taken : List ℕ)
        × Consumes (S.left source.old) (S.left source.new) taken × HasNoBadLine taken }
{
    let formula = formula_of(alloc, source)?;
    check_formula(alloc, &formula)
}
