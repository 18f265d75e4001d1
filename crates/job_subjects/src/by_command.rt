//! Makes what a command samples from its input.
ghost use Rattle.std.specs.Prelude.{◌≡◌, ◌≢◌, ◌⊎◌, ◌≤◌, ℕ, List, Some, None, Ok, OnOk, IfOk, IfErr, IsErrOf, Contains};
ghost use Rattle.std.specs.Io.KnownBytes.{IsAtEnd, Consumes};
ghost use Rattle.pop_model.specs.Faults.{Rose};
ghost use Rattle.pop_model.specs.Extremal.{IsExtremal};
ghost use Rattle.dimacs_read.specs.Cnf.{first_empty};
ghost use Rattle.dimacs_read.specs.CnfText.{AnswersCnf};
ghost use Rattle.graph_read.specs.GraphText.{AnswersGraph};
ghost use Rattle.pop_words.specs.declared.command.Command.TheVariants.{Formula as OfFormula, Resample, Orient, Tree, Make, Rounds};
ghost use Rattle.pop_words.specs.Options.{sampling};
ghost use Rattle.pop_print.specs.declared.facts.Facts.TheVariants.{Formula as FormulaFacts};
ghost use Rattle.pop_print.specs.Ends.{AreFactsOf};
ghost use Rattle.job_subjects.specs.declared.refusal.Refusal.TheVariants.{Stopped};
ghost use Rattle.job_subjects.specs.declared.stop.Stop.TheVariants.{ReadFault};
ghost use Rattle.job_subjects.specs.Refusals.{IsPastWords, IsRefusal};
ghost use Rattle.job_subjects.specs.Made.{IsMade};
ghost use Rattle.job_subjects.specs.Refused.{HasNoBadLine, IsStopOr, RefusesText};

use crate::making::{Made, make_formula, make_grid, make_orientation, make_tree};
use crate::reading::{formula_of, graph_of};
use crate::refusal::Refusal;
use crate::wanted::Wanted;
use dimacs_read::Formula;
use graph_read::Graph;
use pop_edge::Source;
use pop_words::Command;
use std::alloc::Global;

// Makes what is wanted of a formula. Events that clash are rejected, except for `resample` and
// `rounds`.
fn made_of_formula(alloc: Global, wanted: Wanted, formula: &Formula) -> Result<Made, Refusal>
    requires command { (wanted.command ≡ OfFormula)
        ⊎ ((wanted.command ≡ Resample) ⊎ (wanted.command ≡ Rounds)) }
    requires filled { first_empty formula.now ≡ None }
    ensures made { (text : List ℕ) → AnswersCnf text (Ok formula.now)
        → IfOk result (λ made. IsMade wanted text made.facts made.instance) }
    ensures told { IfOk result (λ made. AreFactsOf made.facts made.instance) }
    ensures origin { IfOk result (λ made. made.instance.stacks.origin ≡ wanted.origin) }
    ensures extremal { wanted.command ≢ Resample → wanted.command ≢ Rounds
        → IfOk result (λ made. IsExtremal made.instance.family) }
    ensures formula { IfOk result (λ made. (n : ℕ) × (made.facts ≡ FormulaFacts n)) }
    ensures refused { (text : List ℕ) → AnswersCnf text (Ok formula.now)
        → IfErr result (IsRefusal (RefusesText wanted text)) }
    ensures past_words { IfErr result IsPastWords }
    ensures read { IsErrOf result (Stopped ReadFault) → ⊥ }
{
    let Wanted {
        command,
        origin,
        count,
        ..
    } = wanted;
    match command {
        Command::Formula => make_formula(alloc, origin, count, false, formula),
        Command::Resample | Command::Rounds => make_formula(alloc, origin, count, true, formula),
        _ => unreachable!(),
    }
}

// Makes what is wanted of a graph.
fn made_of_graph(alloc: Global, wanted: Wanted, graph: Graph) -> Result<Made, Refusal>
    requires command { (wanted.command ≡ Orient) ⊎ (wanted.command ≡ Tree) }
    requires root { 1 ≤ wanted.root }
    ensures made { (text : List ℕ) → AnswersGraph text (Ok graph)
        → IfOk result (λ made. IsMade wanted text made.facts made.instance) }
    ensures told { IfOk result (λ made. AreFactsOf made.facts made.instance) }
    ensures origin { IfOk result (λ made. made.instance.stacks.origin ≡ wanted.origin) }
    ensures extremal { IfOk result (λ made. IsExtremal made.instance.family) }
    ensures refused { (text : List ℕ) → AnswersGraph text (Ok graph)
        → IfErr result (IsRefusal (RefusesText wanted text)) }
    ensures past_words { IfErr result IsPastWords }
    ensures read { IsErrOf result (Stopped ReadFault) → ⊥ }
{
    let Wanted {
        command,
        origin,
        count,
        root,
        ..
    } = wanted;
    match command {
        Command::Orient => make_orientation(alloc, origin, count, graph),
        Command::Tree => make_tree(alloc, origin, count, root, graph),
        _ => unreachable!(),
    }
}

/// Makes what is wanted of the source's input, or rejects it. The input is checked first, then its
/// structure, then the stacks. A grid is made without the source.
pub fn made_of<S: Source>(alloc: Global, wanted: Wanted, source: &mut S) -> Result<Made, Refusal>
    requires command { Contains sampling wanted.command }
    requires root { 1 ≤ wanted.root }
    requires side { wanted.command ≡ Make → (1 ≤ wanted.side) × (wanted.side ≤ 2048) }
    ensures made { (text : List ℕ) → (S.left source.old ≡ Some text) ⊎ (wanted.command ≡ Make)
        → IfOk result (λ made. IsMade wanted text made.facts made.instance) }
    ensures told { IfOk result (λ made. AreFactsOf made.facts made.instance) }
    ensures origin { IfOk result (λ made. made.instance.stacks.origin ≡ wanted.origin) }
    ensures extremal { wanted.command ≢ Resample → wanted.command ≢ Rounds
        → IfOk result (λ made. IsExtremal made.instance.family) }
    ensures formula { wanted.command ≡ Rounds
        → IfOk result (λ made. (n : ℕ) × (made.facts ≡ FormulaFacts n)) }

    ensures refused { (text : List ℕ) → (S.left source.old ≡ Some text) ⊎ (wanted.command ≡ Make)
        → IfErr result (IsStopOr (RefusesText wanted text)) }
    ensures past_words { IfErr result IsPastWords }
    ensures fault { IsErrOf result (Stopped ReadFault)
        → Rose (S.faults source.old) (S.faults source.new) }
    ensures no_bad_line { IsErrOf result (Stopped ReadFault) → (taken : List ℕ)
        × Consumes (S.left source.old) (S.left source.new) taken
        × HasNoBadLine wanted.command taken }

    ensures unread { wanted.command ≡ Make → source.new ≡ source.old }
    ensures whole { wanted.command ≢ Make → OnOk result (IsAtEnd (S.left source.new)) }
{
    match wanted.command {
        Command::Formula | Command::Resample | Command::Rounds => {
            made_of_formula(alloc, wanted, &formula_of(alloc, source)?)
        }
        Command::Orient | Command::Tree => made_of_graph(alloc, wanted, graph_of(alloc, source)?),
        Command::Make => make_grid(alloc, wanted.origin, wanted.count, wanted.side),
        _ => unreachable!(),
    }
}
