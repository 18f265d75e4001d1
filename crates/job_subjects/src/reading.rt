//! Reads the input of a command from the source.
ghost use Rattle.std.specs.Prelude.{◌≡◌, ℕ, List, Some, None, Ok, Err, OnOk, IfOk, IfErr, IsErrOf, MatchResult};
ghost use Rattle.std.specs.Io.KnownBytes.{IsAtEnd, Consumes};
ghost use Rattle.pop_model.specs.Faults.{Rose};
ghost use Rattle.dimacs_read.specs.Cnf.{first_empty};
ghost use Rattle.dimacs_read.specs.CnfText.{AnswersCnf, HasNoBadLine as HasNoBadCnfLine};
ghost use Rattle.graph_read.specs.GraphText.{AnswersGraph, HasNoBadLine as HasNoBadGraphLine};
ghost use Rattle.job_subjects.specs.Refusals.{IsPastWords};
ghost use Rattle.job_subjects.specs.Refused.{IsRefusalOf};
ghost use Rattle.job_subjects.specs.declared.refusal.Refusal.TheVariants.{Stopped};
ghost use Rattle.job_subjects.specs.declared.stop.Stop.TheVariants.{ReadFault};

use crate::refusal::Refusal;
use dimacs_read::{Formula, read_formula};
use graph_read::{Graph, read_graph};
use pop_edge::Source;
use std::alloc::Global;

/// The formula that the source contains.
pub fn formula_of<S: Source>(alloc: Global, source: &mut S) -> Result<Formula, Refusal>
    ensures text { (text : List ℕ) → S.left source.old ≡ Some text
        → MatchResult result (λ f. AnswersCnf text (Ok f))
        (IsRefusalOf (λ cause. AnswersCnf text (Err cause))) }
    ensures filled { IfOk result (λ formula. first_empty formula ≡ None) }
    ensures whole { OnOk result (IsAtEnd (S.left source.new)) }
    ensures past_words { IfErr result IsPastWords }
    ensures fault { IsErrOf result (Stopped ReadFault)
        → Rose (S.faults source.old) (S.faults source.new) }
    ensures no_bad_line { IsErrOf result (Stopped ReadFault) → (taken : List ℕ)
        × Consumes (S.left source.old) (S.left source.new) taken × HasNoBadCnfLine taken }
{
    Ok(read_formula(alloc, source)?)
}

/// The graph that the source contains.
pub fn graph_of<S: Source>(alloc: Global, source: &mut S) -> Result<Graph, Refusal>
    ensures text { (text : List ℕ) → S.left source.old ≡ Some text
        → MatchResult result (λ g. AnswersGraph text (Ok g))
        (IsRefusalOf (λ cause. AnswersGraph text (Err cause))) }
    ensures whole { OnOk result (IsAtEnd (S.left source.new)) }
    ensures past_words { IfErr result IsPastWords }
    ensures fault { IsErrOf result (Stopped ReadFault)
        → Rose (S.faults source.old) (S.faults source.new) }
    ensures no_bad_line { IsErrOf result (Stopped ReadFault) → (taken : List ℕ)
        × Consumes (S.left source.old) (S.left source.new) taken × HasNoBadGraphLine taken }
{
    Ok(read_graph(alloc, source)?)
}
