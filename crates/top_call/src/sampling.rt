//! The commands that sample: they make what a job wants of an input, sample it and print it.
ghost use Rattle.std.specs.Prelude.{◌≡◌, ◌≢◌, ◌⊎◌, ℕ, List, None, Some, map, IfOk, IfErr, OnOk, IsErrOf, Contains};
ghost use Rattle.std.specs.Io.KnownBytes.{IsAtEnd, Consumes};
ghost use Rattle.pop_model.specs.Faults.{Rose};
ghost use Rattle.pop_model.specs.Extremal.{IsExtremal};
ghost use Rattle.pop_words.specs.declared.command.Command.TheVariants.{Make, Resample, Rounds};
ghost use Rattle.pop_words.specs.Options.{sampling};
ghost use Rattle.pop_print.specs.declared.facts.Facts.TheVariants.{Formula as FormulaFacts};
ghost use Rattle.pop_print.specs.Ends.{AreFactsOf};
ghost use Rattle.job_subjects.specs.Made.{IsMade};
ghost use Rattle.job_subjects.specs.Refused.{HasNoBadLine, IsStopOr, RefusesText};
ghost use Rattle.job_subjects.specs.Refusals.{IsPastWords};
ghost use Rattle.job_subjects.specs.declared.refusal.Refusal.TheVariants.{Stopped};
ghost use Rattle.job_subjects.specs.declared.stop.Stop.TheVariants.{ReadFault};
ghost use Rattle.told_runs.specs.Asking.{asked_by};
ghost use Rattle.told_runs.specs.Outcomes.{AnswersBy};
ghost use Rattle.top_call.specs.Answers.{EndsAs, IsAsked, origin_for, wanted_by};

use growing_instances::GrowingInstance;
use job_subjects::{Answer, Made, Refusal, StackOrigin, Wanted, copy_spec, made_of};
use pop_edge::Source;
use pop_print::Facts;
use pop_watch::Watch;
use pop_words::{Command, Job};
use run_makers::{Maker, Opening};
use std::alloc::{AllocError, Global};
use told_runs::{Asked, Call, batch_and_tell, round_and_tell, tell_sampled};

/// What a job wants, made of the source's input, or the error.
pub fn made_for<S: Source>(alloc: Global, job: &Job, source: &mut S) -> Result<Made, Refusal>
    requires asked { IsAsked job.now }
    requires command { Contains sampling job.now.command }
    ensures made { (text : List ℕ) → (S.left source.old ≡ Some text) ⊎ (job.now.command ≡ Make)
        → IfOk result (λ made. IsMade (wanted_by job.now) text made.facts made.instance) }
    ensures told { IfOk result (λ made. AreFactsOf made.facts made.instance) }
    ensures origin { IfOk result (λ made. made.instance.stacks.origin ≡ origin_for job.now) }
    ensures extremal { job.now.command ≢ Resample → job.now.command ≢ Rounds
        → IfOk result (λ made. IsExtremal made.instance.family) }
    ensures formula { job.now.command ≡ Rounds
        → IfOk result (λ made. (n : ℕ) × (made.facts ≡ FormulaFacts n)) }

    ensures refused { (text : List ℕ) → (S.left source.old ≡ Some text) ⊎ (job.now.command ≡ Make)
        → IfErr result (IsStopOr (RefusesText (wanted_by job.now) text)) }
    ensures past_words { IfErr result IsPastWords }
    ensures fault { IsErrOf result (Stopped ReadFault)
        → Rose (S.faults source.old) (S.faults source.new) }
    ensures no_bad_line { IsErrOf result (Stopped ReadFault) → (taken : List ℕ)
        × Consumes (S.left source.old) (S.left source.new) taken
        × HasNoBadLine job.now.command taken }

    ensures unread { job.now.command ≡ Make → source.new ≡ source.old }
    ensures whole { job.now.command ≢ Make → OnOk result (IsAtEnd (S.left source.new)) }
{
    let spec = copy_spec(alloc, &job.stacks)?;
    let origin = StackOrigin::new(spec, job.height, job.grow);
    let wanted = Wanted {
        command: job.command,
        origin,
        count: job.count,
        root: job.root,
        side: job.size,
    };
    made_of(alloc, wanted, source)
}

/// Samples what was made, and prints the end: by rounds, the requested number of samples, or one
/// run.
pub fn sample_made<M: Maker>(
    call: &mut Call<M>,
    job: &Job,
    facts: &Facts,
    growing: GrowingInstance,
) -> Result<Answer, AllocError>
    requires maker { M.fits call.old.maker.now }
    requires asked { IsAsked job.now }
    requires run_out { job.now.pops ≡ None }
    requires told { AreFactsOf facts.now growing }
    requires origin { growing.stacks.origin ≡ origin_for job.now }
    requires extremal { job.now.command ≢ Resample → job.now.command ≢ Rounds
        → IsExtremal growing.family }
    requires formula { job.now.command ≡ Rounds → (n : ℕ) × (facts.now ≡ FormulaFacts n) }
    ensures { IfOk result (λ a. AnswersBy (EndsAs job.now.command (asked_by job.now)
        (map (λ b. (
          (⟦<dyn Watch as Watch>⟧ b.vtable).kind b.value,
          (⟦<dyn Watch as Watch>⟧ b.vtable).state b.value,
        )) call.old.watchers.items) facts.now growing) a.status a.text.items) }
{
    if let Command::Rounds = job.command {
        return round_and_tell(call, growing);
    }
    let asked = Asked::of(job);
    if let Some(count) = asked.count {
        return batch_and_tell(call, facts, growing, asked, count);
    }
    let (run, instance) = call.maker.run(Opening {
        alloc: call.alloc,
        crew: call.crew,
        growing,
        keep: asked.keep(),
    })?;
    tell_sampled(call, facts, instance, run, asked)
}
