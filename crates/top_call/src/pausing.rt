//! Runs that stop after a number of pops. If an event is still poppable then, the answer is a
//! certificate of the run so far. Otherwise it is that of the run to its end.
ghost use Rattle.std.specs.Prelude.{◌≡◌, ◌≢◌, ◌<◌, ◌≤◌, ◌^◌, ℕ, List, Some, length, map, IfOk, IsErrOf};
ghost use Rattle.std.specs.Io.KnownBytes.{Consumes, IsAtEnd};
ghost use Rattle.pop_model.specs.Faults.{Rose};
ghost use Rattle.pop_model.specs.Stacks.{variables_of};
ghost use Rattle.pop_model.specs.Popping.{AreWithin};
ghost use Rattle.pop_model.specs.Extremal.{IsExtremal};
ghost use Rattle.pop_model.specs.Logs.{IsLegal, replay};
ghost use Rattle.pop_model.specs.Runs.{IsEnd, start_of};
ghost use Rattle.confluence_core.specs.Kept.{keeps_log};
ghost use Rattle.confluence_core.specs.Runs.{IsRunOf};
ghost use Rattle.pop_edge.specs.Lines.{text_limit};
ghost use Rattle.pop_words.specs.declared.command.Command.TheVariants.{Resample};
ghost use Rattle.pop_print.specs.Ends.{AreFactsOf};
ghost use Rattle.run_cert.specs.Looks.{HasPoppable, IsSoFar};
ghost use Rattle.top_call.specs.Answers.{ComesOf, IsAsked, wanted_by};
ghost use Rattle.job_subjects.specs.Made.{IsMade};
ghost use Rattle.told_runs.specs.Outcomes.{AnswersBy, HasRun};
ghost use Rattle.top_call.specs.Pauses.{IsPausedAt, MayStop};
ghost use Rattle.told_runs.specs.Results.{IsResultOf, IsTextResult};
ghost use Rattle.job_subjects.specs.Refusals.{IsJudged};
ghost use Rattle.top_call.specs.Whole.{WasRead};
ghost use Rattle.job_subjects.specs.declared.refusal.Refusal.TheVariants.{Stopped};
ghost use Rattle.job_subjects.specs.declared.stop.Stop.TheVariants.{ReadFault};

use crate::sampling::made_for;
use crate::whole::read_whole;
use confluence_core::{End, Keep, Log};
use job_subjects::{Answer, Made, Refusal};
use pop_edge::{SliceSource, Source};
use pop_instance::{Instance, Values};
use pop_log::LayeredLog;
use pop_print::Facts;
use pop_stacks::Reader;
use pop_watch::Watch;
use pop_words::Job;
use pop_workers::Outcome;
use run_cert::{Look, Part, print_cert, run_part};
use std::alloc::{AllocError, Global};
use told_runs::{Asked, Call, names_of, tell_end};

// The largest number of bytes of an input. A longer input is read up to the first byte past the
// limit, so that its grammar rejects it.
const INPUT_LIMIT: usize = 1 << 28;

// The certificate of a run that stopped: the job, its input, and the text of its layered log.
fn tell_pause(
    alloc: Global,
    job: &Job,
    input: &[u8],
    facts: &Facts,
    instance: &Instance,
    log: &Log,
) -> Result<Answer, AllocError>
    requires short { length input.now < 2 ^ 32 }
    requires legal { IsLegal instance.now (start_of instance.now) log.now }
    requires open { HasPoppable instance.now (replay (start_of instance.now) log.now) }
    ensures { IfOk result (λ a. AnswersBy (IsPausedAt job.now input.now facts.now instance.now
        (length log.now)) a.status a.text.items) }
{
    // Read for its contract, which says what holds of every instance.
    let _units = instance.units();
    let placed = LayeredLog::of(alloc, instance.stacks().count(), log)?;
    let names = names_of(facts);
    let log_text = placed.print(alloc, instance, &names)?;
    let text = print_cert(alloc, job, input, &log_text)?;
    Ok(Answer { status: 10, text })
}

// A run that reached an end, with its log if it is to be kept.
fn ended(alloc: Global, instance: &Instance, part: Part, keep: Keep) -> Result<Outcome, AllocError>
    requires part { IsSoFar instance.now part }
    requires count { variables_of instance.now.stacks ≡ length part.cursors }
    requires within { AreWithin instance.now.stacks part.cursors }
    requires end { IsEnd instance.now part.cursors }
    ensures run { IfOk result (IsRunOf instance.now (start_of instance.now) (keeps_log keep)) }
    ensures pops { IfOk result (λ run. run.end.pops ≡ length part.log) }
{
    let Part { cursors, log, seen } = part;
    let mut reader = Reader::keeping(alloc, instance.stacks())?;
    let values = Values::at(alloc, instance.stacks(), &mut reader, &cursors)?;
    let end = End {
        cursors,
        pops: log.len(),
        stuck: seen.stuck,
        values,
    };
    Ok(Outcome {
        end,
        log: keep.kept(log),
    })
}

// Runs the instance for at most this many pops. Returns the certificate if an event is poppable
// then, and otherwise the end.
fn run_up_to<M>(
    call: &mut Call<M>,
    job: &Job,
    pops: u32,
    input: &[u8],
    facts: &Facts,
    instance: &Instance,
) -> Result<Answer, AllocError>
    requires pops { job.now.pops ≡ Some pops }
    requires may { MayStop job.now }
    requires short { length input.now ≤ text_limit }
    requires made { IsMade (wanted_by job.now) input.now facts.now instance.now }
    requires told { AreFactsOf facts.now instance.now }
    requires extremal { job.now.command ≢ Resample → IsExtremal instance.now.family }
    ensures { IfOk result (λ a. AnswersBy (ComesOf job.now
        (map (λ b. (
          (⟦<dyn Watch as Watch>⟧ b.vtable).kind b.value,
          (⟦<dyn Watch as Watch>⟧ b.vtable).state b.value,
        )) call.old.watchers.items) input.now) a.status a.text.items) }
{
    let part = run_part(call.alloc, instance, u64::from(pops))?;
    match part.seen.look {
        Look::Open => tell_pause(call.alloc, job, input, facts, instance, &part.log),
        _ => {
            let asked = Asked::of(job);
            let run = ended(call.alloc, instance, part, asked.keep())?;
            let told = tell_end(call, facts, instance, &run, asked);
            drop(run);
            told
        }
    }
}

// The answer to a job with a limit of pops, for the bytes that were read.
fn judge_and_stop<M>(
    call: &mut Call<M>,
    job: &Job,
    pops: u32,
    input: &[u8],
) -> Result<Answer, Refusal>
    requires pops { job.now.pops ≡ Some pops }
    requires asked { IsAsked job.now }
    ensures answer { IsResultOf (ComesOf job.now
        (map (λ b. (
          (⟦<dyn Watch as Watch>⟧ b.vtable).kind b.value,
          (⟦<dyn Watch as Watch>⟧ b.vtable).state b.value,
        )) call.old.watchers.items) input.now) result }
    ensures status { IsTextResult result }
    ensures short { IfOk result (λ a. HasRun a.status → length input.now ≤ text_limit) }
{
    let mut source = SliceSource::new(input);
    let made = made_for(call.alloc, job, &mut source)?;
    let Made { facts, instance } = made;
    let instance = instance.raised();
    let told = run_up_to(call, job, pops, input, &facts, &instance);
    drop(instance);
    drop(facts);
    Ok(told?)
}

/// The answer to a job with a limit of pops. The source is read completely before a byte of it is
/// checked.
pub fn pause_or_tell<S: Source, M>(
    call: &mut Call<M>,
    job: &Job,
    pops: u32,
    source: &mut S,
) -> Result<Answer, Refusal>
    requires pops { job.now.pops ≡ Some pops }
    requires asked { IsAsked job.now }
    ensures answer { (text : List ℕ) → S.left source.old ≡ Some text
        → (IsErrOf result (Stopped ReadFault) → ⊥)
        → IsResultOf (ComesOf job.now (map (λ b. (
          (⟦<dyn Watch as Watch>⟧ b.vtable).kind b.value,
          (⟦<dyn Watch as Watch>⟧ b.vtable).state b.value,
        )) call.old.watchers.items) text)
        result }
    ensures status { IsTextResult result }
    ensures whole { IfOk result (λ a. HasRun a.status → IsAtEnd (S.left source.new)) }
    ensures read_fault { IsErrOf result (Stopped ReadFault)
        → Rose (S.faults source.old) (S.faults source.new) }
    ensures short { IsErrOf result (Stopped ReadFault) → (taken : List ℕ)
        × Consumes (S.left source.old) (S.left source.new) taken
        × (length taken ≤ text_limit) }
    ensures read { IsJudged result → WasRead text_limit (S.left source.old) (S.left source.new) }
{
    let input = read_whole(call.alloc, source, INPUT_LIMIT)?;
    judge_and_stop(call, job, pops, &input)
}
