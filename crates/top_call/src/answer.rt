//! The answer to command-line arguments and a source.
ghost use Rattle.std.specs.Prelude.{◌≡◌, ◌≢◌, ◌⊎◌, ◌≤◌, ℕ, List, length, Some, map, string_bytes, IfOk, OnOk, MatchResult, IsErrOf};
ghost use Rattle.std.specs.Io.KnownBytes.{IsAtEnd, Consumes};
ghost use Rattle.pop_model.specs.Faults.{Rose};
ghost use Rattle.pop_words.specs.CommandLines.{AreWords, Asks, IsBadPlace};
ghost use Rattle.pop_words.specs.declared.job.Job.{Job};
ghost use Rattle.pop_words.specs.declared.command.Command.TheVariants.{Make};
ghost use Rattle.pop_words.specs.declared.command.Input.TheVariants.{Certificate};
ghost use Rattle.pop_words.specs.Options.{input_of};
ghost use Rattle.top_call.specs.TopCall.{HasReadFault};
ghost use Rattle.top_call.specs.Answers.{IsAnswer, IsAsked, AskForGrid, IsInput, MayFailBehind, WasReadWhole, ComesBy};
ghost use Rattle.top_call.specs.Replays.{cert_limit};
ghost use Rattle.top_call.specs.Whole.{WasRead};
ghost use Rattle.told_runs.specs.Outcomes.{IsAnswerStatus, HasRun};
ghost use Rattle.told_runs.specs.Results.{IsResultOf, IsTextResult};
ghost use Rattle.job_subjects.specs.Refusals.{IsJudged, refusal_line};
ghost use Rattle.job_subjects.specs.declared.refusal.Refusal.TheVariants.{Usage, Stopped};
ghost use Rattle.job_subjects.specs.declared.stop.Stop.TheVariants.{ReadFault, OutOfMemory};

use crate::checking::check;
use crate::pausing::pause_or_tell;
use crate::replaying::{read_accepted, tell_accepted};
use crate::resuming::go_on;
use crate::sampling::{made_for, sample_made};
use job_subjects::{Answer, Made, Refusal, Stop};
use pop_edge::Source;
use pop_watch::Watch;
use pop_words::{Command, Input, Job, read_words};
use run_makers::{Crew, Maker};
use std::alloc::Global;
use told_runs::Call;

// The answer to the certificate that the source contains. It is the state of the certificate's
// run, or the end of the continued run, as the line of the certificate's command prints it.
fn answer_cert<S: Source, M: Maker>(
    call: &mut Call<M>,
    job: &Job,
    source: &mut S,
) -> Result<Answer, Refusal>
    requires maker { M.fits call.old.maker.now }
    requires cert { input_of job.now.command ≡ Certificate }
    ensures answer { (text : List ℕ) → S.left source.old ≡ Some text
        → (IsErrOf result (Stopped ReadFault) → ⊥)
        → IsResultOf (ComesBy job.now.command job.now (map (λ b. (
          (⟦<dyn Watch as Watch>⟧ b.vtable).kind b.value,
          (⟦<dyn Watch as Watch>⟧ b.vtable).state b.value,
        )) call.old.watchers.items)
        text) result }
    ensures status { IsTextResult result }
    ensures whole { OnOk result (IsAtEnd (S.left source.new)) }
    ensures read_fault { IsErrOf result (Stopped ReadFault)
        → Rose (S.faults source.old) (S.faults source.new) }
    ensures short { IsErrOf result (Stopped ReadFault) → (taken : List ℕ)
        × Consumes (S.left source.old) (S.left source.new) taken × (length taken ≤ cert_limit) }
    ensures read { IsJudged result → WasRead cert_limit (S.left source.old) (S.left source.new) }
{
    let accepted = read_accepted(call.alloc, source)?;
    if let Command::Resume = job.command {
        return Ok(go_on(call, accepted)?);
    }
    let told = tell_accepted(call.alloc, &accepted);
    drop(accepted);
    Ok(told?)
}

// The answer to a job. For a job with a limit of pops the source is read completely first, and
// also for a certificate, which is replayed or resumed.
fn answer_job<S: Source, M: Maker>(
    call: &mut Call<M>,
    job: &Job,
    source: &mut S,
) -> Result<Answer, Refusal>
    requires maker { M.fits call.old.maker.now }
    requires asked { IsAsked job.now }
    ensures answer { (text : List ℕ) → (S.left source.old ≡ Some text) ⊎ (job.now.command ≡ Make)
        → (IsErrOf result (Stopped ReadFault) → ⊥)
        → IsResultOf (ComesBy job.now.command job.now (map (λ b. (
          (⟦<dyn Watch as Watch>⟧ b.vtable).kind b.value,
          (⟦<dyn Watch as Watch>⟧ b.vtable).state b.value,
        )) call.old.watchers.items)
        text) result }
    ensures status { IsTextResult result }
    ensures unread { job.now.command ≡ Make → source.new ≡ source.old }
    ensures whole { IfOk result (λ a.
        HasRun a.status → job.now.command ≢ Make → IsAtEnd (S.left source.new)) }
    ensures read_fault { IsErrOf result (Stopped ReadFault)
        → Rose (S.faults source.old) (S.faults source.new) }
    ensures no_bad_line { IsErrOf result (Stopped ReadFault) → (taken : List ℕ)
        × Consumes (S.left source.old) (S.left source.new) taken
        × MayFailBehind job.now.pops job.now.command taken }
    ensures read { IsJudged result
        → WasReadWhole job.now.pops job.now.command (S.left source.old) (S.left source.new) }
{
    if let Some(pops) = job.pops {
        return pause_or_tell(call, job, pops, source);
    }
    if let Input::Certificate = job.command.input() {
        return answer_cert(call, job, source);
    }
    if let Command::Check = job.command {
        return check(call.alloc, source);
    }
    let made = made_for(call.alloc, job, source)?;
    let Made { facts, instance } = made;
    let told = sample_made(call, job, &facts, instance);
    drop(facts);
    Ok(told?)
}

/// The answer to arguments, watchers and the input of a source, or why there is none.
pub fn answer_to<S: Source, M: Maker>(
    maker: &M,
    alloc: Global,
    words: &[String],
    watchers: Vec<Box<dyn Watch>>,
    source: &mut S,
) -> Result<Answer, Stop>
    requires maker { M.fits maker.now }
    ensures answer { (text : List ℕ)
        → IsInput (map string_bytes words.now) (S.left source.old) text
        → IfOk result (λ a. IsAnswer (map string_bytes words.now)
        (map (λ b. (kind b, state b)) watchers.items) text a.status a.text.items) }
    ensures status { IfOk result (λ a. IsAnswerStatus a.status) }

    // Invalid arguments are reported for every source.
    ensures usage { IfOk result (λ a. a.status ≡ 2 → (place : ℕ)
        × IsBadPlace (map string_bytes words.now) place × (a.text.items ≡ refusal_line (Usage place))) }
    ensures only_usage { (AreWords (map string_bytes words.now) → ⊥)
        → MatchResult result (λ a. a.status ≡ 2) (λ stop. stop ≡ OutOfMemory) }

    // If the arguments are invalid, or if a grid is made, the source is left as it was.
    ensures unread { (AreWords (map string_bytes words.now) → ⊥)
        ⊎ AskForGrid (map string_bytes words.now) → source.new ≡ source.old }

    ensures whole { IfOk result (λ a. HasRun a.status
        → (AskForGrid (map string_bytes words.now) → ⊥) → IsAtEnd (S.left source.new)) }
    ensures read_fault { IsErrOf result ReadFault
        → HasReadFault (map string_bytes words.now) (S.left source.old) (S.left source.new)
        (S.faults source.old) (S.faults source.new) }

    // A certificate, and the input of a run that may be stopped, is read completely before a byte
    // of it is checked.
    ensures read { (job : Job) → Asks (map string_bytes words.now) job → IfOk result (λ a.
        WasReadWhole job.pops job.command (S.left source.old) (S.left source.new)) }
{
    let job = match read_words(alloc, words) {
        Ok(job) => job,
        Err(fault) => return Refusal::from(fault).told(alloc),
    };
    let crew = Crew::new(job.workers, job.board);
    let mut call = Call {
        alloc,
        maker,
        crew,
        watchers,
    };
    let answered = answer_job(&mut call, &job, source);
    drop(call);
    drop(job);
    match answered {
        Ok(answer) => Ok(answer),
        Err(refusal) => refusal.told(alloc),
    }
}
