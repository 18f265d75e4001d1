//! Continues the run of a certificate to its end, and prints it as the line of the certificate's
//! command does.
ghost use Rattle.std.specs.Prelude.{◌≡◌, None, map, if◌then◌else◌, IfOk};
ghost use Rattle.confluence_core.specs.Kept.{keeps_log};
ghost use Rattle.run_cert.specs.Certificates.{Certificate};
ghost use Rattle.told_runs.specs.Outcomes.{AnswersBy};
ghost use Rattle.top_call.specs.Resumes.{IsResumed};
ghost use Rattle.top_call.specs.Accepted.{IsHeldBy};
ghost use Rattle.top_call.specs.Answers.{ComesOf};

use crate::accepted::Accepted;
use confluence_core::{Keep, Log, Reached};
use job_subjects::Answer;
use pop_watch::Watch;
use run_makers::{Maker, Stretch};
use std::alloc::AllocError;
use told_runs::{Asked, Call, tell_end};

// The log, if it is to be kept.
fn kept(log: Option<Log>, keep: Keep) -> Option<Log>
    ensures { result ≡ (if keeps_log keep then log else None) }
{
    match keep {
        Keep::Log => log,
        Keep::Nothing => None,
    }
}

/// Continues the run of a certificate, and prints its end.
pub fn go_on<M: Maker>(call: &mut Call<M>, accepted: Accepted) -> Result<Answer, AllocError>
    requires maker { M.fits call.old.maker.now }
    requires held { (cert : Certificate) × IsHeldBy cert accepted }
    ensures { (cert : Certificate) → IsHeldBy cert accepted → IfOk result (λ a. AnswersBy
        (IsResumed ComesOf (map (λ b. (
          (⟦<dyn Watch as Watch>⟧ b.vtable).kind b.value,
          (⟦<dyn Watch as Watch>⟧ b.vtable).state b.value,
        )) call.old.watchers.items) cert)
        a.status a.text.items) }
{
    let Accepted {
        command,
        facts,
        instance,
        reached,
    } = accepted;
    let asked = Asked::of_line(command);
    let log = kept(reached.log, asked.keep());
    let so_far = Reached { log, ..reached };
    let went_on = call.maker.finish(Stretch {
        alloc: call.alloc,
        crew: call.crew,
        instance: &instance,
        at_hand: None,
        reached: so_far,
    });
    let whole = match went_on {
        Ok(whole) => whole,
        Err(error) => {
            drop(instance);
            drop(facts);
            return Err(error);
        }
    };
    let told = tell_end(call, &facts, &instance, &whole, asked);
    drop(whole);
    drop(instance);
    drop(facts);
    told
}
