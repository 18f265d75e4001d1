//! Batches: if a number of samples is requested, each is run on its own stacks.
ghost use Rattle.std.specs.Prelude.{◌≡◌, List, Some, IfOk};
ghost use Rattle.pop_model.specs.Stacks.{IsKeyed};
ghost use Rattle.pop_model.specs.Extremal.{IsExtremal};
ghost use Rattle.confluence_core.specs.declared.end.End.{End};
ghost use Rattle.pop_batch.specs.Batches.{AreEnds};
ghost use Rattle.pop_print.specs.Ends.{AreFactsOf};
ghost use Rattle.pop_watch.specs.Telling.{Watcher};
ghost use Rattle.told_runs.specs.Batches.{batch_status};
ghost use Rattle.told_runs.specs.Outcomes.{AnswersBy, Tells};
ghost use Rattle.told_runs.specs.Outcomes.Outcome.{Batched};
ghost use Rattle.told_runs.specs.Ends.{IsEndOf};

use crate::asked::Asked;
use crate::call::Call;
use growing_instances::GrowingInstance;
use job_subjects::Answer;
use pop_batch::Ends;
use pop_instance::Instance;
use pop_print::Facts;
use run_makers::Maker;
use std::alloc::AllocError;

// The status of a batch: 1 if an event still occurs at some end.
fn status_of_batch(ends: &Ends) -> u8
    ensures { result ≡ batch_status ends.now }
{
    if ends.some_stuck() { 1 } else { 0 }
}

// Runs this many samples of the instance, and prints the end of each.
fn tell_batch<M: Maker>(
    call: &Call<M>,
    facts: &Facts,
    instance: &Instance,
    count: u32,
) -> Result<Answer, AllocError>
    requires maker { M.fits call.now.maker.now }
    requires facts { AreFactsOf facts.now instance.now }
    requires keyed { IsKeyed instance.now.stacks.origin }
    requires extremal { IsExtremal instance.now.family }
    ensures { IfOk result (λ a. (ends : List End) × AreEnds instance.now count ends
        × Tells (Batched facts.now instance.now ends) a.status a.text.items) }
{
    let ends = call.maker.batch(call.alloc, instance, count)?;
    let text = call.maker.text_of_batch(call.alloc, facts, instance, &ends);
    let status = status_of_batch(&ends);
    drop(ends);
    Ok(Answer {
        status,
        text: text?,
    })
}

/// Runs the requested number of samples of the instance, at its last height, and prints the end of
/// each. No watcher receives their logs.
pub fn batch_and_tell<M: Maker>(
    call: &Call<M>,
    facts: &Facts,
    growing: GrowingInstance,
    asked: Asked,
    count: u32,
) -> Result<Answer, AllocError>
    requires maker { M.fits call.now.maker.now }
    requires facts { AreFactsOf facts.now growing }
    requires asked { asked.count ≡ Some count }
    requires keyed { IsKeyed growing.stacks.origin }
    requires extremal { IsExtremal growing.family }
    ensures { IfOk result (λ a. (watchers : List Watcher)
        → AnswersBy (IsEndOf asked watchers facts.now growing) a.status a.text.items) }
{
    let instance = growing.raised();
    let told = tell_batch(call, facts, &instance, count);
    drop(instance);
    told
}
