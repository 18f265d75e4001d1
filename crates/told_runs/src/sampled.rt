//! A run that kept no log and ends with no event that occurs. Its output does not depend on the
//! instance. The instance usually takes more memory than everything else, so it is dropped before
//! the output is made.
ghost use Rattle.std.specs.Prelude.{◌≡◌, List, [], true, false, None, IfOk};
ghost use Rattle.pop_model.specs.Stacks.{variables_of};
ghost use Rattle.pop_model.specs.Extremal.{IsExtremal};
ghost use Rattle.pop_model.specs.Instances.{IsInstance};
ghost use Rattle.pop_model.specs.Runs.{start_of};
ghost use Rattle.confluence_core.specs.Runs.{IsRunOf};
ghost use Rattle.pop_print.specs.Ends.{AreFactsOf, IsToldInFull};
ghost use Rattle.pop_watch.specs.Telling.{Watcher};
ghost use Rattle.told_runs.specs.Ends.{EndsWithin, IsEndOf, IsHistoryOf};
ghost use Rattle.told_runs.specs.Outcomes.{AnswersBy};
ghost use Rattle.told_runs.specs.Tellings.{asks_for_log};

use crate::asked::Asked;
use confluence_core::End;
use job_subjects::Answer;
use pop_instance::Instance;
use pop_print::{Facts, text_of_sample};
use std::alloc::{AllocError, Global};
use std::snapshot::Snapshot;

// Drops an instance. Returns its contract view, and the number of its variables.
fn let_go(instance: Instance) -> (Snapshot<Instance>, u32)
    ensures same { result.0.value ≡ instance }
    ensures instance { IsInstance instance }
    ensures count { result.1 ≡ variables_of instance.stacks }
{
    // Read for its contract, which says what holds of every instance.
    let _units = instance.units();
    let count = instance.stacks().count();
    let of = Snapshot::of(&instance);
    drop(instance);
    (of, count)
}

/// Prints the end of a run of the instance, which is dropped.
pub fn tell_sample(
    alloc: Global,
    facts: &Facts,
    instance: Instance,
    end: &End,
    asked: Asked,
) -> Result<Answer, AllocError>
    requires facts { AreFactsOf facts.now instance }
    requires full { IsToldInFull facts.now }
    requires run { IsRunOf instance (start_of instance) (asks_for_log asked)
        (record { end = end.now; log = None }) }
    requires within { EndsWithin asked.pops end.now.pops }
    requires sample { end.now.stuck ≡ [] }
    ensures ended { (watchers : List Watcher) → asked.free ≡ false → asked.count ≡ None
        → IsExtremal instance.family → IfOk result
        (λ a. AnswersBy (IsEndOf asked watchers facts.now instance) a.status a.text.items) }
    ensures history { (watchers : List Watcher) → asked.free ≡ true → IfOk result
        (λ a. AnswersBy (IsHistoryOf asked watchers facts.now instance) a.status a.text.items) }
{
    let (of, count) = let_go(instance);
    let text = text_of_sample(alloc, facts, of, count, end)?;
    Ok(Answer { status: 0, text })
}
