//! The instances that commands run.
ghost use Rattle.std.specs.Prelude.{◌≡◌};
ghost use Rattle.pop_model.specs.Families.Family.{Cycles, Listed};
ghost use Rattle.pop_model.specs.Instances.{FamilyFits};
ghost use Rattle.pop_instance.specs.Events.{FitVariables};
ghost use Rattle.growing_instances.specs.Growing.{MayIndex};
ghost use Rattle.job_subjects.specs.Subjects.{pair_weights, instance_of};

use growing_instances::{GrowingInstance, GrowingStacks};
use pop_instance::{Arrows, Events, Family, Index};

/// The instance of events over this many variables with two values, with the index of the events
/// if it is at hand.
pub fn of_events(
    variables: u32,
    stacks: GrowingStacks,
    events: Events,
    index: Option<Index>,
) -> GrowingInstance
    requires weights { stacks.weights ≡ pair_weights variables }
    requires fit { FitVariables variables events }
    requires index { MayIndex (Listed events) index }
    ensures { result ≡ instance_of stacks.origin variables events }
{
    match GrowingInstance::new(stacks, Family::Listed(events), index) {
        Some(instance) => instance,
        None => unreachable!(),
    }
}

/// The instance of the cycles of arrows.
pub fn of_arrows(stacks: GrowingStacks, arrows: Arrows) -> GrowingInstance
    requires fits { FamilyFits stacks (Cycles arrows) }
    ensures { result ≡ record { stacks = stacks; family = Cycles arrows } }
{
    match GrowingInstance::new(stacks, Family::Cycles(arrows), None) {
        Some(instance) => instance,
        None => unreachable!(),
    }
}
