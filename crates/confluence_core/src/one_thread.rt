ghost use Rattle.std.specs.Prelude.{◌≡◌, ◌<◌, ℕ, Bool, List, length, All, IfOk};
ghost use Rattle.pop_model.specs.Stacks.{variables_of};
ghost use Rattle.pop_model.specs.Popping.{AreWithin};
ghost use Rattle.pop_model.specs.Families.{units_of};
ghost use Rattle.pop_model.specs.Runs.{IsFirstEnd, start_of};
ghost use Rattle.confluence_core.specs.Kept.{keeps_log};
ghost use Rattle.confluence_core.specs.Runs.{IsEndOver, IsRunOf, MissesNone};
ghost use Rattle.confluence_core.specs.Stretches.{IsReached, HasCome};

use crate::looks::{first_poppable, occurring};
use crate::{End, Indexed, Keep, Reached, Run, Units};
use pop_instance::{Cursors, Instance, Values};
use pop_stacks::Reader;
use std::alloc::{AllocError, Global};

/// The one-thread run: from zeros it pops the poppable event with the lowest unit until there is
/// none. It is slow, since it searches for that event from the start at each pop.
pub fn run_first(alloc: Global, instance: &Instance) -> Result<End, AllocError>
    ensures end { IfOk result (λ end. IsFirstEnd instance.now end.cursors end.pops end.stuck) }
    ensures over { IfOk result (IsEndOver instance.now.stacks) }
{
    let _units = instance.units();
    let stacks = instance.stacks();
    let mut reader = Reader::new(stacks);
    let mut cursors = Cursors::zeros(alloc, stacks.count())?;
    let mut pops: u64 = 0;
    'pops: while let Some((_, cube)) = first_poppable(alloc, instance, &mut reader, &cursors)? {
        cursors.pop(&cube);
        drop(cube);
        pops += 1;
    }
    let stuck = occurring(alloc, instance, &mut reader, &cursors)?;
    let values = Values::at(alloc, stacks, &mut reader, &cursors)?;
    Ok(End {
        cursors,
        pops,
        stuck,
        values,
    })
}

/// A run from any cursors below the heights. The suspects are units of the instance and must cover
/// every poppable event. They cover a listed event if its unit is one of them, and a cycle if one
/// of its variables is.
///
/// Listed events are judged if they are suspects or share a variable with a popped event, until
/// none is left. So the time is linear in the instance, the suspects and, for each pop, the pairs
/// of the events that share a variable with the popped one. Cycles are popped by the loop-erased
/// walk (Wilson 1996; Propp and Wilson 1998) from each variable, which needs no suspects.
pub fn run_from(
    alloc: Global,
    instance: &Instance,
    cursors: Cursors,
    suspects: Units,
    keep: Keep,
) -> Result<Run, AllocError>
    requires count { variables_of instance.now.stacks ≡ length cursors }
    requires within { AreWithin instance.now.stacks cursors }
    requires units { All (λ u. u < units_of instance.now.family) suspects }
    requires suspects { MissesNone instance.now cursors suspects }
    ensures run { IfOk result (IsRunOf instance.now cursors (keeps_log keep)) }
{
    let reached = Reached::at(alloc, cursors, suspects, keep);
    run_alone(alloc, instance, reached)
}

/// A run from zeros with every unit a suspect.
pub fn run_from_zeros(alloc: Global, instance: &Instance, keep: Keep) -> Result<Run, AllocError>
    ensures run { IfOk result (IsRunOf instance.now (start_of instance.now) (keeps_log keep)) }
{
    // The index is allocated after the parts that the end keeps, so that the memory that is freed
    // later is contiguous.
    let reached = Reached::opening(alloc, instance, keep)?;
    run_alone(alloc, instance, reached)
}

// Continues a run to its end on this thread, and returns its result.
fn run_alone(alloc: Global, instance: &Instance, reached: Reached) -> Result<Run, AllocError>
    requires reached { HasCome instance.now reached }
    ensures run { (start : List ℕ) → (keeps : Bool) → IsReached instance.now start keeps reached
        → IfOk result (IsRunOf instance.now start keeps) }
{
    let index = instance.index(alloc)?;
    let mut reader = Reader::keeping(alloc, instance.stacks())?;
    Indexed::of(instance, &index).run(alloc, &mut reader, reached)
}
