ghost use Rattle.std.specs.Prelude.{IfOk};
ghost use Rattle.pop_model.specs.Runs.{IsFirstEnd};
ghost use Rattle.confluence_core.specs.Runs.{IsEndOver};
ghost use Rattle.cycle_popping.specs.Walks.{AreCycles};

use confluence_core::{End, Keep, run_from_zeros};
use pop_instance::Instance;
use std::alloc::{AllocError, Global};

/// The loop-erased walk from each variable in turn. The events of the instance must be the cycles
/// of arrows. It has the end of the one-thread run, which always pops the poppable cycle with the
/// lowest variable.
pub fn run_walks(alloc: Global, instance: &Instance) -> Result<End, AllocError>
    requires cycles { AreCycles instance.now.family }
    ensures end { IfOk result (λ end. IsFirstEnd instance.now end.cursors end.pops end.stuck) }
    ensures over { IfOk result (IsEndOver instance.now.stacks) }
{
    let run = run_from_zeros(alloc, instance, Keep::Nothing)?;
    Ok(run.end)
}
