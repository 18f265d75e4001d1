ghost use Rattle.std.specs.Prelude.{◌≡◌, length, IfOk};
ghost use Rattle.pop_model.specs.Stacks.{variables_of};
ghost use Rattle.pop_model.specs.Popping.{AreWithin};
ghost use Rattle.pop_model.specs.Runs.{start_of};
ghost use Rattle.confluence_core.specs.Kept.{keeps_log};
ghost use Rattle.confluence_core.specs.Stretches.{IsReached};

use confluence_core::{Keep, Reached};
use pop_instance::{Cursors, Instance};
use std::alloc::{AllocError, Global};

/// The cursors before any pop of an instance, at the start of a whole run.
pub fn zeros_of(alloc: Global, instance: &Instance) -> Result<Cursors, AllocError>
    ensures zeros { IfOk result (λ zeros. zeros ≡ start_of instance.now) }
    ensures count { IfOk result (λ zeros. variables_of instance.now.stacks ≡ length zeros) }
    ensures within { IfOk result (AreWithin instance.now.stacks) }
{
    let _units = instance.units();
    Cursors::zeros(alloc, instance.stacks().count())
}

/// A run before its first pop, from cursors that must be below the heights.
pub(crate) fn opening_from(
    alloc: Global,
    instance: &Instance,
    from: &Cursors,
    keep: Keep,
) -> Result<Reached, AllocError>
    requires count { variables_of instance.now.stacks ≡ length from.now }
    requires within { AreWithin instance.now.stacks from.now }
    ensures { IfOk result (IsReached instance.now from.now (keeps_log keep)) }
{
    let start = from.copy(alloc)?;
    Reached::starting(alloc, instance, start, keep)
}
