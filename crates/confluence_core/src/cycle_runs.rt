ghost use Rattle.std.specs.Prelude.{◌≡◌, ◌<◌, ◌≤◌, ◌^◌, [], IfOk, length, if◌then◌else◌};
ghost use Rattle.std.specs.List.{range_with_len};
ghost use Rattle.pop_model.specs.Stacks.{variables_of};
ghost use Rattle.pop_model.specs.Popping.{AreWithin};
ghost use Rattle.pop_model.specs.Families.Family.{Cycles as CycleEvents};
ghost use Rattle.pop_model.specs.Instances.{FamilyFits};
ghost use Rattle.pop_model.specs.Runs.{IsStuckList};
ghost use Rattle.pop_stacks.specs.Readers.{Belongs};
ghost use Rattle.confluence_core.specs.Stretches.{HasCome, GoesOn};

use crate::current_arrows::CurrentArrows;
use crate::walk::left_by_walks;
use crate::walked::Walked;
use crate::{Reached, Stuck, Units};
use pop_instance::{Arrows, Cursors};
use pop_stacks::{Reader, Stacks};
use std::alloc::{AllocError, Global};

/// Continues a run of cycles to its end, or until the number of pops reaches the limit. It makes
/// the loop-erased walk from each variable in turn. Returns the cycles that occur there, by rising
/// unit. Suspects would save nothing: after a pop a variable may be on a poppable cycle that no
/// walk from them would meet. At the limit every variable is a suspect.
pub(crate) fn pop_cycles(
    alloc: Global,
    stacks: &Stacks,
    arrows: &Arrows,
    reader: &mut Reader,
    reached: Reached,
    limit: u64,
) -> Result<(Reached, Stuck), AllocError>
    requires fits { FamilyFits stacks.now (CycleEvents arrows.now) }
    requires belongs { Belongs stacks.now reader.old }
    requires reached { HasCome
        (record { stacks = stacks.now; family = CycleEvents arrows.now }) reached }
    ensures on { IfOk result (λ left. GoesOn
        (record { stacks = stacks.now; family = CycleEvents arrows.now }) reached left.0) }
    ensures stuck_list { IfOk result (λ left. IsStuckList
        (record { stacks = stacks.now; family = CycleEvents arrows.now }) left.0.cursors left.1) }
    ensures most { IfOk result (λ left. reached.pops ≤ limit → left.0.pops ≤ limit) }
    ensures end { IfOk result (λ left. left.0.pops < limit → left.0.suspects ≡ []) }
    ensures few { IfOk result (λ left. left.0.pops < 2 ^ 63) }
    ensures reader { reader.new ≡ reader.old }
{
    let current = CurrentArrows::of(stacks, arrows);
    let _count = current.count();
    // The walks start from all variables, so the list of suspects is freed for their memory.
    drop(reached.suspects);
    let walked = Walked {
        cursors: reached.cursors,
        pops: reached.pops,
        limit,
        log: reached.log,
        stuck: Stuck::new(alloc),
    };
    let left = left_by_walks(alloc, current, reader, walked)?;
    let suspects = suspects_at(alloc, left.pops < left.limit, arrows.count())?;
    let reached = Reached {
        cursors: left.cursors,
        pops: left.pops,
        log: left.log,
        suspects,
    };
    Ok((reached, left.stuck))
}

// No units at an end, and otherwise all of them.
fn suspects_at(alloc: Global, is_end: bool, units: u32) -> Result<Units, AllocError>
    ensures { IfOk result (λ suspects. suspects ≡ (if is_end then [] else range_with_len 0 units)) }
{
    if is_end {
        return Ok(Units::new(alloc));
    }
    Units::all(alloc, units)
}

/// The cycles that occur at any cursors, by rising unit. They are found by a walk that pops
/// nothing. Its time is linear in the variables and, except for a logarithm, in those of the
/// cycles.
pub(crate) fn occurring_cycles(
    alloc: Global,
    stacks: &Stacks,
    arrows: &Arrows,
    reader: &mut Reader,
    cursors: &Cursors,
) -> Result<Stuck, AllocError>
    requires fits { FamilyFits stacks.now (CycleEvents arrows.now) }
    requires count { variables_of stacks.now ≡ length cursors.now }
    requires within { AreWithin stacks.now cursors.now }
    requires belongs { Belongs stacks.now reader.old }
    ensures stuck_list { IfOk result (IsStuckList
        (record { stacks = stacks.now; family = CycleEvents arrows.now }) cursors.now) }
    ensures reader { reader.new ≡ reader.old }
{
    let current = CurrentArrows::of(stacks, arrows);
    let _count = current.count();
    let copy = cursors.copy(alloc)?;
    let walked = Walked {
        cursors: copy,
        pops: 0,
        limit: 0,
        log: None,
        stuck: Stuck::new(alloc),
    };
    let left = left_by_walks(alloc, current, reader, walked)?;
    Ok(left.stuck)
}
