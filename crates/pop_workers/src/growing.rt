//! Runs in stages, at heights that grow.
ghost use Rattle.std.specs.Prelude.{◌≡◌, ◌<◌, ◌≤◌, ◌^◌, ℕ, List, IfOk, IfSome, MatchOption};
ghost use Rattle.pop_model.specs.Stacks.{height_of, IsKeyed};
ghost use Rattle.pop_model.specs.Instances.{IsInstance, instance_raised};
ghost use Rattle.pop_model.specs.Runs.{IsStuckList, start_of};
ghost use Rattle.confluence_core.specs.Kept.{keeps_log};
ghost use Rattle.confluence_core.specs.Runs.{IsRunOf};
ghost use Rattle.pop_workers.specs.Locks.{MayWork, IsWorkOf};
ghost use Rattle.pop_workers.specs.Serving.{Serves};
ghost use Rattle.pop_workers.specs.Stages.{height, AreMade, AreStages, HasBegun, HasGrown, IsLast, IsToCome};

use crate::book_work::BookWork;
use crate::lock::Lock;
use crate::lock_by::LockBy;
use crate::locked::work_locked;
use crate::makers::Makers;
use crate::workers::Workers;
use crate::{Gate, Outcome};
use confluence_core::{Keep, Reached, Stuck};
use pop_instance::Instance;
use std::alloc::{AllocError, Global};
use std::sync::Wait;
use std::thread::Threads;

/// A run in stages, by 1 to 64 workers that claim words of a board, where `claimed` says so, or
/// else share a book under a lock. The instance as it is has the height of the first stage, which
/// is at most `last`; each other stage is twice as high as the one before, and `last` at most. A
/// stage begins where the one before ended, the first at zeros, and goes on to an end at its
/// height. None follows one that ended where no event occurs, or one of height `last`.
///
/// The pops of all stages are counted, and their log is that of all pops, exactly where it is kept.
/// So the result is a run at height `last` too: its log is legal there, and leads to its end; on an
/// extremal instance the end is that of the one-thread run at height `last`. It is refused only
/// where memory ran out. What changes of the instance is the height: it keeps that of the last
/// stage that began, also where memory ran out.
///
/// A gate's turns begin again at 0 in each stage. With one worker nothing that was drawn is drawn
/// again, and each other stage begins with the events that occurred when the one before ended.
pub fn sample_grown<R: Threads + Wait + Sync, G: Gate + Sync>(
    rt: &R,
    alloc: Global,
    instance: &mut Instance,
    last: u32,
    claimed: bool,
    workers: u32,
    keep: Keep,
    gate: &G,
) -> Result<Outcome, AllocError>
    requires keyed { IsKeyed instance.old.stacks.origin }
    requires higher { (v : ℕ) → height_of instance.old.stacks v ≤ last }
    requires short { last < 2 ^ 31 }
    requires some { 0 < workers }
    requires most { workers ≤ 64 }
    ensures run { IfOk result (IsRunOf (instance_raised last instance.old) (start_of instance.old)
        (keeps_log keep)) }

    // The stages. The last one began at the height that the instance keeps.
    ensures stages { IfOk result (AreStages last instance.old (keeps_log keep) instance.new) }
    ensures last { IfOk result (λ run. IsLast last instance.new run.end.stuck) }
    ensures begun { HasBegun last instance.old (keeps_log keep) instance.new }
    ensures raised { instance.new ≡ instance_raised (height instance.new) instance.old }
    ensures low { height instance.new ≤ last }
{
    let work = |work: BookWork| -> Result<Reached, AllocError>
        requires { MayWork work }
        ensures { IfOk result (IsWorkOf work.entry) }
    { work_locked(rt, gate, work) };
    let lock = LockBy { work: &work };
    let lock = if claimed { None } else { Some(&lock) };
    sample_in_stages(rt, alloc, instance, last, lock, workers, keep, gate)
}

/// Like `sample_grown`, by workers that share a book if there is a lock, and that claim words
/// otherwise. It needs no runtime that may wait.
pub fn sample_in_stages<L: Lock, R: Threads + Sync, G: Gate + Sync>(
    rt: &R,
    alloc: Global,
    instance: &mut Instance,
    last: u32,
    lock: Option<&L>,
    workers: u32,
    keep: Keep,
    gate: &G,
) -> Result<Outcome, AllocError>
    requires keyed { IsKeyed instance.old.stacks.origin }
    requires higher { (v : ℕ) → height_of instance.old.stacks v ≤ last }
    requires short { last < 2 ^ 31 }
    requires lock { IfSome lock (λ l. L.fits l.now) }
    requires some { 0 < workers }
    requires most { workers ≤ 64 }
    ensures run { IfOk result (IsRunOf (instance_raised last instance.old) (start_of instance.old)
        (keeps_log keep)) }

    // The stages. The last one began at the height that the instance keeps.
    ensures stages { IfOk result (AreStages last instance.old (keeps_log keep) instance.new) }
    ensures last { IfOk result (λ run. IsLast last instance.new run.end.stuck) }
    ensures begun { HasBegun last instance.old (keeps_log keep) instance.new }
    ensures raised { instance.new ≡ instance_raised (height instance.new) instance.old }
    ensures low { height instance.new ≤ last }
{
    let crew = Workers { rt, gate, workers };
    let mut makers = Makers::of(alloc, instance, crew)?;
    let Ok(end) = all_stages(alloc, instance, &mut makers, last, keep, lock) else {
        drop(makers);
        return Err(AllocError);
    };
    let _units = instance.units();
    makers.tell(alloc, instance, end)
}

// How far the stages come together, and what is stuck there. Each but the first goes on from the end
// of the one before, once the stacks are raised.
fn all_stages<L: Lock, R: Threads + Sync, G: Gate + Sync>(
    alloc: Global,
    instance: &mut Instance,
    makers: &mut Makers<R, G>,
    last: u32,
    keep: Keep,
    lock: Option<&L>,
) -> Result<(Reached, Stuck), AllocError>
    requires serves { Serves instance.old makers.old }
    requires keyed { IsKeyed instance.old.stacks.origin }
    requires higher { (v : ℕ) → height_of instance.old.stacks v ≤ last }
    requires short { last < 2 ^ 31 }
    requires lock { IfSome lock (λ l. L.fits l.now) }
    ensures grown { HasGrown last instance.old (keeps_log keep) instance.new }
    ensures made { IfOk result (λ end.
        AreMade last instance.old (keeps_log keep) instance.new end.0 end.1) }
    ensures last { IfOk result (λ end. IsLast last instance.new end.1) }
    ensures serves { Serves instance.new makers.new }
{
    let opening = Reached::opening(alloc, instance, keep)?;
    let mut end = makers.stage(alloc, instance, opening, lock)?;
    'stages: while let Some(height) = height_to_come(instance, &end.1, last) {
        let (mut reached, stuck) = end;
        instance.raise(height);
        // An event that is poppable at the new height occurred at the end before.
        reached.suspects = stuck.units(alloc)?;
        end = makers.stage(alloc, instance, reached, lock)?;
    }
    Ok(end)
}

// The height of the next stage, if there is to be one.
fn height_to_come(instance: &Instance, stuck: &Stuck, last: u32) -> Option<u32>
    requires stuck { (c : List ℕ) × IsStuckList instance.now c stuck.now }
    requires keyed { IsKeyed instance.now.stacks.origin }
    requires higher { (v : ℕ) → height_of instance.now.stacks v ≤ last }
    ensures height { MatchOption result (IsLast last instance.now stuck.now)
        (IsToCome last instance.now stuck.now) }
    ensures instance { IsInstance instance.now }
{
    let _units = instance.units();
    if stuck.len() == 0 {
        return None;
    }
    let height = instance.stacks().height(0);
    if height >= last {
        return None;
    }
    Some((2 * height).min(last))
}
