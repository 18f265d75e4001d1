//! Runs on threads, on which each worker passes a gate before its turns.
ghost use Rattle.std.specs.Prelude.{◌≡◌, IfOk, IfSome};
ghost use Rattle.growing_instances.specs.Growing.{MayIndex};
ghost use Rattle.run_makers.specs.Makers.{MayGrow, IsRunInStages};

use crate::crew::Crew;
use crate::stages::Stages;
use crate::stretch::index_of;
use pop_instance::{Index, Instance};
use pop_workers::{Gate, Lock, Makers, Outcome, Workers, sample_in_stages};
use std::alloc::{AllocError, Global};
use std::thread::Threads;

/// The lock under which a crew shares a book: the given one, or None if the crew claims words.
pub fn lock_of<L: Lock>(crew: Crew, lock: Option<&L>) -> Option<&L>
    requires { IfSome lock (λ l. L.fits l.now) }
    ensures { IfSome result (λ l. L.fits l.now) }
{
    if crew.claims() { None } else { lock }
}

/// Makes a run in stages, and returns the instance at its last height. Several workers claim words
/// unless the crew asks for a lock and there is one.
pub fn run_in_stages<L: Lock, R: Threads + Sync, G: Gate + Sync>(
    rt: &R,
    gate: &G,
    lock: Option<&L>,
    stages: Stages,
) -> Result<(Outcome, Instance), AllocError>
    requires lock { IfSome lock (λ l. L.fits l.now) }
    requires grows { MayGrow stages }
    ensures { IfOk result (IsRunInStages stages) }
{
    let Stages {
        alloc,
        crew,
        mut instance,
        last,
        keep,
    } = stages;
    let (lock, workers) = (lock_of(crew, lock), crew.workers());
    let run = sample_in_stages(rt, alloc, &mut instance, last, lock, workers, keep, gate)?;
    // This is also needed if the stages ended at a lower height.
    instance.raise(last);
    Ok((run, instance))
}

/// Who brings runs of an instance to their ends: one worker alone, after the gate and without a
/// board, or several. They get the index of its family if it is at hand, or build it.
pub fn makers_of<'c, R: Threads + Sync, G: Gate + Sync>(
    rt: &'c R,
    gate: &'c G,
    alloc: Global,
    crew: Crew,
    instance: &Instance,
    at_hand: Option<Index>,
) -> Result<Makers<'c, R, G>, AllocError>
    requires { MayIndex instance.now.family at_hand }
    ensures { IfOk result (λ makers. makers ≡ instance.now) }
{
    let index = index_of(alloc, instance, at_hand)?;
    let workers = crew.workers();
    let workers = Workers { rt, gate, workers };
    Makers::with(alloc, instance, index, workers)
}
