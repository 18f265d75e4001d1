ghost use Rattle.std.specs.Prelude.{IfOk};
ghost use Rattle.pop_model.specs.Stacks.{IsKeyed};
ghost use Rattle.pop_model.specs.Extremal.{IsExtremal};
ghost use Rattle.pop_batch.specs.Batches.{IsSampleEnd, AreEnds};

use crate::Ends;
use crate::samples::Samples;
use confluence_core::End;
use pop_instance::Instance;
use rayon::prelude::*;
use std::alloc::{AllocError, Global};
use std::thread::Threads;

/// The ends of the first `count` samples of an extremal instance under a key. They are run in
/// parallel, each on one thread, and share the family. If memory runs out in one run, the whole
/// call returns `AllocError`.
pub fn batch<R: Threads + Sync>(
    rt: &R,
    alloc: Global,
    instance: &Instance,
    count: u32,
) -> Result<Ends, AllocError>
    requires keyed { IsKeyed instance.now.stacks.origin }
    requires extremal { IsExtremal instance.now.family }
    ensures ends { IfOk result (AreEnds instance.now count) }
{
    let samples = Samples::of(alloc, instance)?;
    let ends = run_each(rt, alloc, &samples, count)?;
    drop(samples);
    Ok(Ends::of(ends))
}

/// The ends that `batch` makes, by runs one after another on the calling thread. It starts no
/// thread. If memory runs out in one run, the whole call returns `AllocError`.
pub fn batch_alone(alloc: Global, instance: &Instance, count: u32) -> Result<Ends, AllocError>
    requires keyed { IsKeyed instance.now.stacks.origin }
    requires extremal { IsExtremal instance.now.family }
    ensures ends { IfOk result (AreEnds instance.now count) }
{
    let samples = Samples::of(alloc, instance)?;
    let ends = run_in_turn(alloc, &samples, count)?;
    drop(samples);
    Ok(Ends::of(ends))
}

// The ends of the first `count` samples, each made by the next free thread.
fn run_each<R: Threads + Sync>(
    rt: &R,
    alloc: Global,
    samples: &Samples,
    count: u32,
) -> Result<Vec<End>, AllocError>
    ensures { IfOk result (λ ends. AreEnds samples.now count ends.items) }
{
    (0..count)
        .into_par_iter()
        .with_min_len(1)
        .map(
            |j: u32| -> Result<End, AllocError>
                ensures { IfOk result (IsSampleEnd samples.entry.now j) }
            { samples.run(alloc, j) },
        )
        .collect::<Result<Vec<End>, AllocError>>(rt, alloc)?
}

// The ends of the first `count` samples, run one after another.
fn run_in_turn(alloc: Global, samples: &Samples, count: u32) -> Result<Vec<End>, AllocError>
    ensures { IfOk result (λ ends. AreEnds samples.now count ends.items) }
{
    let mut ends = Vec::with_capacity(alloc, count as usize)?;
    for j in 0..count {
        ends.push(samples.run(alloc, j)?)?;
    }
    Ok(ends)
}
