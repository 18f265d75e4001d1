//! The workers other than the caller, each with its own pass and hints.
ghost use Rattle.std.specs.Prelude.{◌≡◌, ◌+◌, ◌<◌, length, All, IfOk, OnOk};
ghost use Rattle.pop_stacks.specs.Readers.{Belongs};
ghost use Rattle.claim_words.specs.Passes.{view, instance_of};
ghost use Rattle.pop_workers.specs.AtWork.{IsSharedOn, IsIdleOn, IsBeside};

use crate::Gate;
use crate::shared::Shared;
use crate::tools::Tools;
use crate::working::work;
use claim_words::{Board, Pass};
use pop_stacks::Reader;
use std::alloc::{AllocError, Global};
use std::thread;
use std::thread::Threads;
use worker_hints::{Own, Range};

/// The state of a worker other than the caller: its pass, its deque, and its reader after it has
/// worked. The reader is None if it ran out of memory. In a list of jobs the first one is worker
/// 1.
pub(crate) type Job<W> = (Pass, Own<W>, Option<Reader>);

/// The caller's own deque, and the jobs of the others.
#[derive(Drop)]
pub(crate) struct Jobs<W: Range> {
    pub own: Own<W>,
    pub others: Vec<Job<W>>,
}

/// A job for each of these deques. Its pass is split from the caller's, with share 1.
pub(crate) fn hand_out<W: Range>(
    alloc: Global,
    board: &Board,
    pass: &mut Pass,
    deques: Vec<Own<W>>,
) -> Result<Vec<Job<W>>, AllocError>
    requires pass { IsIdleOn board.now pass.old }
    requires share { length deques.items < (view pass.old).share }
    ensures pass { IsIdleOn board.now pass.new }
    ensures jobs { IfOk result
        (λ jobs. All (λ job. IsBeside board.now job.0 job.2) jobs.items) }
    ensures len { IfOk result (λ jobs. length jobs.items ≡ length deques.items) }
    ensures share { IfOk result
        (λ jobs. (view pass.new).share + length jobs.items ≡ (view pass.old).share) }
{
    let mut jobs = Vec::with_capacity(alloc, deques.len())?;
    for own in deques {
        jobs.push_reserved(job_for(board, pass, own));
    }
    Ok(jobs)
}

// A job for this deque. Its pass is split from the caller's, with share 1.
fn job_for<W: Range>(board: &Board, pass: &mut Pass, own: Own<W>) -> Job<W>
    requires pass { IsIdleOn board.now pass.old }
    requires share { 1 < (view pass.old).share }
    ensures pass { IsIdleOn board.now pass.new }
    ensures job { IsBeside board.now result.0 result.2 }
    ensures share { (view pass.new).share + 1 ≡ (view pass.old).share }
{
    (board.split(pass, 1), own, None)
}

/// Starts the workers of these jobs, each on its own thread if one can be started.
pub(crate) fn work_beside<'i, 'x, W: Range + Sync + Send, R: Threads + Sync, G: Gate + Sync>(
    rt: &R,
    board: &Board<'i>,
    shared: &Shared<'i, 'x, W>,
    jobs: &mut [Job<W>],
    gate: &G,
)
    requires shared { IsSharedOn W.units board.now shared.now }
    requires jobs { All (λ job. IsBeside board.now job.0 job.2) jobs.old }
    requires len { length jobs.old < length shared.now.all.items }
    requires few { length jobs.old < 64 }
    ensures jobs { All (λ job. IsBeside board.now job.0 job.2) jobs.new }
    ensures len { length jobs.new ≡ length jobs.old }
{
    let most = jobs.len().max(1);
    thread::for_each_mut(
        rt,
        jobs,
        most,
        &|place: usize, job: &mut Job<W>|
            requires shared { IsSharedOn W.units board.now shared.now }
            requires job { IsBeside board.now job.now.0 job.now.2 }
            requires place { place + 1 < length shared.now.all.items }
            requires few { place < 64 }
            ensures { IsBeside board.entry.now job.exit.now.0 job.exit.now.2 }
        { do_job(board, shared, job, place as u32 + 1, gate) },
    );
}

// The work of one job, which has the reader after that. A worker that runs out of memory ends its
// turns; the others, and finally the caller, finish what it leaves.
fn do_job<W: Range, G: Gate>(
    board: &Board,
    shared: &Shared<W>,
    job: &mut Job<W>,
    worker: u32,
    gate: &G,
)
    requires shared { IsSharedOn W.units board.now shared.now }
    requires job { IsBeside board.now job.old.0 job.old.2 }
    requires worker { worker < length shared.now.all.items }
    ensures { IsBeside board.now job.new.0 job.new.2 }
{
    let Ok(mut tools) = Tools::of(shared.alloc, shared.instance, worker) else {
        job.2 = None;
        return gate.at(worker, 0);
    };
    let _ = work(board, &mut job.0, shared, &mut tools, &mut job.1, gate);
    job.2 = Some(tools.reader);
}

/// Joins the passes of all jobs to the caller's, and collects their readers, in the order of the
/// workers. If a log is kept, a join allocates memory.
pub(crate) fn take_back<W: Range>(
    alloc: Global,
    board: &Board,
    pass: &mut Pass,
    jobs: Vec<Job<W>>,
) -> Result<Vec<Reader>, AllocError>
    requires pass { IsIdleOn board.now pass.old }
    requires jobs { All (λ job. IsBeside board.now job.0 job.2) jobs.items }
    ensures pass { IsIdleOn board.now pass.new }
    ensures share { OnOk result
        ((view pass.new).share ≡ (view pass.old).share + length jobs.items) }
    ensures readers { IfOk result (λ readers.
        All (Belongs (instance_of board.now).stacks) readers.items) }
{
    let mut jobs = jobs;
    // Includes room for the caller's reader.
    let mut readers = Vec::with_capacity(alloc, jobs.len() + 1)?;
    while let Some(job) = jobs.pop() {
        take_one(board, pass, job, &mut readers)?;
    }
    Ok(readers)
}

// Joins the pass of a job to the caller's, and puts its reader before the others, if it has one.
fn take_one<W: Range>(
    board: &Board,
    pass: &mut Pass,
    job: Job<W>,
    readers: &mut Vec<Reader>,
) -> Result<(), AllocError>
    requires pass { IsIdleOn board.now pass.old }
    requires job { IsBeside board.now job.0 job.2 }
    requires readers { All (Belongs (instance_of board.now).stacks) readers.old.items }
    ensures pass { IsIdleOn board.now pass.new }
    ensures share { OnOk result ((view pass.new).share ≡ (view pass.old).share + 1) }
    ensures readers { OnOk result
        (All (Belongs (instance_of board.now).stacks) readers.new.items) }
{
    let (other, own, reader) = job;
    drop(own);
    if let Err((other, failed)) = board.rejoin(pass, other) {
        drop(other);
        drop(reader);
        return Err(failed);
    }
    if let Some(reader) = reader {
        readers.insert(0, reader)?;
    }
    Ok(())
}
