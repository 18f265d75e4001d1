//! Workers on a board of claim words, to its end.
ghost use Rattle.std.specs.Prelude.{◌≡◌, ◌+◌, ◌<◌, ◌≤◌, length, All, IfOk, OnOk};
ghost use Rattle.pop_model.specs.Families.{units_of};
ghost use Rattle.pop_model.specs.Runs.{IsEnd};
ghost use Rattle.pop_stacks.specs.Readers.{Belongs};
ghost use Rattle.pop_instance.specs.Index.{IsFamilyIndex};
ghost use Rattle.claim_words.specs.Passes.{IsOf, IsIdle, IsSole, view, instance_of, opening_of};
ghost use Rattle.claim_words.specs.TicketLogs.{vector};
ghost use Rattle.pop_workers.specs.AtWork.{IsSharedOn, HasTools, KeepsTools, IsIdleOn, IsSoleOn, IsAtEnd, IsBeside};
ghost use Rattle.pop_workers.specs.Attempts.{AreTools, Goes};

use crate::Gate;
use crate::jobs::{Job, Jobs, hand_out, take_back, work_beside};
use crate::rounding::round_off;
use crate::shared::Shared;
use crate::tools::Tools;
use crate::workers::Workers;
use crate::working::work;
use claim_words::{Board, Pass};
use pop_instance::{Index, Instance};
use pop_stacks::Reader;
use std::alloc::{AllocError, Global};
use std::marker::Brand;
use std::thread::{Threads, join_mut};
use worker_hints::{Other, Own, Range, Worker, deal};

/// Lets 1 to 64 workers pop the events of a board, which must be one of the instance, until none
/// is poppable. The pass is idle and has all 64 shares, before and after. `AllocError` is returned
/// only if the caller ran out of memory. Then the pass is idle, and may have fewer shares, so that
/// its board cannot be closed.
///
/// Worker 0 is the caller, with the pass. Each other worker has a pass of share 1 that is split
/// from it, and a thread if one can be started. Each starts with one block of the units as its
/// hints. No call waits for a claim. All workers end when no deque has a hint, and the caller
/// finishes what they leave alone.
pub fn work_claimed<'i, R: Threads + Sync, G: Gate + Sync>(
    rt: &R,
    alloc: Global,
    board: &Board<'i>,
    pass: &mut Pass,
    instance: &'i Instance,
    workers: u32,
    gate: &G,
) -> Result<(), AllocError>
    requires board { instance_of board.now ≡ instance.now }
    requires pass { IsOf board.now pass.old }
    requires idle { IsIdle pass.old }
    requires sole { IsSole pass.old }
    requires some { 0 < workers }
    requires most { workers ≤ 64 }
    ensures pass { IsOf board.now pass.new }
    ensures idle { IsIdle pass.new }
    ensures sole { OnOk result (IsSole pass.new) }
    ensures end { OnOk result
        (IsEnd instance.now (vector (opening_of board.now) (view pass.new).mine)) }
{
    let index = instance.index(alloc)?;
    let mut tools = Tools::of(alloc, instance, 0)?;
    let crew = Workers { rt, gate, workers };
    let others = work_by::<Brand, R, G>(alloc, crew, board, pass, instance, &index, &mut tools);
    drop(tools);
    drop(index);
    drop(others?);
    Ok(())
}

/// Like `work_claimed`, with the index of the family and the tools of worker 0, after the number
/// of units was chosen. Returns the readers of the others, with their caches.
pub(crate) fn work_by<'i, W: Range + Send + Sync, R: Threads + Sync, G: Gate + Sync>(
    alloc: Global,
    crew: Workers<R, G>,
    board: &Board<'i>,
    pass: &mut Pass,
    instance: &'i Instance,
    index: &Option<Index>,
    tools: &mut Tools,
) -> Result<Vec<Reader>, AllocError>
    requires board { instance_of board.now ≡ instance.now }
    requires pass { IsSoleOn board.now pass.old }
    requires some { 0 < crew.workers }
    requires most { crew.workers ≤ 64 }
    requires range { units_of instance.now.family ≡ W.units }
    requires index { IsFamilyIndex instance.now.family index.now }
    requires tools { AreTools instance.now tools.old.reader tools.old.walker }
    requires first { tools.old.worker ≡ 0 }
    ensures pass { IsIdleOn board.now pass.new }
    ensures end { OnOk result (IsAtEnd board.now pass.new) }
    ensures readers { IfOk result (λ others.
        All (Belongs (instance_of board.now).stacks) others.items) }
    ensures tools { KeepsTools instance.now tools.old tools.new }
{
    let deques: Vec<Own<W>> = deal_all(alloc, crew.workers, instance.units())?;
    let shared = Shared {
        alloc,
        instance,
        index,
        all: for_others(alloc, &deques)?,
    };
    let others = work_with(crew, board, pass, &shared, tools, deques);
    drop(shared);
    others
}

// Like `work_by`, with the deques of all workers.
fn work_with<'i, 'x, W: Range + Send + Sync, R: Threads + Sync, G: Gate + Sync>(
    crew: Workers<R, G>,
    board: &Board<'i>,
    pass: &mut Pass,
    shared: &Shared<'i, 'x, W>,
    tools: &mut Tools,
    deques: Vec<Own<W>>,
) -> Result<Vec<Reader>, AllocError>
    requires shared { IsSharedOn W.units board.now shared.now }
    requires pass { IsSoleOn board.now pass.old }
    requires tools { HasTools shared.now tools.old }
    requires len { length deques.items ≡ length shared.now.all.items }
    requires some { 0 < length deques.items }
    requires most { length deques.items ≤ 64 }
    ensures pass { IsIdleOn board.now pass.new }
    ensures end { OnOk result (IsAtEnd board.now pass.new) }
    ensures readers { IfOk result (λ others.
        All (Belongs (instance_of board.now).stacks) others.items) }
    ensures tools { KeepsTools shared.now.instance.now tools.old tools.new }
{
    let mut deques = deques;
    let own = deques.remove(0);
    let others = hand_out(shared.alloc, board, pass, deques)?;
    let mut jobs = Jobs { own, others };
    work_at_once(crew, board, pass, shared, tools, &mut jobs);
    let Jobs { mut own, others } = jobs;
    let others = bring_in(board, pass, shared, tools, &mut own, others);
    drop(own);
    others
}

// The work of all workers, until no deque has a hint. The caller uses these tools; each other
// worker has its own thread if one can be started.
fn work_at_once<'i, 'x, W: Range + Send + Sync, R: Threads + Sync, G: Gate + Sync>(
    crew: Workers<R, G>,
    board: &Board<'i>,
    pass: &mut Pass,
    shared: &Shared<'i, 'x, W>,
    tools: &mut Tools,
    jobs: &mut Jobs<W>,
)
    requires shared { IsSharedOn W.units board.now shared.now }
    requires pass { IsIdleOn board.now pass.old }
    requires tools { HasTools shared.now tools.old }
    requires jobs { All (λ job. IsBeside board.now job.0 job.2) jobs.old.others.items }
    requires len { length jobs.old.others.items < length shared.now.all.items }
    requires few { length jobs.old.others.items < 64 }
    ensures pass { IsIdleOn board.now pass.new }
    ensures goes { Goes (view pass.old) (view pass.new) }
    ensures tools { KeepsTools shared.now.instance.now tools.old tools.new }
    ensures jobs { All (λ job. IsBeside board.now job.0 job.2) jobs.new.others.items }
    ensures len { length jobs.new.others.items ≡ length jobs.old.others.items }
{
    let Workers { rt, gate, .. } = crew;
    let Jobs { own, others } = jobs;
    let _ = join_mut(
        rt,
        &mut || work(board, pass, shared, tools, own, gate),
        &mut ||
            requires shared { IsSharedOn W.units board.now shared.now }
            requires jobs { All (λ job. IsBeside board.now job.0 job.2) others.now.items }
            requires len { length others.now.items < length shared.now.all.items }
            requires few { length others.now.items < 64 }
            ensures jobs { All (λ job. IsBeside board.entry.now job.0 job.2) others.exit.now.items }
            ensures len { length others.exit.now.items ≡ length others.entry.now.items }
        { work_beside(rt, board, shared, others, gate) },
    );
}

// Joins the passes of the others to the caller's, and continues the board to its end with these
// tools. Returns the readers of the others.
fn bring_in<W: Range>(
    board: &Board,
    pass: &mut Pass,
    shared: &Shared<W>,
    tools: &mut Tools,
    own: &mut Own<W>,
    others: Vec<Job<W>>,
) -> Result<Vec<Reader>, AllocError>
    requires shared { IsSharedOn W.units board.now shared.now }
    requires pass { IsIdleOn board.now pass.old }
    requires share { (view pass.old).share + length others.items ≡ 64 }
    requires tools { HasTools shared.now tools.old }
    requires jobs { All (λ job. IsBeside board.now job.0 job.2) others.items }
    ensures pass { IsIdleOn board.now pass.new }
    ensures end { OnOk result (IsAtEnd board.now pass.new) }
    ensures readers { IfOk result (λ readers.
        All (Belongs (instance_of board.now).stacks) readers.items) }
    ensures tools { KeepsTools shared.now.instance.now tools.old tools.new }
{
    let readers = take_back(shared.alloc, board, pass, others)?;
    round_off(board, pass, shared, tools, own)?;
    Ok(readers)
}

// The deques of this many workers, with their first hints.
fn deal_all<W: Range>(alloc: Global, workers: u32, units: u32) -> Result<Vec<Own<W>>, AllocError>
    requires range { units ≡ W.units }
    ensures { IfOk result (λ deques. length deques.items ≡ workers) }
{
    let mut deques = Vec::with_capacity(alloc, workers as usize)?;
    for number in 0..workers {
        deques.push_reserved(deal(alloc, Worker { number, workers }, units)?);
    }
    Ok(deques)
}

// The same deques, for all workers to steal from.
fn for_others<W: Range>(alloc: Global, deques: &[Own<W>]) -> Result<Vec<Other<W>>, AllocError>
    ensures { IfOk result (λ all. length all.items ≡ length deques.now) }
{
    let mut all = Vec::with_capacity(alloc, deques.len())?;
    for own in deques {
        all.push_reserved(own.stealer()?);
    }
    Ok(all)
}
