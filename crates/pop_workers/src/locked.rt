ghost use Rattle.std.specs.Prelude.{◌≡◌, ◌<◌, ◌≤◌, ◌^◌, length, IfOk};
ghost use Rattle.std.specs.Option.{is_some};
ghost use Rattle.pop_model.specs.Stacks.{variables_of};
ghost use Rattle.pop_model.specs.Popping.{AreWithin};
ghost use Rattle.confluence_core.specs.Kept.{keeps_log};
ghost use Rattle.confluence_core.specs.Runs.{IsRunOf};
ghost use Rattle.confluence_core.specs.Stretches.{HasCome, IsReached};
ghost use Rattle.pop_workers.specs.Locks.{MayWork, IsWorkOf};

use crate::attempts::attempt_in_turns;
use crate::book_work::BookWork;
use crate::lock_by::LockBy;
use crate::makers::Makers;
use crate::opening::opening_from;
use crate::workers::Workers;
use crate::{Gate, Outcome};
use confluence_core::{Keep, Reached, Units};
use lock_board::{Book, Site};
use pop_instance::{Cursors, Instance};
use std::alloc::{AllocError, Global};
use std::marker::Brand;
use std::sync::{Mutex, Wait};
use std::thread;
use std::thread::Threads;
use worker_hints::Worker;

/// A run by 1 to 64 workers over a book under a lock, from cursors that are below the heights.
/// Each worker attempts its units in turn. The calling thread pops what they leave. The result has
/// a log if and only if it is kept, and then the log has all pops. On an extremal instance, from
/// zeros, the end is that of the one-thread run. The error is returned only if the caller found no
/// memory. A worker that finds none ends its turns, and the others pop what it leaves.
///
/// Each worker has a thread of its own, if one can be started. The caller does the work of the
/// others itself. All threads are joined. With one worker there is no board: after the gate the
/// run is made on the calling thread.
pub fn sample_locked<R: Threads + Wait + Sync, G: Gate + Sync>(
    rt: &R,
    alloc: Global,
    instance: &Instance,
    from: &Cursors,
    workers: u32,
    keep: Keep,
    gate: &G,
) -> Result<Outcome, AllocError>
    requires count { variables_of instance.now.stacks ≡ length from.now }
    requires within { AreWithin instance.now.stacks from.now }
    requires some { 0 < workers }
    requires most { workers ≤ 64 }
    ensures { IfOk result (IsRunOf instance.now from.now (keeps_log keep)) }
{
    let opening = opening_from(alloc, instance, from, keep)?;
    let crew = Workers { rt, gate, workers };
    let Ok(makers) = Makers::of(alloc, instance, crew) else {
        drop(opening);
        return Err(AllocError);
    };
    let work = |work: BookWork| -> Result<Reached, AllocError>
        requires { MayWork work }
        ensures { IfOk result (IsWorkOf work.entry) }
    { work_locked(rt, gate, work) };
    let lock = LockBy { work: &work };
    makers.run(alloc, instance, opening, Some(&lock))
}

/// The work of workers that share a book under a lock. The book opens where the run has come, and
/// the result is the stretch that it adds, with every unit a suspect. The error is returned only if
/// the caller found no memory.
///
/// Each worker has a thread of its own, if one can be started. The caller does the work of the
/// others itself. All threads are joined.
pub fn work_locked<R: Threads + Wait + Sync, G: Gate + Sync>(
    rt: &R,
    gate: &G,
    work: BookWork,
) -> Result<Reached, AllocError>
    requires { MayWork work }
    ensures { IfOk result (IsWorkOf work.entry) }
{
    let BookWork {
        alloc,
        workers,
        instance,
        reached,
    } = work;
    let crew = Workers { rt, gate, workers };
    work_together::<Brand, R, G>(alloc, &crew, instance, reached)
}

// How far workers come on a book that they share, and that opens where a run has come, with every
// unit a suspect.
fn work_together<N: Site + Send + Sync, R: Threads + Wait + Sync, G: Gate + Sync>(
    alloc: Global,
    crew: &Workers<R, G>,
    instance: &Instance,
    reached: &Reached,
) -> Result<Reached, AllocError>
    requires site { instance.now ≡ N.instance }
    requires start { reached.now.cursors ≡ N.start }
    requires reached { HasCome instance.now reached.now }
    ensures more { IfOk result
        (IsReached instance.now reached.now.cursors (is_some reached.now.log)) }
{
    let _units = instance.units();
    let board = Mutex::new(Book::<N>::start_at(alloc, instance, &reached.cursors)?);
    let worked = attempt_all(alloc, crew, instance, &board);
    let book = board.into_inner();
    if worked.is_err() {
        drop(book);
        return Err(AllocError);
    }
    left_in(alloc, instance, book, reached.keep())
}

// The work of all workers on a book. One that finds no memory has left the book as it was before its
// attempt.
fn attempt_all<N: Site + Send + Sync, R: Threads + Wait + Sync, G: Gate + Sync>(
    alloc: Global,
    crew: &Workers<R, G>,
    instance: &Instance,
    board: &Mutex<Book<N>>,
) -> Result<(), AllocError>
    requires site { instance.now ≡ N.instance }
{
    let Workers { rt, gate, workers } = *crew;
    let ended = thread::map_indices(
        rt,
        alloc,
        workers as usize,
        &|number: usize| -> Result<(), AllocError>
            requires { (number < 2 ^ 32) × (instance.now ≡ N.instance) }
        {
            let worker = Worker {
                number: number as u32,
                workers,
            };
            attempt_in_turns(rt, alloc, instance, board, worker, gate)
        },
    )?;
    drop(ended);
    Ok(())
}

// How far a run has come by the pops of a book, with every unit a suspect.
fn left_in<N: Site>(
    alloc: Global,
    instance: &Instance,
    book: Book<N>,
    keep: Keep,
) -> Result<Reached, AllocError>
    requires site { instance.now ≡ N.instance }
    ensures { IfOk result (IsReached instance.now N.start (keeps_log keep)) }
{
    let units = instance.units();
    let (cursors, log) = book.into_parts();
    let suspects = Units::all(alloc, units)?;
    Ok(Reached {
        cursors,
        pops: log.len(),
        log: keep.kept(log),
        suspects,
    })
}
