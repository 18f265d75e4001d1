//! Runs by workers that claim words.
ghost use Rattle.std.specs.Prelude.{◌≡◌, ◌<◌, ◌≤◌, length, IfOk, IfSome};
ghost use Rattle.pop_model.specs.Stacks.{variables_of};
ghost use Rattle.pop_model.specs.Popping.{AreWithin};
ghost use Rattle.pop_model.specs.Tickets.{AreNumbered};
ghost use Rattle.confluence_core.specs.Kept.{keeps_log};
ghost use Rattle.confluence_core.specs.Runs.{IsRunOf};
ghost use Rattle.pop_workers.specs.Closings.{AreMerged, IsLeftBy};

use crate::makers::Makers;
use crate::opening::opening_from;
use crate::workers::Workers;
use crate::{Gate, Outcome};
use claim_words::Closed;
use confluence_core::{Keep, Log, Reached, Tickets};
use pop_instance::{Cursors, Instance};
use pop_log::merge;
use std::alloc::{AllocError, Global};
use std::thread::Threads;

/// A run by 1 to 64 workers that claim words of a board, from cursors that must be below the
/// heights. The result has a log exactly if it is kept; the log has all pops. On an extremal
/// instance, from zeros, the end is that of the one-thread run. `AllocError` is returned only if
/// the caller ran out of memory.
///
/// Each worker has its own thread, if one can be started; the caller does the work of the others
/// itself. All threads are joined, and none waits for another. With one worker there is no board:
/// after the gate the run is made on the calling thread.
pub fn sample_claimed<R: Threads + Sync, G: Gate + Sync>(
    rt: &R,
    alloc: Global,
    instance: &Instance,
    from: &Cursors,
    workers: u32,
    keep: Keep,
    gate: &G,
) -> Result<Outcome, AllocError>
    requires count { variables_of instance.now.stacks ≡ length from.now }
    requires within { AreWithin instance.now.stacks from.now }
    requires some { 0 < workers }
    requires most { workers ≤ 64 }
    ensures { IfOk result (IsRunOf instance.now from.now (keeps_log keep)) }
{
    let opening = opening_from(alloc, instance, from, keep)?;
    let crew = Workers { rt, gate, workers };
    let Ok(mut makers) = Makers::of(alloc, instance, crew) else {
        drop(opening);
        return Err(AllocError);
    };
    let Ok(end) = makers.claimed_stage(alloc, instance, opening) else {
        drop(makers);
        return Err(AllocError);
    };
    makers.tell(alloc, instance, end)
}

/// The state of a run, from a closed board.
pub(crate) fn left_by(alloc: Global, closed: Closed) -> Result<Reached, AllocError>
    requires numbered { IfSome closed.log AreNumbered }
    ensures { IfOk result (IsLeftBy closed) }
{
    let Closed {
        cursors,
        pops,
        log,
        suspects,
    } = closed;
    let log = merged(alloc, log)?;
    Ok(Reached {
        cursors,
        pops,
        log,
        suspects,
    })
}

// The log of the tickets, if they are kept.
fn merged(alloc: Global, tickets: Option<Tickets>) -> Result<Option<Log>, AllocError>
    requires numbered { IfSome tickets AreNumbered }
    ensures { IfOk result (AreMerged tickets) }
{
    match tickets {
        Some(tickets) => Ok(Some(merge(alloc, tickets)?)),
        None => Ok(None),
    }
}
