ghost use Rattle.std.specs.Prelude.{◌≡◌, ◌<◌, ◌+◌, ◌^◌, length, IfOk};
ghost use Rattle.std.specs.Option.{is_some};
ghost use Rattle.pop_model.specs.Stacks.{variables_of};
ghost use Rattle.pop_model.specs.Popping.{AreWithin};
ghost use Rattle.pop_model.specs.Runs.{start_of};
ghost use Rattle.confluence_core.specs.Kept.{keeps_log};
ghost use Rattle.confluence_core.specs.Stretches.{IsReached, before_pops, joined, both_logs};

use crate::{End, Keep, Log, Run, Stuck, Units};
use pop_instance::{Cursors, Instance, Values};
use std::alloc::{AllocError, Global};

/// The state of a run. The run can be continued from here, on any threads. If it has a log, it
/// keeps it.
#[derive(Drop)]
pub struct Reached {
    /// The cursors after its pops.
    pub cursors: Cursors,
    /// The number of pops.
    pub pops: u64,
    /// The log of the pops, if it is kept.
    pub log: Option<Log>,
    /// Units that cover every event that is poppable at the cursors. They cover a listed event if
    /// its unit is one of them, and a cycle if one of its variables is. If there are none, the run
    /// is at its end.
    pub suspects: Units,
}

impl Reached {
    /// A run from these cursors before its first pop. It allocates nothing.
    pub fn at(alloc: Global, cursors: Cursors, suspects: Units, keep: Keep) -> Reached
        ensures { result ≡ record (before_pops cursors (keeps_log keep)) { suspects = suspects } }
    {
        Reached {
            cursors,
            pops: 0,
            log: keep.keeps_log().then_some(Log::new(alloc)),
            suspects,
        }
    }

    /// A run from these cursors, which must be below the heights, before its first pop, with every
    /// unit a suspect.
    pub fn starting(
        alloc: Global,
        instance: &Instance,
        from: Cursors,
        keep: Keep,
    ) -> Result<Reached, AllocError>
        requires count { variables_of instance.now.stacks ≡ length from }
        requires within { AreWithin instance.now.stacks from }
        ensures reached { IfOk result (IsReached instance.now from (keeps_log keep)) }
        ensures none { IfOk result (λ reached. reached.pops ≡ 0) }
    {
        let suspects = Units::all(alloc, instance.units())?;
        Ok(Reached::at(alloc, from, suspects, keep))
    }

    /// A run from zeros before its first pop, with every unit a suspect.
    pub fn opening(alloc: Global, instance: &Instance, keep: Keep) -> Result<Reached, AllocError>
        ensures reached { IfOk result
            (IsReached instance.now (start_of instance.now) (keeps_log keep)) }
        ensures none { IfOk result (λ reached. reached.pops ≡ 0) }
    {
        let zeros = Cursors::zeros(alloc, instance.stacks().count())?;
        let suspects = Units::all(alloc, instance.units())?;
        Ok(Reached::at(alloc, zeros, suspects, keep))
    }

    /// Whether the log is kept.
    pub fn keep(&self) -> Keep
        ensures { keeps_log result ≡ is_some self.now.log }
    {
        if self.log.is_some() {
            Keep::Log
        } else {
            Keep::Nothing
        }
    }

    /// The run with another stretch after it. The stretch must have begun at the state of this
    /// run, with a log if this run has one.
    pub fn join(self, more: Reached) -> Result<Reached, AllocError>
        requires room { self.pops + more.pops < 2 ^ 64 }
        ensures { IfOk result (λ all. all ≡ joined self more) }
    {
        let pops = self.pops + more.pops;
        let log = append(self.log, more.log)?;
        Ok(Reached { pops, log, ..more })
    }

    /// The result of the run, with the events that occur at its cursors and the values there. It
    /// allocates nothing.
    pub fn told(self, stuck: Stuck, values: Values) -> Run
        ensures { result ≡ record {
          end = record {
            cursors = self.cursors;
            pops = self.pops;
            stuck = stuck;
            values = values;
          };
          log = self.log;
        } }
    {
        let end = End {
            cursors: self.cursors,
            pops: self.pops,
            stuck,
            values,
        };
        Run { end, log: self.log }
    }
}

// The log with another one after it, if both exist.
fn append(log: Option<Log>, more: Option<Log>) -> Result<Option<Log>, AllocError>
    ensures { IfOk result (λ all. all ≡ both_logs log more) }
{
    let (Some(log), Some(more)) = (log, more) else {
        return Ok(None);
    };
    let mut log = log;
    log.append(more)?;
    Ok(Some(log))
}
