//! Logs of runs.
ghost use Rattle.pop_model.specs.Logs.{IsLegal};
ghost use Rattle.pop_model.specs.Runs.{start_of};

use confluence_core::{Keep, Log, Run, run_from_zeros};
use pop_instance::Instance;
use std::alloc::Global;
use std::process::Abort;

/// The log of a run from zeros.
pub fn log_of_run(rt: &impl Abort, alloc: Global, instance: &Instance) -> Log
    ensures { IsLegal instance.now (start_of instance.now) result }
{
    let run = run_from_zeros(alloc, instance, Keep::Log).expect(rt, "memory");
    let Run { end, log } = run;
    drop(end);
    log.expect(rt, "a log")
}
