//! What is requested of a run in addition to its end.
ghost use Rattle.std.specs.Prelude.{◌≡◌};
ghost use Rattle.confluence_core.specs.Kept.{keeps_log};
ghost use Rattle.pop_words.specs.Options.{default_job};
ghost use Rattle.told_runs.specs.Asking.{has_free_order, asked_by};
ghost use Rattle.told_runs.specs.Tellings.{tells_watchers, looks_at_records, asks_for_log};

use confluence_core::Keep;
use pop_words::{Command, Job, Reports};

/// What is requested of a run in addition to its end.
#[derive(Clone, Copy, Debug, PartialEq, Eq)]
pub struct Asked {
    /// Whether the log is printed.
    pub log: bool,
    /// The pop of the requested witness tree: the printed name of a variable, and the entry that
    /// the pop used, which counts from 0.
    pub witness: Option<(u32, u32)>,
    /// The requested reports.
    pub reports: Reports,
    /// True for `resample`, whose pops may be made in any order. Then all watchers receive the
    /// log, and the status shows whether the requested pop is missing.
    pub free: bool,
    /// The requested number of samples of a batch, or None if there is only one run.
    pub count: Option<u32>,
    /// The number of pops after which the run stops, if it may stop before its end.
    pub pops: Option<u32>,
}

// Whether the pops of a command may be made in any order.
fn is_free(command: Command) -> bool
    ensures { result ≡ has_free_order command }
{
    match command {
        Command::Resample => true,
        _ => false,
    }
}

impl Asked {
    /// What a job requests.
    pub fn of(job: &Job) -> Asked
        ensures { result ≡ asked_by job.now }
    {
        Asked {
            log: job.log,
            witness: job.witness,
            reports: job.reports,
            free: is_free(job.command),
            count: job.count,
            pops: job.pops,
        }
    }

    /// What a command without options requests.
    pub fn of_line(command: Command) -> Asked
        ensures { result ≡ asked_by (default_job command) }
    {
        Asked {
            log: command.tells_log(),
            witness: None,
            reports: Reports {
                totals: false,
                heights: false,
                layers: false,
            },
            free: is_free(command),
            count: None,
            pops: None,
        }
    }

    /// Whether the watchers receive the log: if the pops may be made in any order, or if a report
    /// is requested.
    pub fn tells(self) -> bool
        ensures { result ≡ tells_watchers self }
    {
        let Reports {
            totals,
            heights,
            layers,
        } = self.reports;
        self.free || totals || heights || layers
    }

    /// Whether the records of the log are read: for a witness, or for the watchers.
    pub fn looks(self) -> bool
        ensures { result ≡ looks_at_records self }
    {
        self.witness.is_some() || self.tells()
    }

    /// What the run has to keep: its log, if the log is printed or its records are read.
    pub fn keep(self) -> Keep
        ensures { keeps_log result ≡ asks_for_log self }
    {
        if self.log || self.looks() {
            Keep::Log
        } else {
            Keep::Nothing
        }
    }
}
