//! The reports of watchers on a log.
ghost use Rattle.std.specs.Prelude.{◌≡◌, ◌++◌, map, OnOk, IfOk};
ghost use Rattle.pop_watch.specs.Telling.{log_told};
ghost use Rattle.told_runs.specs.Reports.{report_if, reports_text};

use crate::telling::{report_of, tell_log};
use confluence_core::Log;
use pop_watch::Watch;
use pop_words::Reports;
use std::alloc::{AllocError, Global};

// The kinds of watchers with reports that may be requested.
const TOTALS: u32 = 1;

const HEIGHTS: u32 = 2;

const LAYERS: u32 = 3;

// Adds the report of the first watcher of a kind, if it is requested and there is one.
fn push_report(
    alloc: Global,
    text: &mut Vec<u8>,
    watchers: &[Box<dyn Watch>],
    kind_wanted: u32,
    wanted: bool,
) -> Result<(), AllocError>
    ensures { OnOk result (text.new.items ≡ text.old.items
        ++ report_if wanted kind_wanted (map (λ b. (kind b, state b)) watchers.now)) }
{
    if !wanted {
        return Ok(());
    }
    match report_of(alloc, watchers, kind_wanted)? {
        Some(report) => text.extend_from_slice(&report),
        None => Ok(()),
    }
}

// The requested reports by rising kind, each from the first watcher of its kind.
fn reports_of(
    alloc: Global,
    watchers: &[Box<dyn Watch>],
    asked: Reports,
) -> Result<Vec<u8>, AllocError>
    ensures { IfOk result (λ bytes. bytes.items
        ≡ reports_text asked (map (λ b. (kind b, state b)) watchers.now)) }
{
    let mut text = Vec::new(alloc);
    push_report(alloc, &mut text, watchers, TOTALS, asked.totals)?;
    push_report(alloc, &mut text, watchers, HEIGHTS, asked.heights)?;
    push_report(alloc, &mut text, watchers, LAYERS, asked.layers)?;
    Ok(text)
}

/// Passes each record of a log, in order and once, to each watcher. Then it returns the requested
/// reports by rising kind, each from the first watcher of its kind.
pub fn report_log(
    alloc: Global,
    watchers: &mut [Box<dyn Watch>],
    log: &Log,
    asked: Reports,
) -> Result<Vec<u8>, AllocError>
    ensures reports { IfOk result (λ bytes. bytes.items
        ≡ reports_text asked (log_told log.now (map (λ b. (kind b, state b)) watchers.old))) }
    ensures told { OnOk result (map (λ b. (kind b, state b)) watchers.new
        ≡ log_told log.now (map (λ b. (kind b, state b)) watchers.old)) }
{
    tell_log(watchers, log)?;
    reports_of(alloc, watchers, asked)
}
