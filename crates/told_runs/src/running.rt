//! A run of an instance, and how it is printed.
ghost use Rattle.std.specs.Prelude.{◌≡◌, ◌++◌, List, true, false, ◌&&◌, Some, None, map, length, IfOk, if◌then◌else◌};
ghost use Rattle.pop_model.specs.Stacks.{variables_of};
ghost use Rattle.pop_model.specs.Extremal.{IsExtremal};
ghost use Rattle.pop_model.specs.Logs.{LogRecord, IsLegal, replay};
ghost use Rattle.pop_model.specs.Runs.{start_of};
ghost use Rattle.confluence_core.specs.Runs.{IsRunOf};
ghost use Rattle.pop_log.specs.Layered.{AreSorted};
ghost use Rattle.pop_print.specs.Ends.{AreFactsOf};
ghost use Rattle.told_runs.specs.Outcomes.{AnswersBy, end_status};
ghost use Rattle.pop_watch.specs.Telling.{log_told};
ghost use Rattle.told_runs.specs.Reports.{reports_text};
ghost use Rattle.told_runs.specs.Witnesses.{TellsWitness};
ghost use Rattle.told_runs.specs.Ends.{EndsWithin, IsEndOf, IsHistoryOf, IsHistoryWith};
ghost use Rattle.told_runs.specs.Tellings.{Continues, TellsRecords, TellsLog, TellsRun, asks_for_log, layered_text, records_of};

use crate::asked::Asked;
use crate::call::Call;
use crate::names::{Named, names_of};
use crate::reporting::report_log;
use crate::sampled::tell_sample;
use crate::witness::{LogText, witness_of};
use confluence_core::{End, Log, Stuck};
use job_subjects::Answer;
use pop_instance::{Cursors, Instance};
use pop_log::{LayeredLog, Names};
use pop_print::{Facts, text};
use pop_workers::Outcome;
use std::alloc::{AllocError, Global};

/// The status of a run by the events that occur at its end: 1 if there are any.
pub fn status_by(stuck: &Stuck) -> u8
    ensures { result ≡ end_status stuck.now }
{
    if stuck.len() == 0 { 0 } else { 1 }
}

// The status of an end. If the pops may be made in any order, a missing witness takes precedence.
fn status_with(end: &End, free: bool, missing: bool) -> u8
    ensures { result ≡ (if free && missing then 6 else end_status end.now.stuck) }
{
    if free && missing {
        6
    } else {
        status_by(&end.stuck)
    }
}

// The witness, if it is requested, and otherwise nothing.
fn tell_witness(
    alloc: Global,
    instance: &Instance,
    names: &Names,
    cursors: &Cursors,
    log: &Log,
    asked: Option<(u32, u32)>,
) -> Result<LogText, AllocError>
    requires count { variables_of instance.now.stacks ≡ length cursors.now }
    requires legal { IsLegal instance.now (start_of instance.now) log.now }
    requires leads { cursors.now ≡ replay (start_of instance.now) log.now }
    ensures { IfOk result (λ w. TellsWitness names.now instance.now.family asked cursors.now log.now
        w.missing w.bytes.items) }
{
    match asked {
        Some(asked) => witness_of(alloc, instance, names, cursors, log, asked),
        None => LogText::nothing(alloc),
    }
}

// The requested reports of a layered log. If the watchers receive it, each is passed each record,
// in order and once.
fn tell_watchers<M>(call: &mut Call<M>, log: &Log, asked: Asked) -> Result<Vec<u8>, AllocError>
    ensures { IfOk result (λ bytes. bytes.items ≡ reports_text asked.reports
        (log_told log.now (map (λ b. (kind b, state b)) call.old.watchers.items))) }
{
    if !asked.tells() {
        return Ok(Vec::new(call.alloc));
    }
    report_log(call.alloc, &mut call.watchers, log, asked.reports)
}

// What is printed of a layered log after its text: the requested witness and the requested
// reports.
fn tell_records<M>(
    call: &mut Call<M>,
    instance: &Instance,
    names: &Names,
    cursors: &Cursors,
    log: &Log,
    asked: Asked,
) -> Result<LogText, AllocError>
    requires count { variables_of instance.now.stacks ≡ length cursors.now }
    requires legal { IsLegal instance.now (start_of instance.now) log.now }
    requires leads { cursors.now ≡ replay (start_of instance.now) log.now }
    ensures { IfOk result (λ t. TellsRecords asked
        (map (λ b. (kind b, state b)) call.old.watchers.items) names.now instance.now log.now
        t.missing t.bytes.items) }
{
    let witness = tell_witness(call.alloc, instance, names, cursors, log, asked.witness)?;
    let mut bytes = witness.bytes;
    let reports = tell_watchers(call, log, asked)?;
    bytes.extend_from_slice(&reports)?;
    Ok(LogText {
        missing: witness.missing,
        bytes,
    })
}

// What is printed of a layered log after its text. The log is copied if its records are read.
fn tell_in_layers<M>(
    call: &mut Call<M>,
    instance: &Instance,
    names: &Names,
    cursors: &Cursors,
    placed: &LayeredLog,
    asked: Asked,
) -> Result<LogText, AllocError>
    requires count { variables_of instance.now.stacks ≡ length cursors.now }
    requires legal { IsLegal instance.now (start_of instance.now) (records_of placed.now) }
    requires leads { cursors.now ≡ replay (start_of instance.now) (records_of placed.now) }
    ensures { IfOk result (λ t. TellsRecords asked
        (map (λ b. (kind b, state b)) call.old.watchers.items) names.now instance.now
        (records_of placed.now) t.missing t.bytes.items) }
{
    if !asked.looks() {
        return LogText::nothing(call.alloc);
    }
    let layered = placed.copy(call.alloc)?;
    let told = tell_records(call, instance, names, cursors, &layered, asked);
    drop(layered);
    told
}

// A text, followed by that of a layered log, if it is printed.
fn text_if(
    text: Vec<u8>,
    instance: &Instance,
    names: &Names,
    placed: &LayeredLog,
    printed: bool,
) -> Result<Vec<u8>, AllocError>
    requires { IsLegal instance.now (start_of instance.now) (records_of placed.now) }
    ensures { IfOk result (λ bytes. bytes.items ≡ text.items ++ layered_text names.now instance.now
        (if printed then Some placed.now else None)) }
{
    if !printed {
        return Ok(text);
    }
    placed.print_behind(text, instance, names)
}

// A text, followed by the requested parts of a layered log: its text, the witness and the reports.
fn text_of_layers<M>(
    call: &mut Call<M>,
    named: &Named,
    cursors: &Cursors,
    placed: &LayeredLog,
    asked: Asked,
    text: Vec<u8>,
) -> Result<LogText, AllocError>
    requires count { variables_of named.now.instance.now.stacks ≡ length cursors.now }
    requires legal { IsLegal named.now.instance.now (start_of named.now.instance.now)
        (records_of placed.now) }
    requires leads { cursors.now
        ≡ replay (start_of named.now.instance.now) (records_of placed.now) }
    ensures { (log : List LogRecord) → AreSorted log placed.now
        → IfOk result (λ t. Continues text.items (TellsLog asked
        (map (λ b. (kind b, state b)) call.old.watchers.items) named.now.names.now
        named.now.instance.now log t.missing) t.bytes.items) }
{
    let mut bytes = text_if(text, named.instance, named.names, placed, asked.log)?;
    let told = tell_in_layers(call, named.instance, named.names, cursors, placed, asked)?;
    bytes.extend_from_slice(&told.bytes)?;
    Ok(LogText {
        missing: told.missing,
        bytes,
    })
}

// Like `text_of_layers`, for a log that is put into layers first.
fn text_of_log<M>(
    call: &mut Call<M>,
    named: &Named,
    cursors: &Cursors,
    log: &Log,
    asked: Asked,
    text: Vec<u8>,
) -> Result<LogText, AllocError>
    requires count { variables_of named.now.instance.now.stacks ≡ length cursors.now }
    requires legal { IsLegal named.now.instance.now (start_of named.now.instance.now) log.now }
    requires leads { cursors.now ≡ replay (start_of named.now.instance.now) log.now }
    ensures { IfOk result (λ t. Continues text.items (TellsLog asked
        (map (λ b. (kind b, state b)) call.old.watchers.items) named.now.names.now
        named.now.instance.now log.now t.missing) t.bytes.items) }
{
    let instance = named.instance;
    // Read for its contract, which says what holds of every instance.
    let _units = instance.units();
    let placed = LayeredLog::of(call.alloc, instance.stacks().count(), log)?;
    let told = text_of_layers(call, named, cursors, &placed, asked, text);
    drop(placed);
    told
}

// Appends to `text` the requested parts of the log of a run. The run must have kept its log if any
// part is requested.
fn tell_run<M>(
    call: &mut Call<M>,
    named: &Named,
    run: &Outcome,
    asked: Asked,
    text: Vec<u8>,
) -> Result<LogText, AllocError>
    requires { IsRunOf named.now.instance.now (start_of named.now.instance.now)
        (asks_for_log asked) run.now }
    ensures { IfOk result (λ t. Continues text.items (TellsRun asked
        (map (λ b. (kind b, state b)) call.old.watchers.items) named.now.names.now
        named.now.instance.now run.now t.missing) t.bytes.items) }
{
    match &run.log {
        Some(log) => text_of_log(call, named, &run.end.cursors, log, asked, text),
        None => Ok(LogText {
            missing: false,
            bytes: text,
        }),
    }
}

/// Prints the end of a run of the instance, followed by the requested parts of its log.
pub fn tell_end<M>(
    call: &mut Call<M>,
    facts: &Facts,
    instance: &Instance,
    run: &Outcome,
    asked: Asked,
) -> Result<Answer, AllocError>
    requires facts { AreFactsOf facts.now instance.now }
    requires run { IsRunOf instance.now (start_of instance.now) (asks_for_log asked) run.now }
    requires within { EndsWithin asked.pops run.now.end.pops }
    ensures ended { asked.free ≡ false → asked.count ≡ None → IsExtremal instance.now.family
        → IfOk result (λ a. AnswersBy (IsEndOf asked
        (map (λ b. (kind b, state b)) call.old.watchers.items) facts.now instance.now)
        a.status a.text.items) }
    ensures history { asked.free ≡ true → IfOk result (λ a. AnswersBy (IsHistoryOf asked
        (map (λ b. (kind b, state b)) call.old.watchers.items) facts.now instance.now)
        a.status a.text.items) }
    ensures kept { asked.free ≡ true → (log : List LogRecord) → run.now.log ≡ Some log
        → IfOk result (λ a. AnswersBy (IsHistoryWith log asked
        (map (λ b. (kind b, state b)) call.old.watchers.items) facts.now instance.now)
        a.status a.text.items) }
{
    // Read for its contract, which says what holds of every instance.
    let _units = instance.units();
    let text = text(call.alloc, facts, instance, &run.end)?;
    let names = names_of(facts);
    let named = Named {
        instance,
        names: &names,
    };
    let told = tell_run(call, &named, run, asked, text)?;
    Ok(Answer {
        status: status_with(&run.end, asked.free, told.missing),
        text: told.bytes,
    })
}

/// Prints the end of a run of the instance, followed by the requested parts of its log. If the
/// output does not depend on the instance, the instance is dropped first.
pub fn tell_sampled<M>(
    call: &mut Call<M>,
    facts: &Facts,
    instance: Instance,
    run: Outcome,
    asked: Asked,
) -> Result<Answer, AllocError>
    requires facts { AreFactsOf facts.now instance }
    requires run { IsRunOf instance (start_of instance) (asks_for_log asked) run }
    requires within { EndsWithin asked.pops run.end.pops }
    ensures ended { asked.free ≡ false → asked.count ≡ None → IsExtremal instance.family
        → IfOk result (λ a. AnswersBy (IsEndOf asked
        (map (λ b. (kind b, state b)) call.old.watchers.items) facts.now instance)
        a.status a.text.items) }
    ensures history { asked.free ≡ true → IfOk result (λ a. AnswersBy (IsHistoryOf asked
        (map (λ b. (kind b, state b)) call.old.watchers.items) facts.now instance)
        a.status a.text.items) }
{
    if run.log.is_none() && run.end.stuck.len() == 0 && facts.are_told_in_full() {
        let told = tell_sample(call.alloc, facts, instance, &run.end, asked);
        drop(run);
        return told;
    }
    let told = tell_end(call, facts, &instance, &run, asked);
    drop(run);
    drop(instance);
    told
}
