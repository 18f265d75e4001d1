ghost use Rattle.std.specs.Prelude.{◌≡◌, length};
ghost use Rattle.pop_model.specs.Stacks.{variables_of};

use crate::compare::{are_stuck, is_so, same, same_at};
use crate::made::listed;
use confluence_core::{End, Keep, Log, Record, Run, Stuck, run_first, run_from_zeros};
use pop_instance::Instance;
use std::alloc::Global;
use std::process::Abort;
use test_instances::{EventRow, are_cursors_alike, has_cursors};

mod chains;
mod log;
mod parts;
mod rings;
mod units;

// The expected end: its cursors, its pops and the units of its stuck events.
struct Want {
    cursors: &'static [u32],
    pops: u64,
    stuck: &'static [u32],
}

// Compares an end over this many variables.
fn is_end(rt: &impl Abort, end: &End, count: u32, want: &Want)
    requires { count ≡ length end.now.cursors }
{
    let are_there = has_cursors(&end.cursors, count, want.cursors);
    is_so(rt, are_there, "cursors of variables below", count as u64);
    same(rt, end.pops, want.pops, "pops");
    are_stuck(rt, &end.stuck, want.stuck);
}

// Compares the end of the plain run.
fn first_ends_with(rt: &impl Abort, alloc: Global, instance: &Instance, want: &Want) {
    let end = run_first(alloc, instance).expect(rt, "memory");
    is_end(rt, &end, instance.stacks().count(), want);
    drop(end);
}

// Compares the end of the run from zeros.
fn run_ends_with(rt: &impl Abort, alloc: Global, instance: &Instance, want: &Want) {
    let run = run_from_zeros(alloc, instance, Keep::Nothing).expect(rt, "memory");
    is_end(rt, &run.end, instance.stacks().count(), want);
    drop(run);
}

// Runs the instance by both calls, and compares their ends.
fn ends_with(rt: &impl Abort, alloc: Global, instance: &Instance, want: &Want) {
    first_ends_with(rt, alloc, instance, want);
    run_ends_with(rt, alloc, instance, want);
}

// Compares the units of two stuck lists.
fn stuck_alike(rt: &impl Abort, stuck: &Stuck, others: &Stuck) {
    let count = others.len();
    assert!(rt; stuck.len() == count);
    for i in 0..count {
        same_at(rt, stuck.at(i).0, others.at(i).0, "stuck event", i);
    }
}

// Compares the ends of two runs over this many variables.
fn ends_alike(rt: &impl Abort, end: &End, other: &End, count: u32)
    requires end { count ≡ length end.now.cursors }
    requires other { count ≡ length other.now.cursors }
{
    let are_alike = are_cursors_alike(&end.cursors, &other.cursors, count);
    is_so(rt, are_alike, "cursors of variables below", count as u64);
    same(rt, end.pops, other.pops, "pops");
    stuck_alike(rt, &end.stuck, &other.stuck);
}

// Compares the end of the run from zeros with that of the plain run.
fn run_ends_as(rt: &impl Abort, alloc: Global, instance: &Instance, first: &End)
    requires { variables_of instance.now.stacks ≡ length first.now.cursors }
{
    let run = run_from_zeros(alloc, instance, Keep::Nothing).expect(rt, "memory");
    ends_alike(rt, &run.end, first, instance.stacks().count());
    drop(run);
}

// Runs an instance by both calls, and compares their ends. Returns the numbers of pops and of
// stuck events.
fn pops_and_stuck(rt: &impl Abort, alloc: Global, instance: &Instance) -> (u64, u64) {
    let first = run_first(alloc, instance).expect(rt, "memory");
    run_ends_as(rt, alloc, instance, &first);
    let found = (first.pops, first.stuck.len());
    drop(first);
    found
}

// Rows of entries, listed events, and the expected end of their run. Worked by hand.
struct Case {
    rows: &'static [&'static [u32]],
    events: &'static [EventRow],
    want: Want,
}

// Runs the instance of a case, and compares its ends.
fn case_ends(rt: &impl Abort, alloc: Global, case: &Case) {
    let instance = listed(rt, alloc, case.rows, case.events);
    ends_with(rt, alloc, &instance, &case.want);
    drop(instance);
}

static PAST_A_STUCK_EVENT: Case = Case {
    rows: &[&[0], &[0, 0, 1]],
    events: &[(1, &[(0, 0)]), (2, &[(1, 0)])],
    want: Want {
        cursors: &[0, 2],
        pops: 2,
        stuck: &[0],
    },
};

#[test]
fn popping_goes_on_past_a_stuck_event(rt: HostRuntime) {
    case_ends(&rt, rt.alloc(), &PAST_A_STUCK_EVENT);
}

static AT_THE_LAST_ENTRY: Case = Case {
    rows: &[&[0, 0]],
    events: &[(1, &[(0, 0)])],
    want: Want {
        cursors: &[1],
        pops: 1,
        stuck: &[0],
    },
};

#[test]
fn an_event_is_stuck_at_the_last_entry(rt: HostRuntime) {
    case_ends(&rt, rt.alloc(), &AT_THE_LAST_ENTRY);
}

static EVERY_VARIABLE: Case = Case {
    rows: &[&[0, 1], &[0, 1]],
    events: &[(1, &[(0, 0), (1, 0)]), (2, &[(0, 1), (1, 0)])],
    want: Want {
        cursors: &[1, 1],
        pops: 1,
        stuck: &[],
    },
};

#[test]
fn a_pop_moves_every_variable_of_the_event(rt: HostRuntime) {
    case_ends(&rt, rt.alloc(), &EVERY_VARIABLE);
}

// The log that a run from zeros keeps, if it is asked to keep one.
fn log_of(rt: &impl Abort, alloc: Global, instance: &Instance, keep: Keep) -> Option<Log> {
    let run = run_from_zeros(alloc, instance, keep).expect(rt, "memory");
    let Run { end, log } = run;
    drop(end);
    log
}

// Whether a run keeps a log without being asked to.
fn logs_unasked(rt: &impl Abort, alloc: Global, instance: &Instance) -> bool {
    let log = log_of(rt, alloc, instance, Keep::Nothing);
    let answer = log.is_some();
    drop(log);
    answer
}

// A term of a record: a variable of its cube, its value there, and its entry.
type Term = (u32, u32, u32);

// Compares a record: its unit and its terms.
fn is_record(rt: &impl Abort, popped: &Record, unit: u32, terms: &[Term]) {
    same(rt, popped.unit() as u64, unit as u64, "unit");
    let cube = popped.cube();
    assert!(rt; cube.len() as usize == terms.len());
    for (i, term) in terms.iter().enumerate() {
        let (v, value) = cube.pair(i as u32);
        let found = (v, value, popped.entry(i as u32));
        is_so(rt, found == *term, "term", i as u64);
    }
}

// Compares the records of a log. Each must pop this unit with these terms.
fn is_log(rt: &impl Abort, log: &Log, unit: u32, want: &[&[Term]]) {
    assert!(rt; log.len() == want.len() as u64);
    for (i, terms) in want.iter().enumerate() {
        is_record(rt, log.at(i as u64), unit, terms);
    }
}

// Compares the log of a run.
fn logs(rt: &impl Abort, alloc: Global, instance: &Instance, unit: u32, want: &[&[Term]]) {
    let log = log_of(rt, alloc, instance, Keep::Log).expect(rt, "a log");
    is_log(rt, &log, unit, want);
    drop(log);
}

static TERMS: &[&[Term]] = &[&[(0, 0, 0)], &[(0, 0, 1)]];

// Variable 0 has the entries 0, 0, 1, and the event demands the value 0.
static TWO_POPS: Case = Case {
    rows: &[&[0, 0, 1]],
    events: &[(1, &[(0, 0)])],
    want: Want {
        cursors: &[2],
        pops: 2,
        stuck: &[],
    },
};

// Compares the log of the instance of `TWO_POPS`, which is kept only if requested.
fn two_pops_logged(rt: &impl Abort, alloc: Global, instance: &Instance) {
    let logs_unasked = logs_unasked(rt, alloc, instance);
    assert!(rt; !logs_unasked);
    logs(rt, alloc, instance, 0, TERMS);
}

#[test]
fn the_log_has_each_pop_with_its_entries(rt: HostRuntime) {
    let alloc = rt.alloc();
    let instance = listed(&rt, alloc, TWO_POPS.rows, TWO_POPS.events);
    ends_with(&rt, alloc, &instance, &TWO_POPS.want);
    two_pops_logged(&rt, alloc, &instance);
    drop(instance);
}
