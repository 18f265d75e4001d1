//! A run of one clause that is stopped, printed, read and checked.
ghost use Rattle.std.specs.Prelude.{◌≡◌, length};

use super::paused::{INPUT, LOG_TEXT, TEXT, is_it};
use super::printed::job_of;
use super::{looks_at, made, same_at, same_bytes};
use pop_instance::{Cursors, Instance};
use pop_log::{LogRefusal, Names, print_layered, read_run};
use run_cert::{Look, look, print_cert, read_cert, run_part};
use std::alloc::Global;
use std::process::Abort;
use test_instances::listed;

// The instance of the clause `1` over the row 0, 0, 1. Its event is that the variable has the
// value 0.
fn one_clause(rt: &impl Abort, alloc: Global) -> Instance {
    let tried = listed(alloc, &[&[0, 0, 1]], &[(1, &[(0, 0)])]);
    made(rt, tried, "an instance")
}

// Limits, and the expected runs: the number of records of the log, which is that of the popped
// entries; the state; and the number of events that occur. Worked by hand.
static LIMITS: [(u64, u64, Look, u64); 5] = [
    (0, 0, Look::Open, 1),
    (1, 1, Look::Open, 1),
    (2, 2, Look::Finished, 0),
    (3, 2, Look::Finished, 0),
    (u64::MAX, 2, Look::Finished, 0),
];

// Compares a run of the one variable: the number of records of its log, which is that of the
// popped entries, and its state.
fn stands(
    rt: &impl Abort,
    cursors: &Cursors,
    count: u32,
    found: (u64, Look),
    wanted: (u64, Look),
    place: u64,
)
    requires { count ≡ length cursors.now }
{
    let (pops, look) = wanted;
    same_at(rt, found.0, pops, "records", place);
    assert!(rt; 0 < count);
    let popped = cursors.get(0) as u64;
    same_at(rt, popped, pops, "popped entries", place);
    looks_at(rt, found.1, look, place);
}

// Compares a run to a limit.
fn leaves(
    rt: &impl Abort,
    alloc: Global,
    instance: &Instance,
    limit: u64,
    wanted: (u64, Look, u64),
) {
    let (pops, look, stuck) = wanted;
    let part = run_part(alloc, instance, limit).expect(rt, "memory");
    let found = (part.log.len(), part.seen.look);
    let count = instance.stacks().count();
    stands(rt, &part.cursors, count, found, (pops, look), limit);
    same_at(rt, part.seen.stuck.len(), stuck, "stuck events", limit);
}

// Stops the run of that instance at each limit.
fn leaves_each(rt: &impl Abort, alloc: Global, instance: &Instance) {
    for (limit, pops, look, stuck) in LIMITS.iter() {
        leaves(rt, alloc, instance, *limit, (*pops, *look, *stuck));
    }
}

#[test]
fn a_run_stops_at_its_limit(rt: HostRuntime) {
    let instance = one_clause(&rt, rt.alloc());
    leaves_each(&rt, rt.alloc(), &instance);
    drop(instance);
}

// The text of the log of a run for one pop.
fn pause_log(rt: &impl Abort, alloc: Global, instance: &Instance) -> Vec<u8> {
    let part = run_part(alloc, instance, 1).expect(rt, "memory");
    looks_at(rt, part.seen.look, Look::Open, 1);
    print_layered(alloc, instance, &Names::Plain, &part.log).expect(rt, "memory")
}

// The text of the certificate of that run.
fn pause(rt: &impl Abort, alloc: Global, instance: &Instance) -> Vec<u8> {
    let log_text = pause_log(rt, alloc, instance);
    let job = job_of(rt, alloc, "formula --stacks 0,0,1");
    print_cert(alloc, &job, INPUT.as_slice(), &log_text).expect(rt, "memory")
}

// Reads the text of that certificate.
fn reads(rt: &impl Abort, alloc: Global, text: &[u8]) {
    let cert = read_cert(alloc, text).expect(rt, "a certificate");
    let is_it = is_it(&cert);
    assert!(rt; is_it);
}

// Prints the certificate of the run of that instance for one pop, and reads it.
fn is_told(rt: &impl Abort, alloc: Global, instance: &Instance) {
    let text = pause(rt, alloc, instance);
    same_bytes(rt, &text, TEXT.as_slice(), "text");
    reads(rt, alloc, &text);
}

#[test]
fn a_paused_run_is_told(rt: HostRuntime) {
    let instance = one_clause(&rt, rt.alloc());
    is_told(&rt, rt.alloc(), &instance);
    drop(instance);
}

// Texts of logs, with the number of their records and the state of the run after them, worked by
// hand. Each record pops one entry of the one variable.
static TOLD: [(&str, u64, Look); 3] = [
    ("log 1 0\n", 0, Look::Open),
    (LOG_TEXT, 1, Look::Open),
    ("log 1 2\npop 1 1:0\npop 1 1:1\n", 2, Look::Finished),
];

// Reads the text of a log, and compares its run.
fn tells(rt: &impl Abort, alloc: Global, instance: &Instance, text: &[u8], wanted: (u64, Look)) {
    let run = read_run(alloc, instance, &Names::Plain, text).expect(rt, "a run");
    let seen = look(alloc, instance, &run.cursors).expect(rt, "memory");
    let count = instance.stacks().count();
    let found = (run.pops, seen.look);
    stands(rt, &run.cursors, count, found, wanted, wanted.0);
}

// Reads each of these logs.
fn tells_each(rt: &impl Abort, alloc: Global, instance: &Instance) {
    for (text, pops, look) in TOLD.iter() {
        tells(rt, alloc, instance, text.as_bytes(), (*pops, *look));
    }
}

#[test]
fn a_log_text_tells_how_a_run_stands(rt: HostRuntime) {
    let instance = one_clause(&rt, rt.alloc());
    tells_each(&rt, rt.alloc(), &instance);
    drop(instance);
}

// Reads the text of a log with a first record that is not legal.
fn is_refused(rt: &impl Abort, alloc: Global, instance: &Instance, text: &[u8]) {
    match read_run(alloc, instance, &Names::Plain, text) {
        Ok(_) => panic!(rt; "a legal log"),
        Err(refusal) => assert!(rt; matches!(refusal, LogRefusal::NotLegal(0))),
    }
}

// Reads the log of a certificate of that instance.
fn reads_refused(rt: &impl Abort, alloc: Global, instance: &Instance, text: &[u8]) {
    let cert = read_cert(alloc, text).expect(rt, "a certificate");
    is_refused(rt, alloc, instance, cert.log_text());
}

// The entry 1 is not that of the first pop.
#[test]
fn a_changed_entry_is_no_legal_log(rt: HostRuntime) {
    let mut text = TEXT;
    text[69] = b'1';
    let instance = one_clause(&rt, rt.alloc());
    reads_refused(&rt, rt.alloc(), &instance, text.as_slice());
    drop(instance);
}
