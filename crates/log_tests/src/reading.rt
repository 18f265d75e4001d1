mod texts;

use crate::instances::{of_arrows, of_events};
use confluence_core::{Log, Record};
use pop_instance::Instance;
use pop_log::{LogRefusal, Names, read_log};
use std::alloc::Global;
use std::process::Abort;
use test_instances::EventRow;
use texts::{FIRST, FORMULA, LAST, LAYERED, MIDDLE, ONE_CLAUSE, SINKS};

// The clause `1`. Its event demands 0 of the one variable, which has the stack 0, 0, 1.
static ONE_ROW: [&[u32]; 1] = [&[0, 0, 1]];

static ONE: [EventRow; 1] = [(1, &[(0, 0)])];

// The clauses `1` and `2`.
static TWO_ROWS: [&[u32]; 2] = [&[0, 0, 1], &[0, 1]];

static TWO: [EventRow; 2] = [(1, &[(0, 0)]), (2, &[(1, 0)])];

// The clauses `1 2`, `-1 3`, `1 2` and `3`. The third is dropped.
static CLAUSE_ROWS: [&[u32]; 3] = [&[0, 1, 1], &[0, 1, 0], &[0, 0, 1]];

static CLAUSES: [EventRow; 4] = [
    (1, &[(0, 0), (1, 0)]),
    (2, &[(0, 1), (2, 0)]),
    (3, &[(0, 0), (1, 0)]),
    (4, &[(2, 0)]),
];

// The sinks of the triangle with the edges 1 2, 2 3 and 3 1.
static TRIANGLE_ROWS: [&[u32]; 3] = [&[1, 0, 1], &[0, 1, 1], &[0, 1, 0]];

static TRIANGLE: [EventRow; 3] = [
    (1, &[(0, 1), (2, 0)]),
    (2, &[(0, 0), (1, 1)]),
    (3, &[(1, 0), (2, 1)]),
];

// The trees of the triangle to its vertex 2. Each other vertex has an arrow to vertex 2, and one
// to the third vertex.
static TREE_ROWS: [&[u32]; 2] = [&[1, 1, 0], &[1, 1, 0]];

static HEADS: [[Option<u32>; 2]; 2] = [[None, Some(1)], [None, Some(0)]];

// Adds a record: the unit, and the value and the entry of each variable.
fn push_record(rt: &impl Abort, text: &mut String, record: &Record) {
    write!(text, "{}:", record.unit()).expect(rt, "memory");
    let cube = record.cube();
    for i in 0..cube.len() {
        let (v, x) = cube.pair(i);
        write!(text, " {v}={x}@{}", record.entry(i)).expect(rt, "memory");
    }
    text.push_str(";").expect(rt, "memory");
}

// Adds the records of a log: the unit of each, and the value and the entry of each variable.
fn push_records(rt: &impl Abort, text: &mut String, log: &Log) {
    for place in 0..log.len() {
        push_record(rt, text, log.at(place));
    }
}

// Adds why a text is rejected.
fn push_refusal(rt: &impl Abort, text: &mut String, refusal: &LogRefusal) {
    let pushed = match refusal {
        LogRefusal::Limit => text.push_str("limit"),
        LogRefusal::Malformed(line) => write!(text, "malformed {line}"),
        LogRefusal::NotLegal(place) => write!(text, "not legal {place}"),
        LogRefusal::Unlayered(place) => write!(text, "unlayered {place}"),
        LogRefusal::OutOfMemory => panic!(rt; "memory"),
    };
    pushed.expect(rt, "memory");
}

// The result of reading a text, as text.
fn answer(
    rt: &impl Abort,
    alloc: Global,
    instance: &Instance,
    names: &Names,
    text: &[u8],
) -> String {
    let mut answer = String::new(alloc);
    match read_log(alloc, instance, names, text) {
        Ok(log) => {
            push_records(rt, &mut answer, &log);
            drop(log);
        }
        Err(refusal) => push_refusal(rt, &mut answer, &refusal),
    }
    answer
}

// Compares the result of reading a text.
fn is_answered(
    rt: &impl Abort,
    alloc: Global,
    instance: &Instance,
    names: &Names,
    text: &[u8],
    want: &str,
) {
    let found = answer(rt, alloc, instance, names, text);
    let size = text.len();
    assert!(rt; found.as_str() == want, "{size} bytes: {found}, not {want}");
    drop(found);
}

// Compares the results of reading texts with those that were worked by hand.
fn compare(
    rt: &impl Abort,
    alloc: Global,
    instance: &Instance,
    names: Names,
    cases: &[(&str, &str)],
) {
    for (text, want) in cases {
        is_answered(rt, alloc, instance, &names, text.as_bytes(), want);
    }
}

// Compares the results over the instance of these rows of entries and these events.
fn compare_listed(
    rt: &impl Abort,
    alloc: Global,
    rows: &[&[u32]],
    events: &[EventRow],
    cases: &[(&str, &str)],
) {
    let instance = of_events(rt, alloc, rows, events);
    compare(rt, alloc, &instance, Names::Plain, cases);
    drop(instance);
}

#[test]
fn logs_of_a_formula_are_read_and_others_refused(rt: HostRuntime) {
    compare_listed(&rt, rt.alloc(), &CLAUSE_ROWS, &CLAUSES, &FORMULA);
}

#[test]
fn logs_are_read_in_both_versions(rt: HostRuntime) {
    compare_listed(&rt, rt.alloc(), &ONE_ROW, &ONE, &ONE_CLAUSE);
}

#[test]
fn logs_in_layers_are_read_and_others_refused(rt: HostRuntime) {
    compare_listed(&rt, rt.alloc(), &TWO_ROWS, &TWO, &LAYERED);
}

#[test]
fn logs_of_sinks_are_read(rt: HostRuntime) {
    compare_listed(&rt, rt.alloc(), &TRIANGLE_ROWS, &TRIANGLE, &SINKS);
}

// Compares the results with the names for each root.
fn compare_trees(rt: &impl Abort, alloc: Global, instance: &Instance) {
    compare(rt, alloc, instance, Names::Tree(2), &MIDDLE);
    compare(rt, alloc, instance, Names::Tree(1), &FIRST);
    compare(rt, alloc, instance, Names::Tree(3), &LAST);
}

#[test]
fn logs_of_trees_are_read_by_the_names_of_their_root(rt: HostRuntime) {
    let instance = of_arrows(&rt, rt.alloc(), &TREE_ROWS, &HEADS);
    compare_trees(&rt, rt.alloc(), &instance);
    drop(instance);
}

// The expected result for the first n bytes of a text.
fn cut_answer(n: usize) -> &'static str {
    match n {
        0..=7 => "malformed 1",
        8..=17 => "malformed 2",
        18..=27 => "malformed 3",
        _ => "0: 0=0@0;0: 0=0@1;",
    }
}

static CUT: [u8; 28] = *b"log 1 2\npop 1 1:0\npop 1 1:1\n";

// Compares the results for its prefixes.
fn compare_cuts(rt: &impl Abort, alloc: Global, instance: &Instance) {
    for n in 0..29 {
        is_answered(rt, alloc, instance, &Names::Plain, &CUT[..n], cut_answer(n));
    }
}

#[test]
fn every_cut_of_a_text_is_refused_at_its_line(rt: HostRuntime) {
    let instance = of_events(&rt, rt.alloc(), &ONE_ROW, &ONE);
    compare_cuts(&rt, rt.alloc(), &instance);
    drop(instance);
}
