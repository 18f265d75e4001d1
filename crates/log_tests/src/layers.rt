use crate::comparing::same_text;
use crate::records::log_of;
use confluence_core::{Log, Record};
use pop_instance::Cube;
use pop_log::{layered, layers};
use std::alloc::Global;
use std::process::Abort;

// A pop: its unit and its variables.
type Pop = (u32, &'static [u32]);

// Adds the variables of a cube.
fn push_variables(rt: &impl Abort, text: &mut String, cube: &Cube) {
    for i in 0..cube.len() {
        let (v, _) = cube.pair(i);
        write!(text, "{v} ").expect(rt, "memory");
    }
    text.push_str("; ").expect(rt, "memory");
}

// Adds the unit of a record and its variables.
fn push_record(rt: &impl Abort, text: &mut String, popped: &Record) {
    write!(text, "{}: ", popped.unit()).expect(rt, "memory");
    push_variables(rt, text, popped.cube());
}

// The unit and the variables of each record of a log.
fn shown(rt: &impl Abort, alloc: Global, log: &Log) -> String {
    let mut text = String::new(alloc);
    for place in 0..log.len() {
        push_record(rt, &mut text, log.at(place));
    }
    text
}

// The layers of the records of pops.
fn layers_of(rt: &impl Abort, alloc: Global, pops: &[Pop]) -> Vec<u64> {
    let log = log_of(rt, alloc, 4, pops);
    let found = layers(alloc, 4, &log).expect(rt, "memory");
    drop(log);
    found
}

// Compares the layers of the records of pops.
fn has_layers(rt: &impl Abort, alloc: Global, pops: &[Pop], want: &[u64]) {
    let found = layers_of(rt, alloc, pops);
    assert!(rt; found.as_slice() == want, "layers {want:?}");
    drop(found);
}

// Compares the unit and the variables of each record of pops in the layered order.
fn stand(rt: &impl Abort, alloc: Global, pops: &[Pop], want: &str) {
    let log = log_of(rt, alloc, 4, pops);
    let layered = layered(alloc, 4, &log).expect(rt, "memory");
    drop(log);
    let text = shown(rt, alloc, &layered);
    drop(layered);
    same_text(rt, text.as_bytes(), want);
    drop(text);
}

// The pops of a log, the layers of its records, and these in the layered order, worked by hand.
// The last two have different units, and the larger one is popped first.
static LOGS: [(&[Pop], &[u64], &str); 5] = [
    (
        &[(0, &[0]), (0, &[0, 1]), (0, &[2])],
        &[1, 2, 1],
        "0: 0 ; 0: 2 ; 0: 0 1 ; ",
    ),
    (
        &[(0, &[0]), (0, &[1]), (0, &[0, 1])],
        &[1, 1, 2],
        "0: 0 ; 0: 1 ; 0: 0 1 ; ",
    ),
    (
        &[(0, &[0]), (0, &[0]), (0, &[1]), (0, &[0, 1])],
        &[1, 2, 1, 3],
        "0: 0 ; 0: 1 ; 0: 0 ; 0: 0 1 ; ",
    ),
    (
        &[
            (0, &[0, 3]),
            (0, &[1]),
            (0, &[2, 3]),
            (0, &[0]),
            (0, &[1, 2]),
        ],
        &[1, 1, 2, 2, 3],
        "0: 0 3 ; 0: 1 ; 0: 2 3 ; 0: 0 ; 0: 1 2 ; ",
    ),
    (
        &[(3, &[0]), (1, &[1]), (3, &[0])],
        &[1, 1, 2],
        "1: 1 ; 3: 0 ; 3: 0 ; ",
    ),
];

#[test]
fn a_record_stands_above_all_that_it_depends_on(rt: HostRuntime) {
    for (pops, want, _) in LOGS.iter() {
        has_layers(&rt, rt.alloc(), pops, want);
    }
}

#[test]
fn records_of_one_layer_stand_by_unit_and_then_in_the_order_of_the_log(rt: HostRuntime) {
    for (pops, _, want) in LOGS.iter() {
        stand(&rt, rt.alloc(), pops, want);
    }
}
