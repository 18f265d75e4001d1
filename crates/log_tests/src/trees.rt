mod plain;

use crate::comparing::same_text;
use crate::records::{log_of, popped};
use confluence_core::Log;
use std::alloc::Global;
use std::process::Abort;
use witness_trees::{Tree, print_missing, tree};

// All variables are below this.
const COUNT: u32 = 7;

// A pop: its unit and its variables.
type Pop = (u32, &'static [u32]);

// Compares the depths and units of a tree, in preorder.
fn has_vertices(rt: &impl Abort, tree: &Tree, want: &[(u64, u32)], what: &str) {
    assert!(rt; tree.len() == want.len() as u64, "{what}");
    for i in 0..tree.len() {
        let found = (tree.depth(i), tree.unit(i));
        assert!(rt; found == want[i as usize], "{what}, vertex {i}");
    }
}

// Pops, the place of one of them, and the depths and units of its tree, in preorder.
struct Case {
    what: &'static str,
    pops: &'static [Pop],
    t: u64,
    tree: &'static [(u64, u32)],
}

// Compares the tree of the record of a case.
fn is_case(rt: &impl Abort, alloc: Global, case: &Case) {
    let log = log_of(rt, alloc, COUNT, case.pops);
    assert!(rt; case.t < log.len(), "{}", case.what);
    let tree = tree(alloc, &log, case.t).expect(rt, "memory");
    drop(log);
    has_vertices(rt, &tree, case.tree, case.what);
    drop(tree);
}

// The events of the clauses `1 2 0`, `3 4 0` and `2 3 0`.
const FIRST: Pop = (1, &[0, 1]);

const SECOND: Pop = (2, &[2, 3]);

const THIRD: Pop = (3, &[1, 2]);

// Two events that each share a variable with the event of the root, and one that shares a variable
// with the last event.
const ROOT: Pop = (1, &[0, 1]);

const LESSER: Pop = (2, &[0, 5]);

const GREATER: Pop = (3, &[1, 6]);

const LAST: Pop = (4, &[5, 6]);

// Worked by hand.
static CASES: [Case; 9] = [
    Case {
        what: "siblings come by rising label, here as they were popped",
        pops: &[FIRST, SECOND, THIRD],
        t: 2,
        tree: &[(0, 3), (1, 1), (1, 2)],
    },
    Case {
        what: "siblings come by rising label, here the other way round",
        pops: &[SECOND, FIRST, THIRD],
        t: 2,
        tree: &[(0, 3), (1, 1), (1, 2)],
    },
    // Two vertices of depth 1 share a variable with event 4; event 2 has the lower label.
    Case {
        what: "of two vertices of one depth that with the lesser label is the parent, popped first",
        pops: &[LAST, LESSER, GREATER, ROOT],
        t: 3,
        tree: &[(0, 1), (1, 2), (2, 4), (1, 3)],
    },
    Case {
        what: "of two vertices of one depth that with the lesser label is the parent, popped last",
        pops: &[LAST, GREATER, LESSER, ROOT],
        t: 3,
        tree: &[(0, 1), (1, 2), (2, 4), (1, 3)],
    },
    Case {
        what: "a record that meets no vertex is left out",
        pops: &[FIRST, (7, &[5]), SECOND, FIRST],
        t: 3,
        tree: &[(0, 1), (1, 1)],
    },
    Case {
        what: "a record stands below the deepest vertex that it meets",
        pops: &[THIRD, (5, &[1]), THIRD],
        t: 2,
        tree: &[(0, 3), (1, 5), (2, 3)],
    },
    Case {
        what: "records behind the first one have no part",
        pops: &[FIRST, THIRD, SECOND, THIRD],
        t: 0,
        tree: &[(0, 1)],
    },
    Case {
        what: "records behind the second one have no part",
        pops: &[FIRST, THIRD, SECOND, THIRD],
        t: 1,
        tree: &[(0, 3), (1, 1)],
    },
    Case {
        what: "records behind the third one have no part",
        pops: &[FIRST, THIRD, SECOND, THIRD],
        t: 2,
        tree: &[(0, 2), (1, 3), (2, 1)],
    },
];

#[test]
fn trees_have_the_vertices_that_are_worked_by_hand(rt: HostRuntime) {
    for case in CASES.iter() {
        is_case(&rt, rt.alloc(), case);
    }
}

// Variables, entries and cursors, and the line for a pop that is not in the log. Worked by hand.
static MISSING: [(u32, u32, u32, &str); 2] = [
    (7, 2, 2, "witness none 7 2 2\n"),
    (1, 0, 4294967295, "witness none 1 0 4294967295\n"),
];

#[test]
fn a_missing_pop_is_printed_with_its_entry_and_the_cursor(rt: HostRuntime) {
    for (name, entry, cursor, want) in MISSING.iter() {
        let text = print_missing(rt.alloc(), *name, *entry, *cursor).expect(&rt, "memory");
        same_text(&rt, &text, want);
        drop(text);
    }
}

// The log of this many pops of one event, of unit 3.
fn log_of_one(rt: &impl Abort, alloc: Global, pops: u64) -> Log {
    let mut log = Log::new(alloc);
    for _ in 0..pops {
        let popped = popped(rt, alloc, COUNT, 3, &[1, 2]);
        log.push(popped).expect(rt, "memory");
    }
    log
}

// Compares a tree with a path of this many vertices of unit 3.
fn is_path(rt: &impl Abort, tree: &Tree, vertices: u64) {
    assert!(rt; tree.len() == vertices);
    for i in 0..vertices {
        assert!(rt; (tree.depth(i), tree.unit(i)) == (i, 3), "vertex {i}");
    }
}

#[test]
fn pops_of_one_event_make_a_path(rt: HostRuntime) {
    let log = log_of_one(&rt, rt.alloc(), 1000);
    assert!(&rt; log.len() == 1000);
    let tree = tree(rt.alloc(), &log, 999).expect(&rt, "memory");
    drop(log);
    is_path(&rt, &tree, 1000);
    drop(tree);
}
