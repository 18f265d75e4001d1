//! Verdicts on listed events.
ghost use Rattle.std.specs.Prelude.{All};
ghost use Rattle.std.specs.Bool.{OnTrue};
ghost use Rattle.pop_model.specs.Popping.{NamesBelow};

use crate::made::events;
use extremal_check::{Verdict, check};
use pop_instance::{Cube, Events, Family, Index};
use std::alloc::Global;
use std::process::Abort;
use test_instances::EventRow;

// The number of variables that the events may name.
const VARIABLES: u32 = 10;

// Whether the cube names only variables of the tests.
fn is_known(cube: &Cube) -> bool
    ensures { OnTrue result (NamesBelow cube.now VARIABLES) }
{
    for i in 0..cube.len() {
        if cube.pair(i).0 >= VARIABLES {
            return false;
        }
    }
    true
}

// Whether the events name only variables of the tests.
fn are_known(events: &Events) -> bool
    ensures { OnTrue result (All (λ r. NamesBelow r.1 VARIABLES) events.now) }
{
    for place in 0..events.count() {
        if !is_known(events.cube(place)) {
            return false;
        }
    }
    true
}

// The verdict on listed events.
fn verdict_on(rt: &impl Abort, alloc: Global, events: &Events) -> Verdict {
    let known = are_known(events);
    assert!(rt; known);
    let index = Index::build(alloc, events, VARIABLES).expect(rt, "memory");
    let answer = check(alloc, events, &index).expect(rt, "memory");
    drop(index);
    answer
}

// Compares the verdict on the listed events of a family.
fn has_verdict(rt: &impl Abort, alloc: Global, family: &Family, want: Verdict, what: &str) {
    let Family::Listed(events) = family else {
        panic!(rt; "listed events");
    };
    let verdict = verdict_on(rt, alloc, events);
    assert!(rt; verdict == want, "{what}");
}

// Compares the verdict on the events of a table.
fn case_has_verdict(rt: &impl Abort, alloc: Global, table: &[EventRow], want: Verdict, what: &str) {
    let family = events(rt, alloc, table);
    has_verdict(rt, alloc, &family, want, what);
    drop(family);
}

// The name of a case, its events, and the expected verdict.
type Case = (&'static str, &'static [EventRow], Verdict);

// Worked by hand.
static CASES: [Case; 13] = [
    ("no event", &[], Verdict::Extremal),
    // The clauses `1 2` and `2 1` are one event.
    (
        "equal cubes",
        &[(1, &[(0, 0), (1, 0)]), (2, &[(0, 0), (1, 0)])],
        Verdict::Extremal,
    ),
    (
        "no shared variable",
        &[(1, &[(0, 0), (2, 1)]), (2, &[(1, 0), (3, 1)])],
        Verdict::Extremal,
    ),
    (
        "they differ at the last variable",
        &[(1, &[(0, 0), (1, 0), (4, 1)]), (2, &[(0, 0), (4, 0)])],
        Verdict::Extremal,
    ),
    (
        "three values of one variable",
        &[(1, &[(5, 2)]), (2, &[(5, 0)]), (3, &[(5, 1), (6, 1)])],
        Verdict::Extremal,
    ),
    // The clauses `1 2` and `1 3`.
    (
        "one shared value",
        &[(1, &[(0, 0), (1, 0)]), (2, &[(0, 0), (2, 0)])],
        Verdict::Clash(1, 2),
    ),
    // The clauses `1` and `1 2`.
    (
        "one cube inside another",
        &[(1, &[(0, 0)]), (2, &[(0, 0), (1, 0)])],
        Verdict::Clash(1, 2),
    ),
    (
        "a variable below the shared one, of another value",
        &[(1, &[(1, 0)]), (2, &[(0, 1), (1, 0)])],
        Verdict::Clash(1, 2),
    ),
    (
        "not neighbours",
        &[(2, &[(0, 0)]), (5, &[(7, 1)]), (9, &[(0, 0), (7, 0)])],
        Verdict::Clash(2, 9),
    ),
    (
        "an event that was tried with an earlier one",
        &[(1, &[(0, 0)]), (2, &[(1, 0)]), (3, &[(0, 1), (1, 0)])],
        Verdict::Clash(2, 3),
    ),
    // Of the clashes (3, 9) and (5, 8) the first has the lower number.
    (
        "the least first number",
        &[
            (3, &[(0, 0)]),
            (5, &[(1, 0)]),
            (8, &[(1, 0), (2, 0)]),
            (9, &[(0, 0), (3, 0)]),
        ],
        Verdict::Clash(3, 9),
    ),
    // Event 6 shares the first variable of event 2, and event 4 its second.
    (
        "the least second number, by its second variable",
        &[
            (2, &[(0, 0), (1, 0)]),
            (4, &[(1, 0), (2, 0)]),
            (6, &[(0, 0), (2, 1)]),
        ],
        Verdict::Clash(2, 4),
    ),
    (
        "the least second number, by the same variable",
        &[
            (1, &[(0, 0)]),
            (2, &[(0, 0), (1, 0)]),
            (3, &[(0, 0), (2, 0)]),
        ],
        Verdict::Clash(1, 2),
    ),
];

#[test]
fn the_least_clash_is_named_and_no_other_pair(rt: HostRuntime) {
    let alloc = rt.alloc();
    for (what, table, want) in CASES.iter() {
        case_has_verdict(&rt, alloc, table, *want, what);
    }
}
