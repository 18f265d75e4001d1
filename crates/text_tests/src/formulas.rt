//! Formulas and their events.
ghost use Rattle.std.specs.Prelude.{◌≡◌, None};
ghost use Rattle.dimacs_read.specs.Cnf.{first_empty};

use crate::comparing::{Event, are_events, is_so};
use crate::refusals::{Grammar, are_refused, is_refused};
use crate::sources::{PIECES, source};
use dimacs_read::{Formula, read_formula};
use pop_edge::ReadRefusal;
use pop_instance::Events;
use std::alloc::Global;
use std::process::Abort;

// The formula of an input in pieces of this many bytes.
fn formula(rt: &impl Abort, alloc: Global, text: &[u8], piece: usize) -> Formula
    ensures { first_empty result ≡ None }
{
    let mut source = source(rt, alloc, text, piece, 0);
    let formula = read_formula(alloc, &mut source).expect(rt, "a formula");
    drop(source);
    formula
}

// An input with a comment within a clause, and with `%` after an unfinished last clause.
static BY_HAND: &[u8] = b"c by hand\np cnf 3 2\n1 -2\nc in the middle\n0\n2 3\n%\n0\n";

static CLAUSES: [&[i32]; 2] = [&[1, -2], &[2, 3]];

// Compares the formula of that input in pieces of this many bytes.
fn is_read_by_hand(rt: &impl Abort, alloc: Global, piece: usize) {
    let formula = formula(rt, alloc, BY_HAND, piece);
    assert!(rt; formula.variables() == 3);
    assert!(rt; formula.clauses() == 2);
    for i in 0..2 {
        let is_clause = formula.clause(i) == CLAUSES[i as usize];
        is_so(rt, is_clause, "clause", i as u64);
    }
    drop(formula);
}

#[test]
fn a_formula_is_the_same_whatever_the_pieces(rt: HostRuntime) {
    for piece in PIECES.iter() {
        is_read_by_hand(&rt, rt.alloc(), *piece);
    }
}

// Worked by hand from the grammar.
static REFUSED: [(&[u8], ReadRefusal); 9] = [
    (b"1 0\n", ReadRefusal::Malformed(1, 1)),
    (b"c\n\n", ReadRefusal::Malformed(3, 1)),
    (b"p cnf 1 1\n1 x 0\ny\n", ReadRefusal::Malformed(2, 2)),
    (b"p cnf 1 1\n2 0\n", ReadRefusal::Malformed(2, 3)),
    (b"p cnf 4194305 0 7\n", ReadRefusal::Malformed(1, 4)),
    (b"p cnf 4194305 0\n", ReadRefusal::Limit(2, 1)),
    (b"p cnf 1 4194305\n", ReadRefusal::Limit(3, 1)),
    (b"p cnf 1 1\n1 0\n1 0", ReadRefusal::Count(1, 2)),
    (b"p cnf 1 2\n1 0\n0\n", ReadRefusal::EmptyClause(2)),
];

#[test]
fn a_bad_text_is_refused_whatever_the_pieces(rt: HostRuntime) {
    are_refused(&rt, rt.alloc(), Grammar::Formula, &REFUSED);
}

// Inputs in pieces of 10 bytes, so that the second line is read by the second read.
static FAULTS: [(&[u8], ReadRefusal); 2] = [
    (b"p cnf 1 1\n1 0\n", ReadRefusal::ReadFault),
    (b"p cnf x 1\n1 0\n", ReadRefusal::Malformed(1, 1)),
];

#[test]
fn a_fault_comes_behind_the_lines_before_it(rt: HostRuntime) {
    for (text, want) in FAULTS.iter() {
        is_refused(&rt, rt.alloc(), Grammar::Formula, text, 10, 2, *want);
    }
}

// Worked by hand: clause 2 has the cube of clause 1, clause 3 is always true, and clause 4 repeats
// a literal.
static FOUR_CLAUSES: &[u8] = b"p cnf 3 4\n2 -1 0\n-1 2 0\n1 -1 0\n3 3 -2 3 0\n";

static EVENTS: [Event; 2] = [(1, &[(0, 1), (1, 0)]), (4, &[(1, 1), (2, 0)])];

// The events of an input.
fn events_of(rt: &impl Abort, alloc: Global, text: &[u8]) -> Events {
    let formula = formula(rt, alloc, text, 4096);
    let events = formula.events(alloc).expect(rt, "events");
    drop(formula);
    events
}

#[test]
fn events_falsify_their_clauses(rt: HostRuntime) {
    let events = events_of(&rt, rt.alloc(), FOUR_CLAUSES);
    are_events(&rt, &events, &EVENTS);
    drop(events);
}
