//! The comparisons of the tests. This way the messages about different values are proved only
//! once.
use pop_instance::{Cube, Events};
use std::process::Abort;

/// Ends the test if this does not hold at a place.
pub fn is_so(rt: &impl Abort, holds: bool, what: &str, place: u64) {
    assert!(rt; holds, "{what} {place}");
}

/// Ends the test if this does not hold for an input in pieces of this many bytes, if the read with
/// this number fails.
pub fn is_so_in_pieces(rt: &impl Abort, holds: bool, piece: usize, failing: u64) {
    assert!(rt; holds, "pieces of {piece}, read {failing} fails");
}

/// Compares two counts.
pub fn same(rt: &impl Abort, found: u64, want: u64, what: &str) {
    assert!(rt; found == want, "{what}");
}

/// An event: its number, and the pairs of its cube.
pub type Event = (u32, &'static [(u32, u32)]);

// Compares the pairs of the cube of an event.
fn has_pairs(rt: &impl Abort, cube: &Cube, number: u32, want: &[(u32, u32)]) {
    assert!(rt; cube.len() as usize == want.len());
    for i in 0..cube.len() {
        let pair = cube.pair(i);
        is_so(
            rt,
            pair == want[i as usize],
            "pairs of event",
            number as u64,
        );
    }
}

/// Compares events.
pub fn are_events(rt: &impl Abort, events: &Events, want: &[Event]) {
    assert!(rt; events.count() as usize == want.len());
    for place in 0..events.count() {
        let (number, pairs) = want[place as usize];
        is_so(rt, events.number(place) == number, "event", place as u64);
        has_pairs(rt, events.cube(place), number, pairs);
    }
}
