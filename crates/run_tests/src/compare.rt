use confluence_core::Stuck;
use std::process::Abort;

/// Compares two counts. Tests compare by this call and the next two, so that the messages about
/// different numbers are proved only once.
pub fn same(rt: &impl Abort, found: u64, want: u64, what: &str) {
    assert!(rt; found == want, "{what}");
}

/// Compares two numbers at a place.
pub fn same_at(rt: &impl Abort, found: u32, want: u32, what: &str, place: u64) {
    assert!(rt; found == want, "{what} {place}");
}

/// Ends the test if this does not hold at a place.
pub fn is_so(rt: &impl Abort, holds: bool, what: &str, place: u64) {
    assert!(rt; holds, "{what} {place}");
}

/// Compares two counts, identified by two numbers.
pub fn same_of(rt: &impl Abort, found: u64, want: u64, what: &str, of: (u32, u32)) {
    let (one, other) = of;
    assert!(rt; found == want, "{what} {one}, {other}");
}

/// Compares the units of a stuck list.
pub fn are_stuck(rt: &impl Abort, stuck: &Stuck, want: &[u32]) {
    assert!(rt; stuck.len() == want.len() as u64);
    for (i, unit) in want.iter().enumerate() {
        let place = i as u64;
        same_at(rt, stuck.at(place).0, *unit, "stuck event", place);
    }
}
