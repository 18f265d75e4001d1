//! The checks that end a test. Tests compare by these calls, so that the messages about different
//! values are proved only once.
use std::process::Abort;
use std::test::Fail;

/// Ends the test if this does not hold at a place.
pub fn is_so(rt: &impl Abort, holds: bool, what: &str, place: u32) {
    assert!(rt; holds, "{what} {place}");
}

/// Compares two numbers at a place.
pub fn same(rt: &impl Abort, found: u32, want: u32, what: &str, place: u32) {
    assert!(rt; found == want, "{what} {place}: {found}, not {want}");
}

/// Compares the numbers of row v.
pub fn same_row(rt: &impl Abort, found: &[u32], want: &[u32], v: u32) {
    assert!(rt; found == want, "row {v}: {found:?}, not {want:?}");
}

/// The value that was made. Ends the test if there is none.
pub fn made<T>(rt: &impl Abort, tried: Result<T, Fail>, what: &str) -> T {
    match tried {
        Ok(value) => value,
        Err(_) => panic!(rt; "not made: {what}"),
    }
}
