//! Tests of certificates and of runs that are stopped.
use run_cert::Look;
use std::process::Abort;
use std::test::Fail;

mod judging;
mod paused;
mod printed;
mod rings;
mod stopping;

// Compares two numbers at a place. Tests compare by these calls, so that the messages about
// different values are proved only once.
fn same_at(rt: &impl Abort, found: u64, want: u64, what: &str, place: u64) {
    assert!(rt; found == want, "{what} {place}");
}

// Compares two states of a run at a place.
fn looks_at(rt: &impl Abort, found: Look, want: Look, place: u64) {
    assert!(rt; found == want, "look {place}");
}

// Compares bytes.
fn same_bytes(rt: &impl Abort, found: &[u8], want: &[u8], what: &str) {
    assert!(rt; found == want, "{what}");
}

// The value that was made. Ends the test if there is none.
fn made<T>(rt: &impl Abort, tried: Result<T, Fail>, what: &str) -> T {
    match tried {
        Ok(value) => value,
        Err(_) => panic!(rt; "not made: {what}"),
    }
}
