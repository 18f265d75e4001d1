//! The checks that end a test. Tests compare by these calls, so that the messages about different
//! values are proved only once.
use std::process::Abort;
use std::test::Fail;

/// Compares a text.
pub fn same_text(rt: &impl Abort, found: &[u8], want: &str) {
    assert!(rt; found == want.as_bytes(), "{want}");
}

/// The value that was made. Ends the test if there is none.
pub fn made<T>(rt: &impl Abort, tried: Result<T, Fail>, what: &str) -> T {
    match tried {
        Ok(value) => value,
        Err(_) => panic!(rt; "not made: {what}"),
    }
}
