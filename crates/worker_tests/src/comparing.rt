//! Tests compare by these calls, so that the messages about different numbers are proved only
//! once.
ghost use Rattle.std.specs.Prelude.{◌≡◌};

use std::process::Abort;

/// Compares two counts.
pub(crate) fn same(rt: &impl Abort, found: u64, want: u64, what: &str)
    ensures { found ≡ want }
{
    assert!(rt; found == want, "{what}");
}

/// Ends the test if this does not hold at a place.
pub(crate) fn is_so(rt: &impl Abort, holds: bool, what: &str, place: u32) {
    assert!(rt; holds, "{what} {place}");
}

/// Compares two numbers at a place.
pub(crate) fn same_at(rt: &impl Abort, found: u32, want: u32, what: &str, place: u64) {
    assert!(rt; found == want, "{what} {place}");
}
