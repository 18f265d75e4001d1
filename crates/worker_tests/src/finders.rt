//! Tries at units and walks, by one pass or two, worked by hand.
ghost use Rattle.std.specs.Prelude.{◌≡◌, length};

use crate::comparing::is_so;
use claim_words::Closed;
use std::process::Abort;
use test_instances::has_cursors;

mod units;
mod walks;

// The expected board if nothing is suspect: its cursors, and the number of pops.
struct Want {
    cursors: &'static [u32],
    pops: u64,
}

// Compares a board of this many variables.
fn is_left(rt: &impl Abort, closed: &Closed, count: u32, want: &Want)
    requires { count ≡ length closed.now.cursors }
{
    let are_there = has_cursors(&closed.cursors, count, want.cursors);
    is_so(rt, are_there, "cursors of variables below", count);
    assert!(rt; closed.pops == want.pops);
    assert!(rt; closed.suspects.len() == 0);
}
