//! The line of an arrow along an edge.
ghost use Rattle.std.specs.Prelude.{◌≡◌, ◌++◌, OnOk};
ghost use Rattle.pop_print.specs.Output.{arrow_line};

use pop_text::{Output, ShortText};
use std::alloc::AllocError;

/// Adds the line of the arrow from a tail to a head along the edge of this number, all from 1.
pub fn push_arrow(out: &mut Output, tail: u32, head: u32, number: u32) -> Result<(), AllocError>
    ensures { OnOk result (out.new ≡ out.old ++ arrow_line tail head number) }
{
    // A run prints a line for each edge, so a line is added in one step.
    let mut line = ShortText::new();
    line.put(b'\n');
    line.put_spaced(u64::from(number));
    line.put_spaced(u64::from(head));
    line.put_spaced(u64::from(tail));
    line.put(b'a');
    out.push(line.as_bytes())
}
