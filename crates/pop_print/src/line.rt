//! A line with a keyword and a number.
ghost use Rattle.std.specs.Prelude.{◌≡◌, ◌++◌, decimal, OnOk};
ghost use Rattle.pop_model.specs.Text.{line};

use pop_text::Output;
use std::alloc::AllocError;

/// Adds a line with a keyword, which includes the space after it, and a number.
pub fn push_line(out: &mut Output, word: &[u8], n: u64) -> Result<(), AllocError>
    ensures { OnOk result (out.new ≡ out.old ++ line (word.now ++ decimal n)) }
{
    out.push(word)?;
    out.push_number(n)?;
    out.push(b"\n")
}
