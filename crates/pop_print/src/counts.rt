//! The numbers of entries that were used.
ghost use Rattle.std.specs.Prelude.{◌≡◌, ◌++◌, length, sum, OnOk};
ghost use Rattle.pop_print.specs.Made.{greatest, IsGreatest, totals_line};
ghost use Rattle.pop_print.specs.Output.{used_line};

use pop_instance::Cursors;
use pop_text::Output;
use std::alloc::AllocError;

/// Adds the line of the cursors.
pub fn push_used(out: &mut Output, cursors: &Cursors, count: u32) -> Result<(), AllocError>
    requires { length cursors.now ≡ count }
    ensures { OnOk result (out.new ≡ out.old ++ used_line cursors.now) }
{
    out.push(b"used")?;
    for v in 0..count {
        out.push_spaced(u64::from(cursors.get(v)))?;
    }
    out.push(b"\n")
}

// The sum of the cursors.
fn sum_of(cursors: &Cursors, count: u32) -> u64
    requires { length cursors.now ≡ count }
    ensures { result ≡ sum cursors.now }
{
    let mut total = 0;
    for v in 0..count {
        total += u64::from(cursors.get(v));
    }
    total
}

// The largest cursor, or 0 if there are none.
fn greatest_of(cursors: &Cursors, count: u32) -> u32
    requires { length cursors.now ≡ count }
    ensures value { result ≡ greatest cursors.now }
    ensures greatest { IsGreatest cursors.now result }
{
    let mut most = 0;
    for v in 0..count {
        most = most.max(cursors.get(v));
    }
    most
}

/// Adds the line with the sum of the cursors and the largest cursor.
pub fn push_totals(out: &mut Output, cursors: &Cursors, count: u32) -> Result<(), AllocError>
    requires { length cursors.now ≡ count }
    ensures { OnOk result (out.new ≡ out.old ++ totals_line cursors.now) }
{
    out.push(b"used")?;
    out.push_spaced(sum_of(cursors, count))?;
    out.push_spaced(u64::from(greatest_of(cursors, count)))?;
    out.push(b"\n")
}
