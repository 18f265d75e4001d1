//! The printed form of rows, in arguments and certificates.
ghost use Rattle.std.specs.Prelude.{◌≡◌, ◌++◌, [], map, if◌then◌else◌, OnOk};
ghost use Rattle.std.specs.List.{join_with_byte};
ghost use Rattle.run_cert.specs.Heads.{row_text, rows_text};

use pop_stacks::Rows;
use pop_text::Output;
use std::alloc::AllocError;

// Adds a separator, if it is wanted.
fn push_sign(out: &mut Output, wanted: bool, sign: &[u8]) -> Result<(), AllocError>
    ensures { OnOk result (out.new ≡ out.old ++ (if wanted then sign.now else [])) }
{
    if wanted {
        out.push(sign)?;
    }
    Ok(())
}

// The numbers of a row, joined by `,`.
fn push_row(out: &mut Output, row: &[u32]) -> Result<(), AllocError>
    ensures { OnOk result (out.new ≡ out.old ++ row_text row.now) }
{
    for k in 0..row.len() {
        push_sign(out, k > 0, b",")?;
        out.push_number(u64::from(row[k]))?;
    }
    Ok(())
}

// Rows joined by `;`.
fn push_joined_rows(out: &mut Output, rows: &Rows) -> Result<(), AllocError>
    ensures { OnOk result (out.new ≡ out.old ++ join_with_byte 59 (map row_text rows.now)) }
{
    for v in 0..rows.count() {
        push_sign(out, v > 0, b";")?;
        push_row(out, rows.row(v))?;
    }
    Ok(())
}

/// Adds rows joined by `;`, after a space. Adds nothing if there are no rows.
pub(crate) fn push_rows(out: &mut Output, rows: &Rows) -> Result<(), AllocError>
    ensures { OnOk result (out.new ≡ out.old ++ rows_text rows.now) }
{
    push_sign(out, rows.count() > 0, b" ")?;
    push_joined_rows(out, rows)
}
