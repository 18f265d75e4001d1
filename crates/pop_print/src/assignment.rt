//! The sample of a formula: the values of its variables.
ghost use Rattle.std.specs.Prelude.{◌≡◌, ◌++◌, ◌∷◌, length, OnOk};
ghost use Rattle.pop_print.specs.Output.{literal_of, assignment_line};

use pop_instance::Values;
use pop_text::Output;
use std::alloc::AllocError;

// Adds a space and a variable's name, with `-` before it if its value is 0.
fn push_literal(out: &mut Output, v: u32, x: u32) -> Result<(), AllocError>
    ensures { OnOk result (out.new ≡ out.old ++ 32 ∷ literal_of v x) }
{
    let name = u64::from(v) + 1;
    if x != 0 {
        return out.push_spaced(name);
    }
    out.push(b" -")?;
    out.push_number(name)
}

/// Adds the line of an assignment, given as a row with the values of this many variables.
pub fn push_assignment_of(out: &mut Output, values: &[u32], count: u32) -> Result<(), AllocError>
    requires { length values.now ≡ count }
    ensures { OnOk result (out.new ≡ out.old ++ assignment_line values.now) }
{
    out.push(b"v")?;
    for v in 0..count {
        push_literal(out, v, values[v as usize])?;
    }
    out.push(b" 0\n")
}

/// Adds the line of an assignment, given as the values of this many variables.
pub fn push_assignment(out: &mut Output, values: &Values, count: u32) -> Result<(), AllocError>
    requires { length values.now ≡ count }
    ensures { OnOk result (out.new ≡ out.old ++ assignment_line values.now) }
{
    out.push(b"v")?;
    for v in 0..count {
        push_literal(out, v, values.get(v))?;
    }
    out.push(b" 0\n")
}
