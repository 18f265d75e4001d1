//! The events that occur at an end.
ghost use Rattle.std.specs.Prelude.{◌≡◌, ◌<◌, ◌++◌, ◌^◌, map, decimal, All, OnOk};
ghost use Rattle.pop_model.specs.Popping.{variables, NamesBelow};
ghost use Rattle.pop_model.specs.Text.{spaced};
ghost use Rattle.pop_instance.specs.Family.{family_of};
ghost use Rattle.confluence_core.specs.Stuck.{event_of};
ghost use Rattle.pop_print.specs.Names.{name_of};
ghost use Rattle.pop_print.specs.Output.{stuck_line, stuck_lines};
ghost use Rattle.pop_print.specs.Stuck.{HasNames};

use crate::Facts;
use confluence_core::Stuck;
use pop_instance::{Cube, Family};
use pop_text::Output;
use std::alloc::AllocError;

// The names of a cube's variables.
fn push_names(out: &mut Output, facts: &Facts, cube: &Cube) -> Result<(), AllocError>
    requires { NamesBelow cube.now (2 ^ 31) }
    ensures { OnOk result (out.new ≡ out.old
        ++ spaced (map decimal (map (name_of facts.now) (variables cube.now)))) }
{
    for i in 0..cube.len() {
        let (v, _) = cube.pair(i);
        out.push_spaced(u64::from(facts.name(v)))?;
    }
    Ok(())
}

// Adds the line of an event: the number of a listed one, or the variables of a cycle.
fn push_event(
    out: &mut Output,
    facts: &Facts,
    family: &Family,
    unit: u32,
    cube: &Cube,
) -> Result<(), AllocError>
    requires { HasNames (family_of family.now) (event_of (unit, cube.now)) }
    ensures { OnOk result (out.new ≡ out.old
        ++ stuck_line facts.now (family_of family.now) (event_of (unit, cube.now))) }
{
    out.push(b"stuck")?;
    match family {
        Family::Listed(events) => out.push_spaced(u64::from(events.number(unit)))?,
        Family::Cycles(_) => push_names(out, facts, cube)?,
    }
    out.push(b"\n")
}

/// Adds a line for each event that occurs.
pub fn push_stuck(
    out: &mut Output,
    facts: &Facts,
    family: &Family,
    stuck: &Stuck,
) -> Result<(), AllocError>
    requires { All (HasNames (family_of family.now)) stuck.now }
    ensures { OnOk result
        (out.new ≡ out.old ++ stuck_lines facts.now (family_of family.now) stuck.now) }
{
    for i in 0..stuck.len() {
        let (unit, cube) = stuck.at(i);
        push_event(out, facts, family, unit, cube)?;
    }
    Ok(())
}
