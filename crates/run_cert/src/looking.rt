//! The state at cursors, and runs that are stopped after a number of pops.
ghost use Rattle.std.specs.Prelude.{◌≡◌, ◌↔◌, length, IfOk, IsTrue};
ghost use Rattle.pop_model.specs.Stacks.{variables_of};
ghost use Rattle.pop_model.specs.Popping.{AreWithin};
ghost use Rattle.pop_model.specs.Runs.{IsStuckList};
ghost use Rattle.pop_stacks.specs.Readers.{Belongs};
ghost use Rattle.run_cert.specs.Looks.{HasPoppable, IsLook, IsSeen, IsStopped};

use crate::{Look, Part, Seen};
use confluence_core::{Indexed, Keep, Reached, Stuck, occurring};
use pop_instance::{Cursors, Instance};
use pop_stacks::Reader;
use std::alloc::{AllocError, Global};

// Whether one of these events is poppable. They must be those that occur.
fn is_open(instance: &Instance, reader: &mut Reader, cursors: &Cursors, stuck: &Stuck) -> bool
    requires count { variables_of instance.now.stacks ≡ length cursors.now }
    requires within { AreWithin instance.now.stacks cursors.now }
    requires belongs { Belongs instance.now.stacks reader.old }
    requires stuck_list { IsStuckList instance.now cursors.now stuck.now }
    ensures { IsTrue result ↔ HasPoppable instance.now cursors.now }
{
    let _units = instance.units();
    let stacks = instance.stacks();
    for i in 0..stuck.len() {
        let (_, cube) = stuck.at(i);
        if cursors.poppable(stacks, reader, cube) {
            return true;
        }
    }
    false
}

// The state of a run if these are the events that occur.
fn look_of(instance: &Instance, reader: &mut Reader, cursors: &Cursors, stuck: &Stuck) -> Look
    requires count { variables_of instance.now.stacks ≡ length cursors.now }
    requires within { AreWithin instance.now.stacks cursors.now }
    requires belongs { Belongs instance.now.stacks reader.old }
    requires stuck_list { IsStuckList instance.now cursors.now stuck.now }
    ensures { IsLook instance.now cursors.now result }
{
    if stuck.len() == 0 {
        return Look::Finished;
    }
    if is_open(instance, reader, cursors, stuck) {
        return Look::Open;
    }
    Look::Exhausted
}

/// The state at cursors, which must be below the heights. The time is linear in the instance.
pub fn look(alloc: Global, instance: &Instance, cursors: &Cursors) -> Result<Seen, AllocError>
    requires count { variables_of instance.now.stacks ≡ length cursors.now }
    requires within { AreWithin instance.now.stacks cursors.now }
    ensures seen { IfOk result (IsSeen instance.now cursors.now) }
{
    let mut reader = Reader::keeping(alloc, instance.stacks())?;
    let stuck = occurring(alloc, instance, &mut reader, cursors)?;
    let look = look_of(instance, &mut reader, cursors, &stuck);
    Ok(Seen { look, stuck })
}

/// The run from zeros on one thread, to its end or for at most this many pops.
pub fn run_part(alloc: Global, instance: &Instance, limit: u64) -> Result<Part, AllocError>
    ensures part { IfOk result (IsStopped instance.now limit) }
    ensures count { IfOk result (λ part. variables_of instance.now.stacks ≡ length part.cursors) }
    ensures within { IfOk result (λ part. AreWithin instance.now.stacks part.cursors) }
{
    let index = instance.index(alloc)?;
    let indexed = Indexed::of(instance, &index);
    let mut reader = Reader::keeping(alloc, instance.stacks())?;
    let opening = Reached::opening(alloc, instance, Keep::Log)?;
    let (reached, stuck) = indexed.advance(alloc, &mut reader, opening, limit)?;
    let look = look_of(instance, &mut reader, &reached.cursors, &stuck);
    let Reached { cursors, log, .. } = reached;
    let Some(log) = log else { unreachable!() };
    let seen = Seen { look, stuck };
    Ok(Part { cursors, log, seen })
}
