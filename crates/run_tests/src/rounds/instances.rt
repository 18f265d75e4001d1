//! Instances of thousands of variables, and the index of listed events.
ghost use Rattle.std.specs.Prelude.{◌≡◌, length};
ghost use Rattle.pop_model.specs.Stacks.{variables_of};
ghost use Rattle.prs_rounds.specs.Units.{IsListed, IsIndexOf};

use crate::made::{cube, family, over, stacks};
use pop_instance::{Cube, Family, Index, Instance};
use pop_stacks::Stacks;
use std::alloc::Global;
use std::process::Abort;

// The entries of a variable: 0 and 1 for an even number, 1 for an odd one.
fn entries_of(v: u32) -> &'static [u32] {
    if v % 2 == 0 { &[0, 1] } else { &[1] }
}

// The entries of this many variables.
fn entries(rt: &impl Abort, alloc: Global, count: u32) -> Vec<&'static [u32]> {
    let mut rows = Vec::new(alloc);
    for v in 0..count {
        rows.push(entries_of(v)).expect(rt, "memory");
    }
    rows
}

// The stacks of this many variables.
fn many_stacks(rt: &impl Abort, alloc: Global, count: u32) -> Stacks {
    let rows = entries(rt, alloc, count);
    let stacks = stacks(rt, alloc, &rows);
    drop(rows);
    stacks
}

// For each of this many variables the event that it has the value 0.
fn zeros(rt: &impl Abort, alloc: Global, count: u32) -> Vec<(u32, Cube)> {
    let mut events = Vec::new(alloc);
    for v in 0..count {
        let cube = cube(rt, alloc, &[(v, 0)]);
        events.push((v + 1, cube)).expect(rt, "memory");
    }
    events
}

/// The instance of this many variables and these events.
pub fn many(rt: &impl Abort, alloc: Global, count: u32) -> Instance {
    let stacks = many_stacks(rt, alloc, count);
    let family = family(rt, alloc, zeros(rt, alloc, count));
    over(rt, stacks, family)
}

/// The index of an instance's listed events.
pub fn index_of(rt: &impl Abort, alloc: Global, instance: &Instance) -> Index
    ensures listed { IsListed instance.now.family }
    ensures index { IsIndexOf instance.now.family result }
    ensures count { length result ≡ variables_of instance.now.stacks }
{
    let _units = instance.units();
    let Family::Listed(events) = instance.family() else {
        panic!(rt; "listed events");
    };
    Index::build(alloc, events, instance.stacks().count()).expect(rt, "memory")
}
