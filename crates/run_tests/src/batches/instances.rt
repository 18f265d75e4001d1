//! Instances from tables, under a key: listed events over variables with two values each, and
//! arrows with two slots each.
ghost use Rattle.pop_model.specs.Stacks.{IsKeyed};
ghost use Rattle.pop_model.specs.Extremal.{IsExtremal};
ghost use Rattle.pop_model.specs.Families.Family.{Listed};
ghost use Rattle.pop_instance.specs.Index.{IsIndex};

use crate::made::{arrows, events};
use extremal_check::{Verdict, check};
use pop_instance::{Events, Family, Index, Instance};
use pop_stacks::{StackSpec, Stacks, Weights};
use std::alloc::Global;
use std::process::Abort;
use test_instances::EventRow;

// The stacks of this many variables with two values each, under the key of zeros.
fn stacks(rt: &impl Abort, count: u32, height: u32) -> Stacks
    ensures { IsKeyed result.origin }
{
    assert!(rt; count < 1000);
    assert!(rt; 0 < height);
    assert!(rt; height < 1000);
    Stacks::new(StackSpec::Key([0; 32]), Weights::pairs(count), height).expect(rt, "memory")
}

// Ends the test if two of these events clash.
fn expect_no_clash(rt: &impl Abort, alloc: Global, events: &Events, index: &Index)
    requires { IsIndex events.now index.now }
    ensures { IsExtremal (Listed events.now) }
{
    match check(alloc, events, index).expect(rt, "memory") {
        Verdict::Extremal => {}
        Verdict::Clash(_, _) => panic!(rt; "events that don't clash"),
    }
}

// Ends the test if two listed events of the instance clash.
fn expect_extremal(rt: &impl Abort, alloc: Global, instance: &Instance)
    ensures { IsExtremal instance.now.family }
{
    let _units = instance.units();
    let Family::Listed(events) = instance.family() else {
        panic!(rt; "listed events");
    };
    let index = Index::build(alloc, events, instance.stacks().count()).expect(rt, "memory");
    expect_no_clash(rt, alloc, events, &index);
    drop(index);
}

// The instance of these stacks and the events of a table.
fn of_events(rt: &impl Abort, alloc: Global, stacks: Stacks, table: &[EventRow]) -> Instance
    requires { IsKeyed stacks.origin }
    ensures { IsKeyed result.stacks.origin }
{
    let family = events(rt, alloc, table);
    Instance::new(stacks, family).expect(rt, "an instance")
}

/// The instance of this many variables of this height and the events of a table. No two events may
/// clash.
pub fn listed(
    rt: &impl Abort,
    alloc: Global,
    count: u32,
    height: u32,
    table: &[EventRow],
) -> Instance
    ensures keyed { IsKeyed result.stacks.origin }
    ensures extremal { IsExtremal result.family }
{
    let stacks = stacks(rt, count, height);
    let instance = of_events(rt, alloc, stacks, table);
    expect_extremal(rt, alloc, &instance);
    instance
}

/// The instance of the cycles of arrows with these heads, two for each variable, at this height.
pub fn cycles(rt: &impl Abort, alloc: Global, height: u32, table: &[[Option<u32>; 2]]) -> Instance
    ensures keyed { IsKeyed result.stacks.origin }
    ensures extremal { IsExtremal result.family }
{
    let arrows = arrows(rt, alloc, table);
    let stacks = stacks(rt, arrows.count(), height);
    let instance = Instance::new(stacks, Family::Cycles(arrows)).expect(rt, "two slots for each");
    instance
}
