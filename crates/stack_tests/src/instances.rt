//! Instances: the events of their families, and their indexes.
ghost use Rattle.pop_instance.specs.Index.{IsIndex};

use crate::compare::{is_so, made, same, same_row};
use pop_instance::{Arrows, Events, Family, Index, Instance};
use pop_stacks::{StackSpec, Stacks, Weights};
use std::alloc::Global;
use std::process::Abort;
use test_instances::{cube, family, over, stacks};

// The family of event 1: value 1 of variable 0, and this pair.
fn event(rt: &impl Abort, alloc: Global, last: (u32, u32)) -> Family {
    let cube = made(rt, cube(alloc, &[(0, 1), last]), "a cube");
    let mut rows = Vec::new(alloc);
    rows.push((1, cube)).expect(rt, "memory");
    made(rt, family(alloc, rows), "a family")
}

// The instance of two variables with two values each, and of this event.
fn instance(rt: &impl Abort, alloc: Global, last: (u32, u32)) -> Option<Instance> {
    let family = event(rt, alloc, last);
    let stacks = made(rt, stacks(alloc, &[&[0], &[1]]), "stacks");
    Instance::new(stacks, family)
}

// The instance of two variables with the event that both have the value 1.
fn listed(rt: &impl Abort, alloc: Global) -> Instance {
    instance(rt, alloc, (1, 1)).expect(rt, "an instance")
}

// Compares whether value 1 of variable 0, and this pair, is an event.
fn has_event(rt: &impl Abort, alloc: Global, instance: &Instance, last: (u32, u32), want: bool) {
    let cube = made(rt, cube(alloc, &[(0, 1), last]), "a cube");
    is_so(
        rt,
        instance.is_event(&cube) == want,
        "event of value",
        last.1,
    );
    drop(cube);
}

// Compares the events of an instance with value 1 of variables 0 and 1.
fn has_its_event(rt: &impl Abort, alloc: Global, instance: &Instance) {
    same(rt, instance.units(), 1, "units", 0);
    has_event(rt, alloc, instance, (1, 1), true);
    has_event(rt, alloc, instance, (1, 0), false);
}

#[test]
fn an_instance_has_the_events_of_its_family(rt: HostRuntime) {
    let listed = listed(&rt, rt.alloc());
    has_its_event(&rt, rt.alloc(), &listed);
    drop(listed);
}

// Checks that there is no instance with this pair in its event.
fn is_not_made(rt: &impl Abort, alloc: Global, last: (u32, u32)) {
    let made = instance(rt, alloc, last);
    is_so(rt, made.is_none(), "no instance with variable", last.0);
    drop(made);
}

// The pairs are value 2 of variable 1, and a pair of variable 2.
#[test]
fn events_name_variables_and_values_that_the_stacks_have(rt: HostRuntime) {
    is_not_made(&rt, rt.alloc(), (1, 2));
    is_not_made(&rt, rt.alloc(), (2, 1));
}

// The arrows of one variable, with values that lead to the root and to itself.
fn arrows(rt: &impl Abort, alloc: Global) -> Arrows {
    let row = Vec::from_slice(alloc, &[None, Some(0)]).expect(rt, "memory");
    let mut heads = Vec::new(alloc);
    heads.push(row).expect(rt, "memory");
    Arrows::new(heads).expect(rt, "arrows")
}

// The instance of the cycles of one variable with two values, which lead to the root and to
// itself.
fn loops(rt: &impl Abort, alloc: Global) -> Instance {
    let arrows = arrows(rt, alloc);
    let stacks = Stacks::new(StackSpec::Key([0; 32]), Weights::pairs(1), 1).expect(rt, "stacks");
    made(rt, over(stacks, Family::Cycles(arrows)), "an instance")
}

// Checks that each variable of the first event has exactly this event's place in the index.
fn have_the_first_place(rt: &impl Abort, events: &Events, index: &Index)
    requires { IsIndex events.now index.now }
{
    assert!(rt; events.count() > 0);
    let cube = events.cube(0);
    for i in 0..cube.len() {
        let (v, _) = cube.pair(i);
        same_row(rt, index.at(v), &[0], v);
    }
}

// Compares the index of an instance of listed events.
fn has_index(rt: &impl Abort, alloc: Global, instance: &Instance) {
    let Family::Listed(events) = instance.family() else {
        panic!(rt; "no listed family")
    };
    let index = instance.index(alloc).expect(rt, "memory");
    let index = index.expect(rt, "an index");
    have_the_first_place(rt, events, &index);
    drop(index);
}

#[test]
fn listed_events_have_an_index(rt: HostRuntime) {
    let listed = listed(&rt, rt.alloc());
    has_index(&rt, rt.alloc(), &listed);
    drop(listed);
}

// Checks that an instance has no index.
fn has_no_index(rt: &impl Abort, alloc: Global, instance: &Instance) {
    let index = instance.index(alloc).expect(rt, "memory");
    is_so(rt, index.is_none(), "no index of cycles", 0);
    drop(index);
}

#[test]
fn cycles_have_no_index(rt: HostRuntime) {
    let cycles = loops(&rt, rt.alloc());
    has_no_index(&rt, rt.alloc(), &cycles);
    drop(cycles);
}
