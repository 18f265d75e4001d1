ghost use Rattle.std.specs.Prelude.{◌≡◌, length};
ghost use Rattle.pop_model.specs.Stacks.{variables_of};
ghost use Rattle.prs_rounds.specs.Units.{IsListed, IsIndexOf};

use crate::compare::{are_stuck, is_so, same, same_at};
use crate::made::listed;
use confluence_core::Units;
use instances::{index_of, many};
use pop_instance::{Cursors, Index, Instance};
use prs_rounds::{RoundEnd, resampling_set, run_rounds, run_rounds_alone, violated};
use std::alloc::Global;
use std::process::Abort;
use std::thread::Threads;
use test_instances::{EventRow, has_cursors};

mod counts;
mod instances;

// The expected results for an instance: the places of the events that occur at zeros, and of those
// of the resampling set there; and the end of the rounds, with the units of its stuck events.
struct Want {
    stacks: &'static [&'static [u32]],
    events: &'static [EventRow],
    violated: &'static [u32],
    set: &'static [u32],
    cursors: &'static [u32],
    rounds: u64,
    stuck: &'static [u32],
    short: Option<u32>,
}

// Worked by hand.
static WANTS: [Want; 5] = [
    // Both events occur and name variable 0, which moves on once.
    Want {
        stacks: &[&[0, 1], &[0, 0], &[0, 0]],
        events: &[(1, &[(0, 0), (1, 0)]), (2, &[(0, 0), (2, 0)])],
        violated: &[0, 1],
        set: &[0, 1],
        cursors: &[1, 1, 1],
        rounds: 1,
        stuck: &[],
        short: None,
    },
    // The second event does not occur. It demands the current value of variable 1, and joins.
    Want {
        stacks: &[&[0, 1], &[0, 0], &[1, 1]],
        events: &[(1, &[(0, 0), (1, 0)]), (2, &[(1, 0), (2, 0)])],
        violated: &[0],
        set: &[0, 1],
        cursors: &[1, 1, 1],
        rounds: 1,
        stuck: &[],
        short: None,
    },
    // The second event demands another value of variable 1, and is excluded. Variable 2 has no
    // second entry.
    Want {
        stacks: &[&[0, 1], &[0, 0], &[0]],
        events: &[(1, &[(0, 0), (1, 0)]), (2, &[(1, 1), (2, 0)])],
        violated: &[0],
        set: &[0],
        cursors: &[1, 1, 0],
        rounds: 1,
        stuck: &[],
        short: None,
    },
    // The third event joins in the second step. It shares a variable with the second event, which
    // joins in the first step.
    Want {
        stacks: &[&[0, 1], &[0, 1], &[1, 1], &[1, 1]],
        events: &[
            (1, &[(0, 0), (1, 0)]),
            (2, &[(1, 0), (2, 0)]),
            (3, &[(2, 1), (3, 0)]),
        ],
        violated: &[0],
        set: &[0, 1, 2],
        cursors: &[1, 1, 1, 1],
        rounds: 1,
        stuck: &[],
        short: None,
    },
    // The event occurs again at the last entry of variable 0.
    Want {
        stacks: &[&[0, 0]],
        events: &[(1, &[(0, 0)])],
        violated: &[0],
        set: &[0],
        cursors: &[1],
        rounds: 1,
        stuck: &[0],
        short: Some(0),
    },
];

fn are_units(rt: &impl Abort, units: &Units, want: &[u32]) {
    assert!(rt; units.len() == want.len() as u64);
    for (i, unit) in want.iter().enumerate() {
        let place = i as u64;
        same_at(rt, units.at(place), *unit, "unit", place);
    }
}

// Compares the end of rounds over this many variables.
fn is_end(rt: &impl Abort, count: u32, end: &RoundEnd, want: &Want)
    requires { count ≡ length end.now.cursors }
{
    let are_there = has_cursors(&end.cursors, count, want.cursors);
    is_so(rt, are_there, "cursors of variables below", count as u64);
    are_stuck(rt, &end.stuck, want.stuck);
    same(rt, end.rounds, want.rounds, "rounds");
    assert!(rt; end.short == want.short);
}

// Compares the end of the rounds of an instance that are run on this thread.
fn ends_alone(rt: &impl Abort, alloc: Global, instance: &Instance, index: &Index, want: &Want)
    requires index { IsIndexOf instance.now.family index.now }
    requires variables { length index.now ≡ variables_of instance.now.stacks }
{
    let end = run_rounds_alone(alloc, instance, index).expect(rt, "memory");
    is_end(rt, instance.stacks().count(), &end, want);
    drop(end);
}

// Compares the end of the rounds of an instance.
fn ends_in_parallel<R: Threads + Abort + Sync>(
    rt: &R,
    alloc: Global,
    instance: &Instance,
    index: &Index,
    want: &Want,
)
    requires index { IsIndexOf instance.now.family index.now }
    requires variables { length index.now ≡ variables_of instance.now.stacks }
{
    let end = run_rounds(rt, alloc, instance, index).expect(rt, "memory");
    is_end(rt, instance.stacks().count(), &end, want);
    drop(end);
}

// Compares the places of the events that occur at zeros.
fn are_violated<R: Threads + Abort + Sync>(rt: &R, alloc: Global, instance: &Instance, want: &[u32])
    requires listed { IsListed instance.now.family }
{
    let zeros = Cursors::zeros(alloc, instance.stacks().count()).expect(rt, "memory");
    let units = violated(rt, alloc, instance, &zeros).expect(rt, "memory");
    are_units(rt, &units, want);
    drop(units);
    drop(zeros);
}

// Compares the places of the events of the resampling set at zeros.
fn are_resampled<R: Threads + Abort + Sync>(
    rt: &R,
    alloc: Global,
    instance: &Instance,
    index: &Index,
    want: &[u32],
)
    requires listed { IsListed instance.now.family }
    requires index { IsIndexOf instance.now.family index.now }
    requires variables { length index.now ≡ variables_of instance.now.stacks }
{
    let zeros = Cursors::zeros(alloc, instance.stacks().count()).expect(rt, "memory");
    let units = resampling_set(rt, alloc, instance, index, &zeros).expect(rt, "memory");
    are_units(rt, &units, want);
    drop(units);
    drop(zeros);
}

// Compares the results for an instance.
fn comes_of<R: Threads + Abort + Sync>(rt: &R, alloc: Global, instance: &Instance, want: &Want) {
    let index = index_of(rt, alloc, instance);
    are_violated(rt, alloc, instance, want.violated);
    are_resampled(rt, alloc, instance, &index, want.set);
    ends_in_parallel(rt, alloc, instance, &index, want);
    ends_alone(rt, alloc, instance, &index, want);
    drop(index);
}

// Makes the instance, and compares its results.
fn comes<R: Threads + Abort + Sync>(rt: &R, alloc: Global, want: &Want) {
    let instance = listed(rt, alloc, want.stacks, want.events);
    comes_of(rt, alloc, &instance, want);
    drop(instance);
}

#[test]
fn rounds_move_each_variable_of_the_resampling_set_once(rt: HostRuntime) {
    for want in WANTS.iter() {
        comes(&rt, rt.alloc(), want);
    }
}

// Compares the end of rounds over this many variables. Exactly the variables of even number must
// have moved, once.
fn even_ones_moved(rt: &impl Abort, count: u32, end: &RoundEnd)
    requires { count ≡ length end.now.cursors }
{
    for v in 0..count {
        same_at(rt, end.cursors.get(v), 1 - v % 2, "variable", v as u64);
    }
    same(rt, end.rounds, 1, "rounds");
    assert!(rt; end.stuck.len() == 0);
    assert!(rt; end.short.is_none());
}

// Runs an instance in which exactly the variables of even number move.
fn even_ones_move<R: Threads + Abort + Sync>(rt: &R, alloc: Global, instance: &Instance) {
    let index = index_of(rt, alloc, instance);
    let end = run_rounds(rt, alloc, instance, &index).expect(rt, "memory");
    even_ones_moved(rt, instance.stacks().count(), &end);
    drop(end);
    drop(index);
}

// Worked by hand: exactly the variables of even number move, once.
#[test]
fn many_events_are_looked_at_in_several_threads(rt: HostRuntime) {
    let alloc = rt.alloc();
    let instance = many(&rt, alloc, 5000);
    even_ones_move(&rt, alloc, &instance);
    drop(instance);
}
