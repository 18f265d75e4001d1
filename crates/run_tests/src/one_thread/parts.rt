//! Runs that stop at a limit, the states that they leave, and runs over shared parts.
ghost use Rattle.std.specs.Prelude.{◌≡◌, length};
ghost use Rattle.pop_model.specs.Stacks.{variables_of};
ghost use Rattle.pop_model.specs.Popping.{AreWithin};
ghost use Rattle.confluence_core.specs.Runs.{IsEndOver};

use super::{Case, Want, is_end};
use crate::compare::{is_so, same, same_at};
use crate::made::listed;
use confluence_core::{End, Indexed, Keep, Reached, Run, first_poppable, occurring, run_first};
use pop_instance::{Cursors, Instance, Values};
use pop_stacks::Reader;
use std::alloc::Global;
use std::process::Abort;

// Two variables with the entries 0, 0, 1 and 0, 1. The events demand the value 0 of each.
static TWO_EVENTS: Case = Case {
    rows: &[&[0, 0, 1], &[0, 1]],
    events: &[(1, &[(0, 0)]), (2, &[(1, 0)])],
    want: Want {
        cursors: &[2, 1],
        pops: 3,
        stuck: &[],
    },
};

// The instance of `TWO_EVENTS`.
fn two_events(rt: &impl Abort, alloc: Global) -> Instance {
    listed(rt, alloc, TWO_EVENTS.rows, TWO_EVENTS.events)
}

// A run from zeros to this many pops.
fn run_to(rt: &impl Abort, alloc: Global, instance: &Instance, limit: u64) -> Run
    ensures over { IsEndOver instance.now.stacks result.end }
{
    let opening = Reached::opening(alloc, instance, Keep::Log).expect(rt, "memory");
    let index = instance.index(alloc).expect(rt, "memory");
    let mut reader = Reader::new(instance.stacks());
    let left = Indexed::of(instance, &index).advance(alloc, &mut reader, opening, limit);
    let (reached, stuck) = left.expect(rt, "memory");
    drop(index);
    let values = Values::at(alloc, instance.stacks(), &mut reader, &reached.cursors);
    drop(reader);
    reached.told(stuck, values.expect(rt, "memory"))
}

// Whether an event is poppable at cursors.
fn goes_on(rt: &impl Abort, alloc: Global, instance: &Instance, cursors: &Cursors) -> bool
    requires count { variables_of instance.now.stacks ≡ length cursors.now }
    requires within { AreWithin instance.now.stacks cursors.now }
{
    let mut reader = Reader::new(instance.stacks());
    let next = first_poppable(alloc, instance, &mut reader, cursors).expect(rt, "memory");
    let answer = next.is_some();
    drop(next);
    drop(reader);
    answer
}

// The number of events that occur at cursors.
fn stuck_at(rt: &impl Abort, alloc: Global, instance: &Instance, cursors: &Cursors) -> u64
    requires count { variables_of instance.now.stacks ≡ length cursors.now }
    requires within { AreWithin instance.now.stacks cursors.now }
{
    let mut reader = Reader::new(instance.stacks());
    let stuck = occurring(alloc, instance, &mut reader, cursors).expect(rt, "memory");
    let answer = stuck.len();
    drop(stuck);
    drop(reader);
    answer
}

// Compares a run: its number of pops, which must be that of its log's records, and its stuck
// events.
fn leaves(rt: &impl Abort, run: &Run, pops: u64, stuck: u64) {
    same(rt, run.end.pops, pops, "pops");
    same(rt, stuck, run.end.stuck.len(), "stuck events");
    let Some(log) = &run.log else {
        panic!(rt; "no log");
    };
    same(rt, log.len(), pops, "records");
}

// Compares a run to a limit. The whole run has 3 pops.
fn is_left(rt: &impl Abort, alloc: Global, instance: &Instance, run: &Run, limit: u64, pops: u64)
    requires over { IsEndOver instance.now.stacks run.now.end }
{
    let goes_on = goes_on(rt, alloc, instance, &run.end.cursors);
    is_so(rt, goes_on == (pops < 3), "limit", limit);
    let stuck = stuck_at(rt, alloc, instance, &run.end.cursors);
    leaves(rt, run, pops, stuck);
}

// Compares a run to a limit.
fn stops_at(rt: &impl Abort, alloc: Global, instance: &Instance, limit: u64, pops: u64) {
    let run = run_to(rt, alloc, instance, limit);
    is_left(rt, alloc, instance, &run, limit, pops);
    drop(run);
}

// Limits, and the numbers of pops of the runs to them.
static LIMITS: [(u64, u64); 5] = [(0, 0), (1, 1), (2, 2), (3, 3), (9, 3)];

// Compares the runs of an instance to each limit.
fn stops_at_each(rt: &impl Abort, alloc: Global, instance: &Instance) {
    for (limit, pops) in LIMITS.iter() {
        stops_at(rt, alloc, instance, *limit, *pops);
    }
}

// Worked by hand: the whole run pops event 0 twice and event 1 once.
#[test]
fn a_run_stops_at_its_limit(rt: HostRuntime) {
    let alloc = rt.alloc();
    let instance = two_events(&rt, alloc);
    stops_at_each(&rt, alloc, &instance);
    drop(instance);
}

// The number of values of an end: one for each variable.
fn values_count(instance: &Instance, end: &End) -> u32
    requires over { IsEndOver instance.now.stacks end.now }
    ensures { result ≡ length end.now.values }
{
    instance.stacks().count()
}

// Compares this many values.
fn are_values(rt: &impl Abort, values: &Values, count: u32, want: &[u32])
    requires { count ≡ length values.now }
{
    assert!(rt; want.len() == count as usize);
    for v in 0..count {
        same_at(rt, values.get(v), want[v as usize], "value", v as u64);
    }
}

static VALUES: &[u32] = &[1, 1];

// Compares the values at the end of the plain run of an instance.
fn ends_with_values(rt: &impl Abort, alloc: Global, instance: &Instance, want: &[u32]) {
    let end = run_first(alloc, instance).expect(rt, "memory");
    let count = values_count(instance, &end);
    are_values(rt, &end.values, count, want);
    drop(end);
}

// Worked by hand.
#[test]
fn an_end_has_the_values_at_its_cursors(rt: HostRuntime) {
    let alloc = rt.alloc();
    let instance = two_events(&rt, alloc);
    ends_with_values(&rt, alloc, &instance, VALUES);
    drop(instance);
}

// Compares the end of a whole run by an index that is made separately.
fn ends_by_index(rt: &impl Abort, alloc: Global, instance: &Instance) {
    let run = run_to(rt, alloc, instance, u64::MAX);
    is_end(rt, &run.end, instance.stacks().count(), &TWO_EVENTS.want);
    drop(run);
}

// Worked by hand.
#[test]
fn an_index_that_is_at_hand_serves(rt: HostRuntime) {
    let alloc = rt.alloc();
    let instance = two_events(&rt, alloc);
    ends_by_index(&rt, alloc, &instance);
    drop(instance);
}
