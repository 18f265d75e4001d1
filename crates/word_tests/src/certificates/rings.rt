//! Rings of variables, each with an arrow to the next one and an arrow to the variable before it.
//! Their runs are stopped at every limit and compared with the run that always pops the first
//! event.
ghost use Rattle.std.specs.Prelude.{◌≡◌, length};
ghost use Rattle.pop_model.specs.Stacks.{variables_of};
ghost use Rattle.pop_model.specs.Popping.{AreWithin};

use super::{looks_at, made, same_at};
use confluence_core::{End, run_first};
use pop_instance::{Family, Instance};
use run_cert::{Look, Part, look, run_part};
use std::alloc::Global;
use std::process::Abort;
use test_instances::{arrows, keyed, over};

// The two heads of each of this many variables in a ring: the next one, and the one before it.
// Variable 0 leads to the root.
fn heads(rt: &impl Abort, alloc: Global, count: u32) -> Vec<[Option<u32>; 2]> {
    let mut heads = Vec::new(alloc);
    for v in 0..count {
        let next = if v + 1 == count { 0 } else { v + 1 };
        heads
            .push([Some(next), v.checked_sub(1)])
            .expect(rt, "memory");
    }
    heads
}

// The cycles of a ring of this many variables.
fn cycles(rt: &impl Abort, alloc: Global, count: u32) -> Family {
    let heads = heads(rt, alloc, count);
    Family::Cycles(made(rt, arrows(alloc, &heads), "arrows"))
}

// Compares a run to a limit with the end of the run of first events. It must have as many records
// as the limit says, or as the end has pops if these are fewer. It must be open exactly if it has
// fewer records than the end has pops.
fn is_stopped(rt: &impl Abort, part: &Part, limit: u64, end: &End) {
    same_at(rt, part.log.len(), limit.min(end.pops), "limit", limit);
    let is_open = part.seen.look == Look::Open;
    assert!(rt; is_open == (limit < end.pops));
    let is_finished = part.seen.look == Look::Finished;
    let is_free = part.seen.stuck.len() == 0;
    assert!(rt; is_finished == is_free);
}

// Compares a run that was not stopped with the end of the run of first events.
fn is_end(rt: &impl Abort, count: u32, part: &Part, end: &End)
    requires part { count ≡ length part.now.cursors }
    requires end { count ≡ length end.now.cursors }
{
    for v in 0..count {
        let found = part.cursors.get(v) as u64;
        let want = end.cursors.get(v) as u64;
        same_at(rt, found, want, "variable", v as u64);
    }
    same_at(rt, part.seen.stuck.len(), end.stuck.len(), "end", end.pops);
}

// Compares the state at the cursors of a run to a limit once more.
fn looks_again(rt: &impl Abort, alloc: Global, instance: &Instance, part: &Part, limit: u64)
    requires count { variables_of instance.now.stacks ≡ length part.now.cursors }
    requires within { AreWithin instance.now.stacks part.now.cursors }
{
    let seen = look(alloc, instance, &part.cursors).expect(rt, "memory");
    looks_at(rt, seen.look, part.seen.look, limit);
    let stuck = part.seen.stuck.len();
    same_at(rt, seen.stuck.len(), stuck, "limit", limit);
}

// Stops the run of an instance at a limit, and compares it.
fn stop(rt: &impl Abort, alloc: Global, instance: &Instance, limit: u64, end: &End)
    requires count { variables_of instance.now.stacks ≡ length end.now.cursors }
{
    let part = run_part(alloc, instance, limit).expect(rt, "memory");
    is_stopped(rt, &part, limit, end);
    if limit >= end.pops {
        is_end(rt, instance.stacks().count(), &part, end);
    }
    looks_again(rt, alloc, instance, &part, limit);
}

// Stops the run of an instance at each limit, up to two more than its pops. Returns the number of
// pops.
fn stop_at_each(rt: &impl Abort, alloc: Global, instance: &Instance) -> u64 {
    let end = run_first(alloc, instance).expect(rt, "memory");
    assert!(rt; end.pops < 100000);
    for limit in 0..end.pops + 3 {
        stop(rt, alloc, instance, limit, &end);
    }
    end.pops
}

// The number of variables, the byte of the key, and the height.
static RINGS: [(u32, u8, u32); 8] = [
    (1, 0, 5),
    (2, 0, 5),
    (5, 3, 1),
    (5, 3, 9),
    (7, 5, 2),
    (9, 77, 900),
    (30, 200, 3),
    (30, 77, 900),
];

// Makes a ring of this many variables, over stacks of this height under a key that has this byte
// 32 times. Stops its run at each limit, and returns the number of pops.
fn stop_ring(rt: &impl Abort, alloc: Global, count: u32, key: u8, height: u32) -> u64 {
    let family = cycles(rt, alloc, count);
    let stacks = made(rt, keyed(key, count, height), "stacks");
    let ring = made(rt, over(stacks, family), "a ring");
    let pops = stop_at_each(rt, alloc, &ring);
    drop(ring);
    pops
}

#[test]
fn rings_stop_at_every_limit(rt: HostRuntime) {
    let mut most = 0;
    for (count, key, height) in RINGS.iter() {
        let pops = stop_ring(&rt, rt.alloc(), *count, *key, *height);
        most = most.max(pops);
    }
    assert!(&rt; most > 5);
}
