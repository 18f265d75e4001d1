//! Runs by workers, which must have the end of the run on one thread.
ghost use Rattle.std.specs.Prelude.{◌≡◌, ◌<◌, ◌≤◌, ℕ, length};
ghost use Rattle.pop_model.specs.Stacks.{variables_of, height_of, IsKeyed};
ghost use Rattle.pop_model.specs.Popping.{AreWithin};

use crate::comparing::{is_so, same};
use confluence_core::{End, Keep, run_first};
use pop_instance::{Cursors, Family, Instance};
use pop_stacks::{StackSpec, Stacks, Weights};
use pop_workers::{Gate, NoGate, Outcome, sample_claimed, sample_locked, zeros_of};
use std::alloc::Global;
use std::process::Abort;
use std::sync::Wait;
use std::thread::Threads;
use test_instances::are_cursors_alike;

mod chains;
mod heights;
mod schedules;
mod trees;

// Events over this many variables with two values, with stacks of this height under a key that has
// this byte 32 times.
fn under_key(rt: &impl Abort, count: u32, key: u8, height: u32, family: Family) -> Instance
    ensures keyed { IsKeyed result.stacks.origin }
    ensures height { (v : ℕ) → height_of result.stacks v ≡ height }
{
    assert!(rt; count < 3000);
    assert!(rt; 0 < height);
    assert!(rt; height < 1000);
    let weights = Weights::pairs(count);
    let stacks = Stacks::new(StackSpec::Key([key; 32]), weights, height).expect(rt, "stacks");
    Instance::new(stacks, family).expect(rt, "an instance")
}

// The run of this many workers from these cursors, on claim words or under a lock.
fn sample_from<R: Threads + Wait + Abort + Sync, G: Gate + Sync>(
    rt: &R,
    alloc: Global,
    instance: &Instance,
    from: &Cursors,
    claimed: bool,
    workers: u32,
    gate: &G,
) -> Outcome
    requires count { variables_of instance.now.stacks ≡ length from.now }
    requires within { AreWithin instance.now.stacks from.now }
    requires workers { (0 < workers) × (workers ≤ 64) }
    ensures { variables_of instance.now.stacks ≡ length result.end.cursors }
{
    if claimed {
        let run = sample_claimed(rt, alloc, instance, from, workers, Keep::Log, gate);
        return run.expect(rt, "memory");
    }
    let run = sample_locked(rt, alloc, instance, from, workers, Keep::Log, gate);
    run.expect(rt, "memory")
}

// The run of this many workers from zeros, on claim words or under a lock.
fn sample<R: Threads + Wait + Abort + Sync, G: Gate + Sync>(
    rt: &R,
    alloc: Global,
    instance: &Instance,
    claimed: bool,
    workers: u32,
    gate: &G,
) -> Outcome
    requires { (0 < workers) × (workers ≤ 64) }
    ensures { variables_of instance.now.stacks ≡ length result.end.cursors }
{
    let from = zeros_of(alloc, instance).expect(rt, "memory");
    let run = sample_from(rt, alloc, instance, &from, claimed, workers, gate);
    drop(from);
    run
}

// Compares the length of the log of a run with its number of pops.
fn logs_each_pop(rt: &impl Abort, run: &Outcome) {
    let Some(log) = &run.log else {
        panic!(rt; "no log");
    };
    same(rt, log.len(), run.end.pops, "records");
}

// Compares an end by workers with that of the one-thread run.
fn is_alike(rt: &impl Abort, run: &Outcome, first: &End, count: u32)
    requires run { count ≡ length run.now.end.cursors }
    requires first { count ≡ length first.now.cursors }
{
    let are_alike = are_cursors_alike(&run.end.cursors, &first.cursors, count);
    is_so(rt, are_alike, "cursors of variables below", count);
    same(rt, run.end.pops, first.pops, "pops");
    same(rt, run.end.stuck.len(), first.stuck.len(), "stuck events");
    logs_each_pop(rt, run);
}

// Compares the end of one run with that of the one-thread run.
fn run_alike<R: Threads + Wait + Abort + Sync>(
    rt: &R,
    alloc: Global,
    instance: &Instance,
    claimed: bool,
    workers: u32,
    first: &End,
)
    requires workers { (0 < workers) × (workers ≤ 64) }
    requires first { variables_of instance.now.stacks ≡ length first.now.cursors }
{
    let outcome = sample(rt, alloc, instance, claimed, workers, &NoGate);
    is_alike(rt, &outcome, first, instance.stacks().count());
    drop(outcome);
}

// Compares the ends of this many workers on both boards.
fn runs_alike<R: Threads + Wait + Abort + Sync>(
    rt: &R,
    alloc: Global,
    instance: &Instance,
    workers: u32,
    first: &End,
)
    requires first { variables_of instance.now.stacks ≡ length first.now.cursors }
{
    assert!(rt; 0 < workers);
    assert!(rt; workers <= 64);
    run_alike(rt, alloc, instance, false, workers, first);
    run_alike(rt, alloc, instance, true, workers, first);
}

static WORKERS: [u32; 4] = [1, 2, 8, 64];

// Compares the ends of each number of workers.
fn all_alike<R: Threads + Wait + Abort + Sync>(
    rt: &R,
    alloc: Global,
    instance: &Instance,
    first: &End,
)
    requires first { variables_of instance.now.stacks ≡ length first.now.cursors }
{
    for workers in WORKERS.iter() {
        runs_alike(rt, alloc, instance, *workers, first);
    }
}

// Runs the instance on one thread and by several numbers of workers on both boards, and compares
// their ends. Returns the numbers of pops and of stuck events.
fn ends_alike<R: Threads + Wait + Abort + Sync>(
    rt: &R,
    alloc: Global,
    instance: &Instance,
) -> (u64, u64) {
    let first = run_first(alloc, instance).expect(rt, "memory");
    all_alike(rt, alloc, instance, &first);
    let found = (first.pops, first.stuck.len());
    drop(first);
    found
}

// The larger first number and the larger second number of two pairs.
fn greater(one: (u64, u64), other: (u64, u64)) -> (u64, u64) {
    (one.0.max(other.0), one.1.max(other.1))
}
