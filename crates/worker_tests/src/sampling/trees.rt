//! Random arrows towards a root.
ghost use Rattle.std.specs.Prelude.{◌≡◌, ℕ};
ghost use Rattle.pop_model.specs.Stacks.{height_of, IsKeyed};

use super::{ends_alike, greater, under_key};
use crate::drawn::arrows;
use pop_instance::Instance;
use std::alloc::Global;
use std::process::Abort;
use std::sync::Wait;
use std::thread::Threads;

// Random arrows of this many variables over stacks of this height under a key that has this byte
// 32 times.
pub(super) fn tree_under_key(
    rt: &impl Abort,
    alloc: Global,
    state: &mut u64,
    count: u32,
    key: u8,
    height: u32,
) -> Instance
    ensures keyed { IsKeyed result.stacks.origin }
    ensures height { (v : ℕ) → height_of result.stacks v ≡ height }
{
    let arrows = arrows(rt, alloc, state, count);
    under_key(rt, count, key, height, arrows)
}

// Compares the ends of the runs of one tree.
fn tree_ends_alike<R: Threads + Wait + Abort + Sync>(
    rt: &R,
    alloc: Global,
    state: &mut u64,
    count: u32,
    key: u8,
    height: u32,
) -> (u64, u64) {
    let instance = tree_under_key(rt, alloc, state, count, key, height);
    let answer = ends_alike(rt, alloc, &instance);
    drop(instance);
    answer
}

// Keys and heights.
static STACKS: [(u8, u32); 4] = [(0, 900), (77, 900), (5, 1), (200, 2)];

// Compares the ends of the runs of trees of this many variables. Returns the largest numbers of
// pops and of stuck events.
fn trees_end_alike<R: Threads + Wait + Abort + Sync>(
    rt: &R,
    alloc: Global,
    state: &mut u64,
    count: u32,
) -> (u64, u64) {
    let mut most = (0, 0);
    for (key, height) in STACKS.iter() {
        let ended = tree_ends_alike(rt, alloc, state, count, *key, *height);
        most = greater(most, ended);
    }
    most
}

static COUNTS: [u32; 4] = [1, 2, 9, 70];

#[test]
fn random_trees_end_alike_for_each_number_of_workers(rt: HostRuntime) {
    let alloc = rt.alloc();
    let mut state = 2026;
    let mut most = (0, 0);
    for count in COUNTS.iter() {
        most = greater(most, trees_end_alike(&rt, alloc, &mut state, *count));
    }
    assert!(&rt; most.0 > 5);
    assert!(&rt; most.1 > 0);
}
