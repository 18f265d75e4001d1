//! Chains of events: each shares a variable with the next, and demands another value of it.
ghost use Rattle.std.specs.Prelude.{◌≡◌, ℕ};
ghost use Rattle.pop_model.specs.Stacks.{height_of, IsKeyed};

use super::{ends_alike, greater, under_key};
use crate::made::made;
use pop_instance::Instance;
use std::alloc::Global;
use std::process::Abort;
use std::sync::Wait;
use std::thread::Threads;
use test_instances::chain;

// The chain of this many links over stacks of this height under a key that has this byte 32 times.
pub(super) fn chained(rt: &impl Abort, alloc: Global, links: u32, key: u8, height: u32) -> Instance
    ensures keyed { IsKeyed result.stacks.origin }
    ensures height { (v : ℕ) → height_of result.stacks v ≡ height }
{
    assert!(rt; links < 1000);
    let chain = made(rt, chain(alloc, links));
    under_key(rt, 2 * links + 1, key, height, chain)
}

// Compares the ends of the runs of one chain.
fn chain_ends_alike<R: Threads + Wait + Abort + Sync>(
    rt: &R,
    alloc: Global,
    links: u32,
    key: u8,
    height: u32,
) -> (u64, u64) {
    let instance = chained(rt, alloc, links, key, height);
    let answer = ends_alike(rt, alloc, &instance);
    drop(instance);
    answer
}

// Keys and heights.
static STACKS: [(u8, u32); 4] = [(3, 900), (77, 900), (3, 2), (200, 4)];

// Compares the ends of the runs of chains of this many links. Returns the largest numbers of pops
// and of stuck events.
fn chains_end_alike<R: Threads + Wait + Abort + Sync>(
    rt: &R,
    alloc: Global,
    links: u32,
) -> (u64, u64) {
    let mut most = (0, 0);
    for (key, height) in STACKS.iter() {
        most = greater(most, chain_ends_alike(rt, alloc, links, *key, *height));
    }
    most
}

static LINKS: [u32; 3] = [1, 7, 40];

#[test]
fn chains_end_alike_for_each_number_of_workers(rt: HostRuntime) {
    let alloc = rt.alloc();
    let mut most = (0, 0);
    for links in LINKS.iter() {
        most = greater(most, chains_end_alike(&rt, alloc, *links));
    }
    assert!(&rt; most.0 > 5);
    assert!(&rt; most.1 > 0);
}
