//! Chains of events: each shares a variable with the next, and demands another value of it.
use super::pops_and_stuck;
use crate::compare::is_so;
use crate::made::{chain, over_keyed};
use pop_instance::Instance;
use std::alloc::Global;
use std::process::Abort;

// The chain of this many links, with stacks of this height under a key that has this byte 32
// times.
fn chained(rt: &impl Abort, alloc: Global, links: u32, key: u8, height: u32) -> Instance {
    assert!(rt; links < 1000);
    let family = chain(rt, alloc, links);
    over_keyed(rt, key, 2 * links + 1, height, family)
}

// Runs the chain of `chained`. Returns the numbers of pops and of stuck events.
fn run_chain(rt: &impl Abort, alloc: Global, links: u32, key: u8, height: u32) -> (u64, u64) {
    let instance = chained(rt, alloc, links, key, height);
    let answer = pops_and_stuck(rt, alloc, &instance);
    drop(instance);
    answer
}

static HIGH_KEYS: [u8; 4] = [0, 1, 77, 255];

// Runs the chain of this many links under high stacks and several keys. Returns the largest number
// of pops.
fn most_pops(rt: &impl Abort, alloc: Global, links: u32) -> u64 {
    let mut most = 0;
    for key in HIGH_KEYS.iter() {
        let (pops, stuck) = run_chain(rt, alloc, links, *key, 900);
        is_so(rt, stuck == 0, "nothing is stuck under key", *key as u64);
        most = most.max(pops);
    }
    most
}

static LINKS: [u32; 7] = [1, 2, 3, 7, 20, 99, 400];

#[test]
fn both_runs_end_alike_under_high_stacks(rt: HostRuntime) {
    let alloc = rt.alloc();
    let mut most = 0;
    for links in LINKS.iter() {
        let pops = most_pops(&rt, alloc, *links);
        most = most.max(pops);
    }
    assert!(&rt; most > 50);
}

// Runs the chain of this many links under a key at several heights. Returns the largest number of
// stuck events.
fn most_stuck(rt: &impl Abort, alloc: Global, links: u32, key: u8) -> u64 {
    let mut most = 0;
    for height in 1..5 {
        let (pops, stuck) = run_chain(rt, alloc, links, key, height);
        is_so(
            rt,
            height > 1 || pops == 0,
            "a stack of one entry has no next, of",
            height as u64,
        );
        most = most.max(stuck);
    }
    most
}

// The number of links, and the key.
static TIGHT: [(u32, u8); 12] = [
    (1, 0),
    (1, 3),
    (1, 200),
    (5, 0),
    (5, 3),
    (5, 200),
    (30, 0),
    (30, 3),
    (30, 200),
    (99, 0),
    (99, 3),
    (99, 200),
];

#[test]
fn both_runs_end_alike_under_tight_heights(rt: HostRuntime) {
    let alloc = rt.alloc();
    let mut most = 0;
    for (links, key) in TIGHT.iter() {
        let stuck = most_stuck(&rt, alloc, *links, *key);
        most = most.max(stuck);
    }
    assert!(&rt; most > 0);
}
