//! Rings of variables, each with an arrow to the next one and an arrow to the variable before it.
ghost use Rattle.std.specs.Prelude.{◌<◌};

use super::{Term, logs, pops_and_stuck};
use crate::compare::{is_so, same};
use crate::made::{arrows, cycles, over_keyed};
use pop_instance::{Arrows, Family, Instance};
use std::alloc::Global;
use std::process::Abort;

// The head of a variable in rings of this size: the next one of its ring. The last ring may be
// smaller.
fn next_of(v: u32, count: u32, size: u32) -> u32
    requires some { 0 < size }
    requires known { v < count }
    requires few { count < 1000 }
{
    if (v + 1) % size == 0 || v + 1 == count {
        v - v % size
    } else {
        v + 1
    }
}

// The two heads of each of this many variables in rings of this size. Each leads to the next one
// of its ring, and to the variable before it; variable 0 leads to the root.
fn heads(rt: &impl Abort, alloc: Global, count: u32, size: u32) -> Vec<[Option<u32>; 2]>
    requires some { 0 < size }
    requires few { count < 1000 }
{
    let mut heads = Vec::new(alloc);
    for v in 0..count {
        let next = next_of(v, count, size);
        heads
            .push([Some(next), v.checked_sub(1)])
            .expect(rt, "memory");
    }
    heads
}

// The arrows with the heads of `heads`.
fn ring_arrows(rt: &impl Abort, alloc: Global, count: u32, size: u32) -> Arrows {
    assert!(rt; 0 < size);
    assert!(rt; count < 1000);
    let heads = heads(rt, alloc, count, size);
    let arrows = arrows(rt, alloc, &heads);
    drop(heads);
    arrows
}

// Rings: the number of variables, and the size of a ring.
struct Rings {
    count: u32,
    size: u32,
}

// Runs rings over stacks of this height under a key that has this byte 32 times. Returns the
// numbers of pops and of stuck cycles.
fn run_rings(rt: &impl Abort, alloc: Global, rings: &Rings, key: u8, height: u32) -> (u64, u64) {
    let arrows = ring_arrows(rt, alloc, rings.count, rings.size);
    let instance = over_keyed(rt, key, rings.count, height, Family::Cycles(arrows));
    let answer = pops_and_stuck(rt, alloc, &instance);
    drop(instance);
    answer
}

// The largest numbers of pops and of stuck cycles of some runs.
#[derive(Clone, Copy)]
struct Most {
    pops: u64,
    stuck: u64,
}

impl Most {
    // The numbers before any run.
    fn none() -> Most {
        Most { pops: 0, stuck: 0 }
    }

    // The larger numbers of these runs and of others.
    fn with(self, other: Most) -> Most {
        Most {
            pops: self.pops.max(other.pops),
            stuck: self.stuck.max(other.stuck),
        }
    }
}

static HEIGHTS: [u32; 5] = [1, 2, 3, 5, 900];

// Runs rings under a key at several heights.
fn most_of_key(rt: &impl Abort, alloc: Global, rings: &Rings, key: u8) -> Most {
    let mut most = Most::none();
    for height in HEIGHTS.iter() {
        let (pops, stuck) = run_rings(rt, alloc, rings, key, *height);
        is_so(
            rt,
            *height > 1 || pops == 0,
            "a stack of one entry has no next, of",
            *height as u64,
        );
        most = most.with(Most { pops, stuck });
    }
    most
}

static KEYS: [u8; 4] = [0, 3, 77, 200];

// Runs rings under several keys and heights.
fn most_of(rt: &impl Abort, alloc: Global, rings: &Rings) -> Most {
    let mut most = Most::none();
    for key in KEYS.iter() {
        most = most.with(most_of_key(rt, alloc, rings, *key));
    }
    most
}

static RINGS: [Rings; 7] = [
    Rings { count: 1, size: 1 },
    Rings { count: 2, size: 2 },
    Rings { count: 5, size: 5 },
    Rings { count: 9, size: 3 },
    Rings { count: 12, size: 5 },
    Rings { count: 20, size: 4 },
    Rings {
        count: 30,
        size: 30,
    },
];

#[test]
fn both_runs_of_rings_end_alike(rt: HostRuntime) {
    let alloc = rt.alloc();
    let mut most = Most::none();
    for rings in RINGS.iter() {
        most = most.with(most_of(&rt, alloc, rings));
    }
    assert!(&rt; most.pops > 50);
    assert!(&rt; most.stuck > 2);
}

// The heads of variables, and the rows of their entries.
struct Case {
    heads: &'static [[Option<u32>; 2]],
    rows: &'static [&'static [u32]],
}

static TWO_ARROWS: Case = Case {
    heads: &[[None, Some(1)], [Some(0), None]],
    rows: &[&[1, 0], &[0, 0]],
};

static TERMS: &[&[Term]] = &[&[(0, 1, 0), (1, 0, 0)]];

// The instance of this case.
fn two_arrows(rt: &impl Abort, alloc: Global) -> Instance {
    let arrows = arrows(rt, alloc, TWO_ARROWS.heads);
    cycles(rt, alloc, TWO_ARROWS.rows, arrows)
}

// Compares the number of pops of this instance, and its log.
fn one_cycle_logged(rt: &impl Abort, alloc: Global, instance: &Instance) {
    let (pops, stuck) = pops_and_stuck(rt, alloc, instance);
    same(rt, pops, 1, "pops");
    same(rt, stuck, 0, "stuck cycles");
    logs(rt, alloc, instance, 0, TERMS);
}

// Worked by hand. Variable 0 leads to the root or to variable 1, and variable 1 to variable 0 or
// to the root. Their entries are 1, 0 and 0, 0. So the cycle of both occurs, and is popped once.
#[test]
fn the_log_has_the_cycle_with_its_entries(rt: HostRuntime) {
    let alloc = rt.alloc();
    let instance = two_arrows(&rt, alloc);
    one_cycle_logged(&rt, alloc, &instance);
    drop(instance);
}
