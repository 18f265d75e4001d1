//! Small random instances of both families.
use crate::drawn::arrows;
use crate::made::made;
use pop_instance::{Cube, Family, Instance};
use std::alloc::Global;
use std::process::Abort;
use test_instances::{below, cube, family, keyed, over};

// The event that demands these values of variables 2i, 2i + 1 and 2i + 2.
fn link(rt: &impl Abort, alloc: Global, i: u32, values: [u32; 3]) -> Cube {
    assert!(rt; i < 1000);
    let pairs = [
        (2 * i, values[0]),
        (2 * i + 1, values[1]),
        (2 * i + 2, values[2]),
    ];
    made(rt, cube(alloc, &pairs))
}

// This many events of three variables. Each shares its last variable with the next one, and the
// two demand different values of it. So they are extremal.
fn links_of(rt: &impl Abort, alloc: Global, state: &mut u64, links: u32) -> Vec<(u32, Cube)> {
    let mut rows = Vec::new(alloc);
    let mut first = below(state, 2);
    for i in 0..links {
        let next = below(state, 2);
        let middle = below(state, 2);
        let link = link(rt, alloc, i, [first, middle, 1 - next]);
        rows.push((i + 1, link)).expect(rt, "memory");
        first = next;
    }
    rows
}

// The instance of a family over this many variables, with stacks of a random height up to 6 under
// a random key.
fn over_drawn(rt: &impl Abort, state: &mut u64, count: u32, family: Family) -> Instance {
    let key = below(state, 256) as u8;
    let height = 1 + below(state, 6);
    let stacks = made(rt, keyed(key, count, height));
    made(rt, over(stacks, family))
}

// A chain of up to 6 events.
pub(super) fn chain(rt: &impl Abort, alloc: Global, state: &mut u64) -> Instance {
    let links = 1 + below(state, 6);
    let rows = links_of(rt, alloc, state, links);
    let family = made(rt, family(alloc, rows));
    over_drawn(rt, state, 2 * links + 1, family)
}

// Random arrows of up to 6 variables.
pub(super) fn tree(rt: &impl Abort, alloc: Global, state: &mut u64) -> Instance {
    let count = 1 + below(state, 6);
    let arrows = arrows(rt, alloc, state, count);
    over_drawn(rt, state, count, arrows)
}
