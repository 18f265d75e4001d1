//! The index of listed events.
ghost use Rattle.std.specs.Prelude.{◌≡◌, length};

use crate::compare::same_row;
use crate::tables::listed;
use pop_instance::{Family, Index};
use pop_stacks::{StackSpec, Stacks, Weights};
use std::alloc::Global;
use std::process::Abort;
use test_instances::EventRow;

// The index of listed events over the four variables of the stacks.
fn build(rt: &impl Abort, alloc: Global, stacks: &Stacks, family: &Family) -> Index
    ensures { length result ≡ 4 }
{
    let fits = family.fits(stacks) && stacks.count() == 4;
    assert!(rt; fits);
    match family {
        Family::Listed(events) => Index::build(alloc, events, 4).expect(rt, "memory"),
        Family::Cycles(_) => panic!(rt; "no listed family"),
    }
}

// The index of listed events over four variables.
fn index(rt: &impl Abort, alloc: Global, family: &Family) -> Index
    ensures { length result ≡ 4 }
{
    let spec = StackSpec::Key([0; 32]);
    let stacks = Stacks::new(spec, Weights::pairs(4), 1).expect(rt, "stacks");
    let index = build(rt, alloc, &stacks, family);
    drop(stacks);
    index
}

// Compares the places of each of four variables.
fn has_places(rt: &impl Abort, index: &Index, want: &[&[u32]; 4])
    requires { length index.now ≡ 4 }
{
    for v in 0..4 {
        same_row(rt, index.at(v), want[v as usize], v);
    }
}

static ROWS: [EventRow; 3] = [
    (1, &[(0, 0), (2, 0)]),
    (2, &[(2, 0)]),
    (4, &[(0, 0), (1, 0)]),
];

#[test]
fn each_variable_has_the_places_that_name_it(rt: HostRuntime) {
    let family = listed(&rt, rt.alloc(), &ROWS);
    let index = index(&rt, rt.alloc(), &family);
    has_places(&rt, &index, &[&[0, 2], &[2], &[0, 1], &[]]);
    drop(index);
    drop(family);
}
