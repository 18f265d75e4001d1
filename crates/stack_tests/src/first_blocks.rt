//! First blocks: a reader with a cache draws those of four variables at once, and one without a
//! cache reads each stream by itself.
ghost use Rattle.std.specs.Prelude.{◌<◌, ◌^◌};
ghost use Rattle.pop_model.specs.Stacks.{IsKeyed};
ghost use Rattle.pop_stacks.specs.Readers.{Belongs};

use crate::readers::compare;
use crate::tables::weights;
use pop_stacks::{Reader, StackSpec, Stacks, Weights};
use std::alloc::Global;
use std::process::Abort;

// Places on both sides of the ends of the first block and of the first group, back and forth.
static PLACES: [u32; 10] = [7, 0, 5, 8, 1, 31, 6, 32, 2, 63];

// Compares entries of variable v.
fn compare_places(rt: &impl Abort, stacks: &Stacks, keeping: &mut Reader, v: u32)
    requires { Belongs stacks.now keeping.old }
    ensures { Belongs stacks.now keeping.new }
{
    for k in PLACES.iter() {
        compare(rt, stacks, keeping, v, *k);
    }
}

// Compares the first entry of each variable, and then entries of each.
fn compare_all(rt: &impl Abort, stacks: &Stacks, keeping: &mut Reader)
    requires { Belongs stacks.now keeping.old }
    ensures { Belongs stacks.now keeping.new }
{
    for v in 0..stacks.count() {
        compare(rt, stacks, keeping, v, 0);
    }
    for v in 0..stacks.count() {
        compare_places(rt, stacks, keeping, v);
    }
}

// Compares entries by readers that start with each of the variables in turn. The first look draws
// a block for four variables; then entries of all are compared.
fn compare_from_each(rt: &impl Abort, alloc: Global, stacks: &Stacks) {
    for v in 0..stacks.count() {
        let mut keeping = Reader::keeping(alloc, stacks).expect(rt, "memory");
        compare(rt, stacks, &mut keeping, v, 3);
        compare_all(rt, stacks, &mut keeping);
        drop(keeping);
    }
}

// Compares entries of the sample with the largest number.
fn compare_last(rt: &impl Abort, alloc: Global, stacks: &Stacks)
    requires { IsKeyed stacks.now.origin }
{
    let last = stacks.for_sample(alloc, u32::MAX).expect(rt, "memory");
    compare_from_each(rt, alloc, &last);
    drop(last);
}

// Compares entries of this many variables, of sample 0 and of the last sample.
fn compare_samples(rt: &impl Abort, alloc: Global, count: u32)
    requires { count < 2 ^ 31 }
{
    let spec = StackSpec::Key([5; 32]);
    let stacks = Stacks::new(spec, Weights::pairs(count), 64).expect(rt, "stacks");
    compare_from_each(rt, alloc, &stacks);
    compare_last(rt, alloc, &stacks);
    drop(stacks);
}

// The last group of four variables has one, two, three and four variables.
#[test]
fn first_blocks_of_four_variables_are_those_of_their_streams(rt: HostRuntime) {
    let alloc = rt.alloc();
    compare_samples(&rt, alloc, 1);
    compare_samples(&rt, alloc, 4);
    compare_samples(&rt, alloc, 5);
    compare_samples(&rt, alloc, 10);
    compare_samples(&rt, alloc, 11);
}

// Rows of weights. Some are in a group of four with rows of another length: a variable has up to
// two values, up to four, or more.
static TABLES: [&[&[u32]]; 3] = [
    &[&[9], &[2, 1], &[1, 5], &[1, 1], &[3, 3]],
    &[
        &[2, 1],
        &[1, 1, 1, 1],
        &[5, 1, 2],
        &[7],
        &[1, 2, 3, 4],
        &[1, 1],
    ],
    &[
        &[1, 1, 1],
        &[3, 1, 4, 1, 5, 9],
        &[1, 1],
        &[2, 7],
        &[4],
        &[1, 1, 1, 1, 1],
    ],
];

// Compares entries of variables with these weights.
fn compare_weighted(rt: &impl Abort, alloc: Global, table: &[&[u32]]) {
    let weights = weights(rt, alloc, table);
    let stacks = Stacks::new(StackSpec::Key([5; 32]), weights, 64).expect(rt, "stacks");
    compare_from_each(rt, alloc, &stacks);
    drop(stacks);
}

#[test]
fn first_blocks_have_the_values_of_their_variables_weights(rt: HostRuntime) {
    for table in TABLES.iter() {
        compare_weighted(&rt, rt.alloc(), table);
    }
}
