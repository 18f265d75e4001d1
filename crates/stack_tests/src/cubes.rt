//! Cubes: which pairs make one, what its methods return, and how cubes are ordered.
use crate::compare::{is_so, made};
use pop_instance::Cube;
use std::alloc::Global;
use std::process::Abort;
use test_instances::cube;

// Pairs, and whether they make a cube.
static PAIRS: [(&[(u32, u32)], bool, &str); 5] = [
    (&[], false, "no pair"),
    (&[(7, 0)], true, "one pair"),
    (&[(0, 1), (3, 0), (4, 0)], true, "gaps"),
    (&[(3, 0), (1, 0)], false, "falling"),
    (&[(0, 0), (2, 0), (2, 1)], false, "a variable twice"),
];

// Compares whether these pairs make a cube.
fn make_a_cube(rt: &impl Abort, alloc: Global, pairs: &[(u32, u32)], make: bool, name: &str) {
    assert!(rt; pairs.len() < 9);
    let pairs = Vec::from_slice(alloc, pairs).expect(rt, "memory");
    let cube = Cube::new(pairs);
    is_so(rt, cube.is_some() == make, name, 0);
    drop(cube);
}

#[test]
fn a_cube_has_pairs_and_its_variables_rise_strictly(rt: HostRuntime) {
    for (pairs, make, name) in PAIRS.iter() {
        make_a_cube(&rt, rt.alloc(), pairs, *make, name);
    }
}

// Compares a cube with these pairs, none of which is of variable 1.
fn has_pairs(rt: &impl Abort, cube: &Cube, pairs: &[(u32, u32)]) {
    assert!(rt; cube.len() as usize == pairs.len());
    for i in 0..cube.len() {
        let (v, x) = pairs[i as usize];
        is_so(rt, cube.pair(i) == (v, x), "pair", i);
        is_so(rt, cube.demand(v) == Some(x), "demand on variable", v);
    }
    is_so(rt, cube.demand(1).is_none(), "demand on variable", 1);
}

// The cube of these pairs.
fn cube_of(rt: &impl Abort, alloc: Global, pairs: &[(u32, u32)]) -> Cube {
    made(rt, cube(alloc, pairs), "a cube")
}

// Compares a cube with these pairs, and the list that `into_pairs` returns.
fn gives_pairs(rt: &impl Abort, alloc: Global, cube: Cube, pairs: &[(u32, u32)]) {
    has_pairs(rt, &cube, pairs);
    let taken = cube.into_pairs(alloc).expect(rt, "memory");
    is_so(rt, taken.as_slice() == pairs, "pairs of a cube", 0);
    drop(taken);
}

// Takes a cube's pairs as a list, and makes the cube of this list.
fn makes_a_cube_again(rt: &impl Abort, alloc: Global, pairs: &[(u32, u32)]) {
    let cube = cube_of(rt, alloc, pairs);
    // Read for its contract, which says that the pairs are those of a cube.
    let _count = cube.len();
    let again = Cube::of(cube.into_pairs(alloc).expect(rt, "memory"));
    gives_pairs(rt, alloc, again, pairs);
}

// Lists of pairs, each shorter than the one before. Four pairs are stored in place, and more in a
// list.
static RISING: [&[(u32, u32)]; 4] = [
    &[(0, 1), (2, 0), (5, 7), (6, 1)],
    &[(0, 1), (2, 0), (5, 7), (6, 1), (9, 3)],
    &[(0, 1), (2, 0), (5, 7), (6, 1), (9, 3), (10, 0), (12, 4)],
    &[(3, 2)],
];

#[test]
fn cubes_of_few_and_of_many_pairs_answer_alike(rt: HostRuntime) {
    for pairs in RISING.iter() {
        has_a_copy(&rt, rt.alloc(), pairs);
        makes_a_cube_again(&rt, rt.alloc(), pairs);
    }
}

// Compares a cube of these pairs with its copy.
fn has_a_copy(rt: &impl Abort, alloc: Global, pairs: &[(u32, u32)]) {
    let cube = cube_of(rt, alloc, pairs);
    let copy = cube.copy(alloc).expect(rt, "memory");
    is_copy(rt, &copy, &cube, pairs);
    drop(copy);
    drop(cube);
}

// Compares a copy with the cube, and with its pairs.
fn is_copy(rt: &impl Abort, copy: &Cube, cube: &Cube, pairs: &[(u32, u32)]) {
    is_so(rt, *copy == *cube, "copy of a cube", 0);
    has_pairs(rt, copy, pairs);
}

// Whether the cube of the first pairs is less than that of the others.
fn is_less(rt: &impl Abort, alloc: Global, low: &[(u32, u32)], high: &[(u32, u32)]) -> bool {
    let low = cube_of(rt, alloc, low);
    let high = cube_of(rt, alloc, high);
    let is_less = low < high;
    drop(low);
    drop(high);
    is_less
}

// Lists of pairs, each less than the next. One begins with the list before it, and one does not.
static BESIDE: [&[(u32, u32)]; 3] = [&[(0, 1)], &[(0, 1), (1, 0)], &[(0, 2)]];

// Compares each cube of these pairs with the next.
fn are_rising(rt: &impl Abort, alloc: Global, table: &[&[(u32, u32)]]) {
    for i in 1..table.len() {
        let is_rising = is_less(rt, alloc, table[i - 1], table[i]);
        assert!(rt; is_rising, "cube {i} isn't greater");
    }
}

#[test]
fn cubes_are_ordered_as_lists_of_pairs(rt: HostRuntime) {
    are_rising(&rt, rt.alloc(), &BESIDE);
    are_rising(&rt, rt.alloc(), &RISING);
}

// Whether the cubes of these pairs share a variable.
fn share_a_variable(
    rt: &impl Abort,
    alloc: Global,
    pairs: &[(u32, u32)],
    others: &[(u32, u32)],
) -> bool {
    let first = cube_of(rt, alloc, pairs);
    let other = cube_of(rt, alloc, others);
    let share = first.shares(&other);
    drop(first);
    drop(other);
    share
}

// Two cubes, and whether they share a variable.
static SHARES: [(&[(u32, u32)], &[(u32, u32)], bool, &str); 4] = [
    (&[(0, 1)], &[(0, 2)], true, "other values"),
    (&[(0, 2)], &[(1, 2)], false, "one value"),
    (
        &[(0, 1), (2, 0), (5, 7), (6, 1), (9, 3)],
        &[(9, 0)],
        true,
        "the last of many",
    ),
    (
        &[(0, 1), (2, 0), (5, 7), (6, 1)],
        &[(9, 0)],
        false,
        "none of few",
    ),
];

#[test]
fn cubes_share_variables_whatever_their_values(rt: HostRuntime) {
    for (pairs, others, want, name) in SHARES.iter() {
        let share = share_a_variable(&rt, rt.alloc(), pairs, others);
        is_so(&rt, share == *want, name, 0);
    }
}
