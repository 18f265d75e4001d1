//! A pop, and which events occur before and after it.
ghost use Rattle.std.specs.Prelude.{◌≡◌, [], ◌∷◌, length};
ghost use Rattle.pop_model.specs.Popping.{NamesBelow};

use crate::compare::{is_so, made, same};
use crate::tables::are_within;
use pop_instance::{Cube, Cursors};
use pop_stacks::{Reader, Stacks};
use std::alloc::Global;
use std::process::Abort;
use test_instances::stacks;

// The cube of value 0 of variables 0 and 1.
fn cube(rt: &impl Abort, alloc: Global) -> Cube
    ensures { result ≡ (0, 0) ∷ (1, 0) ∷ [] }
{
    let pairs = Vec::from_slice(alloc, &[(0, 0), (1, 0)]).expect(rt, "memory");
    Cube::new(pairs).expect(rt, "a cube")
}

// Compares whether the cube occurs at the cursors of two variables. If it does, it must be
// poppable.
fn occurs(rt: &impl Abort, stacks: &Stacks, cursors: &Cursors, cube: &Cube, want: bool)
    requires two { length cursors.now ≡ 2 }
    requires known { NamesBelow cube.now 2 }
{
    let are_there = stacks.count() == 2 && are_within(stacks, cursors);
    assert!(rt; are_there);
    let mut reader = Reader::new(stacks);
    let occurs = cursors.occurs(stacks, &mut reader, cube);
    let poppable = cursors.poppable(stacks, &mut reader, cube);
    drop(reader);
    let is_want = occurs == want && poppable == want;
    is_so(rt, is_want, "the cube at its entries", 0);
}

// Compares cursors, both at this entry, and whether the cube occurs there.
fn occurs_at(
    rt: &impl Abort,
    stacks: &Stacks,
    cursors: &Cursors,
    cube: &Cube,
    entry: u32,
    want: bool,
)
    requires two { length cursors.now ≡ 2 }
    requires known { NamesBelow cube.now 2 }
{
    same(rt, cursors.get(0), entry, "cursor of variable", 0);
    same(rt, cursors.get(1), entry, "cursor of variable", 1);
    occurs(rt, stacks, cursors, cube, want);
}

// The cursors after a pop of the cube at the first entries.
fn popped(rt: &impl Abort, alloc: Global, start: &Cursors, cube: &Cube) -> Cursors
    requires start { start.now ≡ 0 ∷ 0 ∷ [] }
    requires cube { cube.now ≡ (0, 0) ∷ (1, 0) ∷ [] }
    ensures { length result ≡ 2 }
{
    let mut cursors = start.copy(alloc).expect(rt, "memory");
    cursors.pop(cube);
    cursors
}

// Pops the cube at the first entries. It occurs there, and does not occur after the pop.
fn pops(rt: &impl Abort, alloc: Global, stacks: &Stacks, cube: &Cube)
    requires { cube.now ≡ (0, 0) ∷ (1, 0) ∷ [] }
{
    let start = Cursors::zeros(alloc, 2).expect(rt, "memory");
    let cursors = popped(rt, alloc, &start, cube);
    occurs_at(rt, stacks, &start, cube, 0, true);
    occurs_at(rt, stacks, &cursors, cube, 1, false);
    drop(start);
    drop(cursors);
}

// Two variables with the entries 0, 1 each. The test pops the cube that demands 0 of both.
#[test]
fn a_pop_moves_each_variable_of_the_event(rt: HostRuntime) {
    let stacks = made(&rt, stacks(rt.alloc(), &[&[0, 1], &[0, 1]]), "stacks");
    let cube = cube(&rt, rt.alloc());
    pops(&rt, rt.alloc(), &stacks, &cube);
    drop(cube);
    drop(stacks);
}
