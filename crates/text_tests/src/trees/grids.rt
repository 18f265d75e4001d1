//! Arrows and weights that are made from the side of a grid, and those of the grid's graph.
ghost use Rattle.std.specs.Prelude.{◌<◌, length};
ghost use Rattle.pop_model.specs.Stacks.{variables_of};
ghost use Rattle.graph_read.specs.Graphs.{IsVertex};
ghost use Rattle.graph_read.specs.Grids.{IsSide};
ghost use Rattle.graph_read.specs.Paths.{IsConnected};

use super::{expect_joined, first_value};
use crate::comparing::is_so;
use cycle_popping::{arrow_weights, arrows, grid_arrows, grid_weights};
use graph_read::Graph;
use pop_instance::Arrows;
use pop_stacks::{StackSpec, Stacks, Weights};
use std::alloc::Global;
use std::process::Abort;

// Compares the heads of the slots of a variable.
fn leads(rt: &impl Abort, arrows: &Arrows, v: u32, want: &[Option<u32>]) {
    assert!(rt; v < arrows.count());
    let slots = arrows.slots(v);
    assert!(rt; slots as usize == want.len());
    for slot in 0..slots {
        let is_head = arrows.head(v, slot) == want[slot as usize];
        is_so(rt, is_head, "heads of variable", v as u64);
    }
}

// Compares the heads of all slots.
fn lead(rt: &impl Abort, arrows: &Arrows, want: &[&[Option<u32>]]) {
    assert!(rt; arrows.count() as usize == want.len());
    for (v, heads) in want.iter().enumerate() {
        leads(rt, arrows, v as u32, heads);
    }
}

// Worked by hand: the rows 1 2 and 3 4. Vertices 2 and 3 have edges to 1 and 4, and vertex 4 to 2
// and 3.
static HEADS: [&[Option<u32>]; 3] = [&[None, Some(2)], &[None, Some(2)], &[Some(0), Some(1)]];

#[test]
fn the_arrows_of_a_grid_lead_to_neighbours(rt: HostRuntime) {
    let arrows = grid_arrows(rt.alloc(), 2).expect(&rt, "memory");
    lead(&rt, &arrows, &HEADS);
    drop(arrows);
}

// Compares the slots of a variable in two sets of arrows.
fn same_slots(rt: &impl Abort, made: &Arrows, want: &Arrows, v: u32)
    requires made { v < length made.now }
    requires want { v < length want.now }
{
    let slots = made.slots(v);
    assert!(rt; slots == want.slots(v));
    for slot in 0..slots {
        let is_same = made.head(v, slot) == want.head(v, slot);
        is_so(rt, is_same, "heads of variable", v as u64);
    }
}

// Compares the slots of all variables.
fn same_arrows(rt: &impl Abort, made: &Arrows, want: &Arrows) {
    let count = made.count();
    assert!(rt; count == want.count());
    for v in 0..count {
        same_slots(rt, made, want, v);
    }
}

// Compares the arrows that are made from a side with those of the grid's graph.
fn has_arrows_of(rt: &impl Abort, alloc: Global, graph: &Graph, side: u32)
    requires side { IsSide side }
    requires root { IsVertex graph.now.vertices 1 }
    requires joined { IsConnected graph.now 1 }
{
    let made = grid_arrows(alloc, side).expect(rt, "memory");
    let want = arrows(alloc, graph, 1).expect(rt, "memory");
    same_arrows(rt, &made, &want);
    drop(made);
    drop(want);
}

// Compares the number of values of a variable in two stacks, and its first value.
fn same_value(rt: &impl Abort, made: &Stacks, want: &Stacks, v: u32)
    requires made { v < variables_of made.now }
    requires want { v < variables_of want.now }
{
    let as_many = made.domain(v) == want.domain(v);
    is_so(rt, as_many, "values of variable", v as u64);
    let is_same = first_value(rt, made, v) == first_value(rt, want, v);
    is_so(rt, is_same, "first value of variable", v as u64);
}

// Compares the first values of all variables.
fn same_values(rt: &impl Abort, made: &Stacks, want: &Stacks) {
    let count = made.count();
    assert!(rt; count == want.count());
    for v in 0..count {
        same_value(rt, made, want, v);
    }
}

// The stacks with these weights, under one key.
fn keyed(rt: &impl Abort, weights: Weights) -> Stacks {
    Stacks::new(StackSpec::Key([7; 32]), weights, 1).expect(rt, "stacks")
}

// The stacks with the weights that are made from a side.
fn stacks_of_side(rt: &impl Abort, alloc: Global, side: u32) -> Stacks
    requires { IsSide side }
{
    let weights = grid_weights(alloc, side).expect(rt, "memory");
    keyed(rt, weights)
}

// The stacks with the weights of a graph.
fn stacks_of_graph(rt: &impl Abort, alloc: Global, graph: &Graph) -> Stacks
    requires root { IsVertex graph.now.vertices 1 }
    requires joined { IsConnected graph.now 1 }
{
    let weights = arrow_weights(alloc, graph, 1).expect(rt, "memory");
    keyed(rt, weights)
}

// Compares the weights that are made from a side with those of the grid's graph.
fn has_weights_of(rt: &impl Abort, alloc: Global, graph: &Graph, side: u32)
    requires side { IsSide side }
    requires root { IsVertex graph.now.vertices 1 }
    requires joined { IsConnected graph.now 1 }
{
    let made = stacks_of_side(rt, alloc, side);
    let want = stacks_of_graph(rt, alloc, graph);
    same_values(rt, &made, &want);
    drop(made);
    drop(want);
}

// Compares arrows and weights that are made from a side with those of the grid's graph.
fn is_as_of_graph(rt: &impl Abort, alloc: Global, side: u32)
    requires { IsSide side }
{
    let graph = Graph::grid(alloc, side).expect(rt, "memory");
    expect_joined(rt, alloc, &graph, 1);
    has_arrows_of(rt, alloc, &graph, side);
    has_weights_of(rt, alloc, &graph, side);
    drop(graph);
}

#[test]
fn a_grid_without_its_graph_has_the_same_trees(rt: HostRuntime) {
    is_as_of_graph(&rt, rt.alloc(), 1);
    is_as_of_graph(&rt, rt.alloc(), 2);
    is_as_of_graph(&rt, rt.alloc(), 3);
    is_as_of_graph(&rt, rt.alloc(), 5);
}
