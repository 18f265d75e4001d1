//! Grids: their edges, and the neighbours of their vertices.
ghost use Rattle.std.specs.Prelude.{◌*◌};
ghost use Rattle.graph_read.specs.Graphs.{IsVertex};
ghost use Rattle.graph_read.specs.Grids.{IsSide};

use super::cut_off::is_cut_off;
use super::{Joined, are_edges};
use crate::comparing::is_so;
use graph_read::{Graph, put_grid_neighbours};
use std::alloc::Global;
use std::process::Abort;

// Worked by hand: the rows 1 2 3, 4 5 6 and 7 8 9.
static GRID: [Joined; 12] = [
    (1, 2, 1),
    (1, 4, 1),
    (2, 3, 1),
    (2, 5, 1),
    (3, 6, 1),
    (4, 5, 1),
    (4, 7, 1),
    (5, 6, 1),
    (5, 8, 1),
    (6, 9, 1),
    (7, 8, 1),
    (8, 9, 1),
];

// Compares a grid: its number of vertices, all of which are connected to this root, and its edges.
fn is_grid(
    rt: &impl Abort,
    alloc: Global,
    graph: &Graph,
    vertices: u32,
    root: u32,
    want: &[Joined],
) {
    assert!(rt; graph.vertices() == vertices);
    are_edges(rt, graph, want);
    is_cut_off(rt, alloc, graph, root, None);
}

#[test]
fn a_grid_joins_each_vertex_to_the_right_and_below(rt: HostRuntime) {
    let graph = Graph::grid(rt.alloc(), 3).expect(&rt, "memory");
    is_grid(&rt, rt.alloc(), &graph, 9, 5, &GRID);
    drop(graph);
}

#[test]
fn a_grid_of_one_vertex_has_no_edge(rt: HostRuntime) {
    let graph = Graph::grid(rt.alloc(), 1).expect(&rt, "memory");
    is_grid(&rt, rt.alloc(), &graph, 1, 1, &[]);
    drop(graph);
}

// Compares the neighbours of a vertex of a grid.
fn leads_in_grid(rt: &impl Abort, neighbours: &mut Vec<u32>, side: u32, vertex: u32, want: &[u32])
    requires side { IsSide side }
    requires vertex { IsVertex (side * side) vertex }
{
    put_grid_neighbours(neighbours, side, vertex).expect(rt, "memory");
    let are_put = neighbours.as_slice() == want;
    is_so(rt, are_put, "neighbours of vertex", vertex as u64);
}

// Worked by hand: the rows 1 2 3, 4 5 6 and 7 8 9; and a grid of one vertex.
fn lead_in_grids(rt: &impl Abort, neighbours: &mut Vec<u32>) {
    leads_in_grid(rt, neighbours, 3, 5, &[2, 4, 6, 8]);
    leads_in_grid(rt, neighbours, 3, 1, &[2, 4]);
    leads_in_grid(rt, neighbours, 3, 6, &[3, 5, 9]);
    leads_in_grid(rt, neighbours, 3, 7, &[4, 8]);
    leads_in_grid(rt, neighbours, 1, 1, &[]);
}

#[test]
fn a_vertex_of_a_grid_has_up_to_four_neighbours(rt: HostRuntime) {
    let mut neighbours = Vec::new(rt.alloc());
    lead_in_grids(&rt, &mut neighbours);
    drop(neighbours);
}
