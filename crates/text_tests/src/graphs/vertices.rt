//! The rows of the vertices of a graph: the darts of the edges, their other ends, and their
//! weights.
ghost use Rattle.graph_read.specs.Graphs.{IsVertex};

use super::BY_HAND;
use crate::comparing::is_so;
use crate::sources::graph;
use graph_read::{Adjacency, Graph, Incidence, OtherEnds, edges_at_places};
use pop_rows::FlatRows;
use std::alloc::Global;
use std::process::Abort;

// The rows of the vertices of `BY_HAND`: the darts of the edges, their other ends, and their
// weights. Edge 0 is a self-loop at 2, edges 1 and 3 join 1 and 2, and edge 2 joins 3 and 1.
// Worked by hand.
static DARTS: [&[u32]; 3] = [&[3, 4, 7], &[2, 6], &[5]];

static ENDS: [&[u32]; 3] = [&[2, 3, 2], &[1, 1], &[1]];

static WEIGHTS: [&[u32]; 3] = [&[5, 1, 1], &[5, 1], &[1]];

// Compares the darts at each vertex.
fn have_darts(rt: &impl Abort, incidence: &Incidence) {
    assert!(rt; incidence.graph().vertices() == 3);
    for v in 0..3 {
        let are_there = incidence.at(v + 1) == DARTS[v as usize];
        is_so(rt, are_there, "darts at vertex", v as u64 + 1);
    }
}

#[test]
fn each_vertex_has_the_darts_there_but_for_loops(rt: HostRuntime) {
    let graph = graph(&rt, rt.alloc(), BY_HAND);
    let incidence = Incidence::of(rt.alloc(), &graph).expect(&rt, "memory");
    have_darts(&rt, &incidence);
    drop(incidence);
    drop(graph);
}

// Compares the other ends of the edges at a vertex.
fn lead_to(rt: &impl Abort, ends: &OtherEnds, neighbours: &mut Vec<u32>, vertex: u32, want: &[u32])
    requires { IsVertex ends.now.vertices vertex }
{
    is_so(rt, ends.at(vertex) == want, "ends at vertex", vertex as u64);
    assert!(rt; ends.degree(vertex) as usize == want.len());
    ends.put_neighbours(neighbours, vertex).expect(rt, "memory");
    let are_put = neighbours.as_slice() == want;
    is_so(rt, are_put, "neighbours of vertex", vertex as u64);
}

// Compares the other ends of the edges at each vertex.
fn all_lead(rt: &impl Abort, ends: &OtherEnds, neighbours: &mut Vec<u32>) {
    assert!(rt; ends.graph().vertices() == 3);
    for v in 0..3 {
        lead_to(rt, ends, neighbours, v + 1, ENDS[v as usize]);
    }
}

#[test]
fn each_vertex_has_the_other_ends_of_its_edges(rt: HostRuntime) {
    let graph = graph(&rt, rt.alloc(), BY_HAND);
    let ends = OtherEnds::of(rt.alloc(), &graph).expect(&rt, "memory");
    let mut neighbours = Vec::new(rt.alloc());
    all_lead(&rt, &ends, &mut neighbours);
    drop(neighbours);
    drop(ends);
    drop(graph);
}

// Compares the weights of the edges at each vertex.
fn weigh(rt: &impl Abort, weights: &FlatRows) {
    assert!(rt; weights.count() == 3);
    for v in 0..3 {
        let are_there = weights.row(v) == WEIGHTS[v as usize];
        is_so(rt, are_there, "weights at vertex", v as u64 + 1);
    }
}

// The weights of the edges at each vertex.
fn weights_of(rt: &impl Abort, alloc: Global, graph: &Graph) -> FlatRows {
    let ends = OtherEnds::of(alloc, graph).expect(rt, "memory");
    let weights = ends.weights(alloc).expect(rt, "memory");
    drop(ends);
    weights
}

#[test]
fn each_vertex_has_the_weights_of_its_edges(rt: HostRuntime) {
    let graph = graph(&rt, rt.alloc(), BY_HAND);
    let weights = weights_of(&rt, rt.alloc(), &graph);
    drop(graph);
    weigh(&rt, &weights);
    drop(weights);
}

// The second edge at vertex 1, the second at vertex 2, and the first at vertex 3; and these edges.
static PLACES: [u32; 3] = [2, 2, 1];

static AT_PLACES: [u32; 3] = [2, 3, 2];

// Compares the edges at these places.
fn stand_at_places(rt: &impl Abort, alloc: Global, graph: &Graph) {
    assert!(rt; graph.vertices() == 3);
    let places = Vec::from_slice(alloc, &PLACES).expect(rt, "memory");
    let edges = edges_at_places(alloc, graph, places).expect(rt, "memory");
    assert!(rt; edges.as_slice() == AT_PLACES.as_slice());
    drop(edges);
}

#[test]
fn an_edge_is_found_by_its_place_at_a_vertex(rt: HostRuntime) {
    let graph = graph(&rt, rt.alloc(), BY_HAND);
    stand_at_places(&rt, rt.alloc(), &graph);
    drop(graph);
}
