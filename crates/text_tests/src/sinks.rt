//! The events of sink-free orientations, and their index.
ghost use Rattle.std.specs.Prelude.{◌≡◌, length};

use crate::comparing::{Event, are_events, is_so};
use crate::sources::graph;
use graph_read::Graph;
use pop_instance::{Events, Index};
use sink_popping::{SinkFault, indexed_sinks, sinks};
use std::alloc::Global;
use std::process::Abort;

// The events of the graph of an input.
fn sinks_of(rt: &impl Abort, alloc: Global, text: &[u8]) -> Result<Events, SinkFault> {
    let graph = graph(rt, alloc, text);
    let events = sinks(alloc, &graph);
    drop(graph);
    events
}

// Compares the events of the graph of an input.
fn has_sinks(rt: &impl Abort, alloc: Global, text: &[u8], want: &[Event]) {
    let events = sinks_of(rt, alloc, text).expect(rt, "events");
    are_events(rt, &events, want);
    drop(events);
}

// Worked by hand: value 0 points from the first vertex of an edge to the second.
static SINKS: [(&[u8], &[Event]); 6] = [
    (
        b"p col 3 3\ne 1 2\ne 2 3\ne 3 1\n",
        &[
            (1, &[(0, 1), (2, 0)]),
            (2, &[(0, 0), (1, 1)]),
            (3, &[(1, 0), (2, 1)]),
        ],
    ),
    (b"p edge 2 1\ne 1 2\n", &[(1, &[(0, 1)]), (2, &[(0, 0)])]),
    (b"p edge 1 1\ne 1 1\n", &[]),
    (b"p edge 0 0\n", &[]),
    (
        b"p edge 2 2\ne 1 2 7\ne 2 1\n",
        &[(1, &[(0, 1), (1, 0)]), (2, &[(0, 0), (1, 1)])],
    ),
    (
        b"p edge 3 4\ne 2 2\ne 1 2\ne 2 3\ne 3 1\n",
        &[(1, &[(1, 1), (3, 0)]), (3, &[(2, 0), (3, 1)])],
    ),
];

#[test]
fn each_vertex_without_a_loop_is_an_event(rt: HostRuntime) {
    for (text, want) in SINKS.iter() {
        has_sinks(&rt, rt.alloc(), text, want);
    }
}

// The index of a graph's events.
fn index_of(rt: &impl Abort, alloc: Global, graph: &Graph) -> Index
    ensures { length result ≡ length graph.now.edges }
{
    let (events, index) = indexed_sinks(alloc, graph).expect(rt, "events");
    drop(events);
    index
}

// Compares an index over this many edges: the places of each edge.
fn is_index(rt: &impl Abort, index: &Index, edges: u32, want: &[&[u32]])
    requires { length index.now ≡ edges }
{
    assert!(rt; want.len() == edges as usize);
    for i in 0..edges {
        is_so(
            rt,
            index.at(i) == want[i as usize],
            "places at edge",
            i as u64,
        );
    }
}

// Compares the index of the events of the graph of an input.
fn has_index(rt: &impl Abort, alloc: Global, text: &[u8], want: &[&[u32]]) {
    let graph = graph(rt, alloc, text);
    let index = index_of(rt, alloc, &graph);
    is_index(rt, &index, graph.edges(), want);
    drop(index);
    drop(graph);
}

// Worked by hand: places count the vertices without a self-loop, from 0.
static PLACES: [(&[u8], &[&[u32]]); 4] = [
    (
        b"p col 3 3\ne 1 2\ne 2 3\ne 3 1\n",
        &[&[0, 1], &[1, 2], &[0, 2]],
    ),
    (b"p edge 1 1\ne 1 1\n", &[&[]]),
    (b"p edge 2 2\ne 1 2 7\ne 2 1\n", &[&[0, 1], &[0, 1]]),
    (
        b"p edge 3 4\ne 2 2\ne 1 2\ne 2 3\ne 3 1\n",
        &[&[], &[0], &[1], &[0, 1]],
    ),
];

#[test]
fn each_edge_has_the_places_of_the_events_of_its_ends(rt: HostRuntime) {
    for (text, want) in PLACES.iter() {
        has_index(&rt, rt.alloc(), text, want);
    }
}

// Compares the isolated vertex that is reported.
fn is_isolated(rt: &impl Abort, alloc: Global, text: &[u8], vertex: u32) {
    let found = sinks_of(rt, alloc, text).err();
    let is_named = found == Some(SinkFault::Isolated(vertex));
    is_so(rt, is_named, "isolated vertex", vertex as u64);
}

// Worked by hand: a self-loop is an edge of its vertex.
static ISOLATED: [(&[u8], u32); 3] = [
    (b"p edge 2 0\n", 1),
    (b"p edge 4 2\ne 1 3\ne 3 1\n", 2),
    (b"p edge 3 2\ne 1 1\ne 2 2\n", 3),
];

#[test]
fn the_least_isolated_vertex_is_named(rt: HostRuntime) {
    for (text, vertex) in ISOLATED.iter() {
        is_isolated(&rt, rt.alloc(), text, *vertex);
    }
}
