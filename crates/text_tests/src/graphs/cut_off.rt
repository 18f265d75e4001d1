//! The first vertex that is not connected to a root.
ghost use Rattle.graph_read.specs.Graphs.{IsVertex};

use crate::comparing::is_so;
use crate::sources::graph;
use graph_read::{Adjacency, Graph, OtherEnds, first_cut_off};
use std::alloc::Global;
use std::process::Abort;

// The first vertex that is not connected to a root, by the other ends of the edges.
fn cut_off_by_ends(rt: &impl Abort, alloc: Global, graph: &Graph, root: u32) -> Option<u32>
    requires { IsVertex graph.now.vertices root }
{
    let ends = OtherEnds::of(alloc, graph).expect(rt, "memory");
    let found = ends.first_cut_off(alloc, root).expect(rt, "memory");
    drop(ends);
    found
}

/// Compares the first vertex that is not connected to a root.
pub fn is_cut_off(rt: &impl Abort, alloc: Global, graph: &Graph, root: u32, want: Option<u32>) {
    assert!(rt; 1 <= root);
    assert!(rt; root <= graph.vertices());
    let found = first_cut_off(alloc, graph, root).expect(rt, "memory");
    is_so(rt, found == want, "cut off from", root as u64);
    let by_ends = cut_off_by_ends(rt, alloc, graph, root);
    is_so(rt, by_ends == want, "cut off by ends from", root as u64);
}

// Compares the first vertex that is not connected to a root in the graph of an input.
fn cuts_off(rt: &impl Abort, alloc: Global, text: &[u8], root: u32, want: Option<u32>) {
    let graph = graph(rt, alloc, text);
    is_cut_off(rt, alloc, &graph, root, want);
    drop(graph);
}

// Worked by hand: edges lead both ways, and a self-loop leads nowhere.
static CUT_OFF: [(&[u8], u32, Option<u32>); 8] = [
    (b"p edge 3 1\ne 1 2\n", 1, Some(3)),
    (b"p edge 3 1\ne 1 2\n", 3, Some(1)),
    (b"p edge 1 0\n", 1, None),
    (b"p edge 2 0\n", 2, Some(1)),
    (b"p edge 4 3\ne 2 3\ne 3 4\ne 4 1\n", 1, None),
    (b"p edge 4 3\ne 2 3\ne 3 4\ne 4 1\n", 3, None),
    (b"p edge 5 3\ne 5 3\ne 2 2\ne 1 5\n", 1, Some(2)),
    (b"p edge 5 3\ne 5 3\ne 2 4\ne 1 5\n", 4, Some(1)),
];

#[test]
fn the_least_vertex_that_is_cut_off_is_named(rt: HostRuntime) {
    for (text, root, want) in CUT_OFF.iter() {
        cuts_off(&rt, rt.alloc(), text, *root, *want);
    }
}
