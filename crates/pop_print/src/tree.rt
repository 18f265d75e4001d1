//! The sample of a rooted spanning tree: the vertices with their arrows.
ghost use Rattle.std.specs.Prelude.{◌≡◌, ◌+◌, ◌<◌, ◌++◌, ◌^◌, ℕ, length, slice_index, IfOk, OnOk};
ghost use Rattle.pop_model.specs.Names.{vertex_of as vertex_named};
ghost use Rattle.graph_read.specs.Graphs.{IsVertex, edge_at};
ghost use Rattle.graph_read.specs.Incidence.{edges_at, other_end};
ghost use Rattle.pop_print.specs.Output.{arrow_line, tree_lines};
ghost use Rattle.pop_print.specs.Places.{ArePlaces};

use crate::arrow::push_arrow;
use graph_read::{Graph, edges_at_places, vertex_of};
use pop_instance::Values;
use pop_text::Output;
use std::alloc::{AllocError, Global};

// For each vertex its slot, counted from 1, and 0 for the root.
fn places_of(
    alloc: Global,
    vertices: u32,
    root: u32,
    values: &Values,
) -> Result<Vec<u32>, AllocError>
    requires root { IsVertex vertices root }
    requires count { length values.now + 1 ≡ vertices }
    requires few { vertices < 2 ^ 31 }
    requires small { (v : ℕ) → v < length values.now → slice_index values.now v < 2 ^ 31 }
    ensures { IfOk result (λ places. ArePlaces root values.now places.items) }
{
    let mut places = vec![in alloc; 0; vertices as usize]?;
    for v in 0..vertices - 1 {
        places[vertex_of(root, v) as usize - 1] = values.get(v) + 1;
    }
    Ok(places)
}

// Adds the line of a vertex, with its arrow along edge i.
fn push_along(out: &mut Output, graph: &Graph, vertex: u32, i: u32) -> Result<(), AllocError>
    requires { i < length graph.now.edges }
    ensures { OnOk result (out.new ≡ out.old
        ++ arrow_line vertex (other_end (edge_at graph.now i) vertex) (i + 1)) }
{
    // Read for its contract, which bounds the number of edges.
    let _edges = graph.edges();
    push_arrow(out, vertex, graph.edge(i).other_end(vertex), i + 1)
}

/// Adds a line for each vertex except the root, by the values of this many variables. The edges of
/// the slots are found in one pass over all edges.
pub fn push_tree(
    alloc: Global,
    out: &mut Output,
    graph: &Graph,
    root: u32,
    values: &Values,
) -> Result<(), AllocError>
    requires root { IsVertex graph.now.vertices root }
    requires count { length values.now + 1 ≡ graph.now.vertices }
    requires slots { (v : ℕ) → v < length values.now
        → slice_index values.now v < length (edges_at graph.now (vertex_named root v)) }
    ensures { OnOk result (out.new ≡ out.old ++ tree_lines graph.now root values.now) }
{
    let places = places_of(alloc, graph.vertices(), root, values)?;
    let edges = edges_at_places(alloc, graph, places)?;
    for v in 0..graph.vertices() - 1 {
        let vertex = vertex_of(root, v);
        push_along(out, graph, vertex, edges[vertex as usize - 1])?;
    }
    Ok(())
}
