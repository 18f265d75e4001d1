//! Finds edges by their places among the edges at a vertex.
ghost use Rattle.std.specs.Prelude.{◌≡◌, ◌<◌, ◌-◌, ◌==◌, length, slice_index, slice_set, if◌then◌else◌, IfOk};
ghost use Rattle.graph_read.specs.Incidence.{StandAtPlaces};

use crate::Graph;
use std::alloc::{AllocError, Global};

/// For each vertex, from vertex 1 on, the edge at a place among the edges at it, without
/// self-loops. There is one place for each vertex, counted from 1; 0 asks for no edge. One pass
/// over the edges finds them all, with memory for one number for each vertex.
pub fn edges_at_places(
    alloc: Global,
    graph: &Graph,
    places: Vec<u32>,
) -> Result<Vec<u32>, AllocError>
    requires { length places.items ≡ graph.now.vertices }
    ensures { IfOk result (λ edges. StandAtPlaces graph.now places.items edges.items) }
{
    let mut left = places;
    let mut picked = vec![in alloc; 0; graph.vertices() as usize]?;
    pick_edges(graph, &mut left, &mut picked);
    Ok(picked)
}

// Picks for each vertex the edge at its place. The place of a vertex is counted down at each of
// its edges.
fn pick_edges(graph: &Graph, left: &mut [u32], picked: &mut [u32])
    requires left { length left.old ≡ graph.now.vertices }
    requires picked { length picked.old ≡ graph.now.vertices }
    ensures { StandAtPlaces graph.now left.old picked.new }
{
    for i in 0..graph.edges() {
        let edge = graph.edge(i);
        if !edge.is_loop() {
            pick_at(left, picked, edge.u - 1, i);
            pick_at(left, picked, edge.v - 1, i);
        }
    }
}

// Counts down the place of a row, and picks number i when the place is 1.
fn pick_at(left: &mut [u32], picked: &mut [u32], row: u32, i: u32)
    requires left { row < length left.old }
    requires picked { row < length picked.old }
    ensures left { left.new ≡ slice_set left.old row (slice_index left.old row - 1) }
    ensures picked { picked.new ≡ (if slice_index left.old row == 1
        then slice_set picked.old row i else picked.old) }
{
    let row = row as usize;
    if left[row] == 1 {
        picked[row] = i;
    }
    left[row] = left[row].saturating_sub(1);
}
