//! Graphs from arrays of ends and weights.
ghost use Rattle.std.specs.Prelude.{◌≡◌, ◌<◌, ◌≤◌, ◌*◌, ◌/◌, ◌^◌, length, slice_index, All, IfOk, IfErr, IfNone, IfSome, OnOk};
ghost use Rattle.pop_model.specs.Places.{IsLeast};
ghost use Rattle.graph_read.specs.Graphs.{IsEdge};
ghost use Rattle.graph_read.specs.Ends.{HaveShape, IsEndsFault, edge_in, graph_in};

use crate::{Edge, Graph};
use std::alloc::{AllocError, Global};

/// Why arrays are no graph: the first fault in the order of these variants. Places count from 0.
#[derive(Clone, Copy, Debug, PartialEq, Eq)]
pub enum EndsFault {
    /// There are more than 2^22 vertices.
    TooManyVertices,
    /// The number of ends is odd.
    OddEnds,
    /// There are more than 2^23 edges.
    TooManyEdges,
    /// There are weights, but their number is not that of the edges.
    WeightCount,
    /// The first place of an end that is no vertex.
    NoVertex(u32),
    /// The first place of a weight that is 0.
    NoWeight(u32),
    /// Out of memory.
    OutOfMemory,
}

impl From<AllocError> for EndsFault {
    ghost use Rattle.std.specs.Prelude.{◌≡◌};
    ghost use Rattle.graph_read.specs.declared.ends.EndsFault.TheVariants.{OutOfMemory};

    ghost from_gives = { λ _ fault. fault ≡ OutOfMemory };

    fn from(_: AllocError) -> Self {
        EndsFault::OutOfMemory
    }
}

// The first place of a number that is not below the limit.
fn first_not_below(numbers: &[u32], limit: u32) -> Option<u32>
    requires { length numbers.now ≤ 2 ^ 24 }
    ensures none { IfNone result (All (λ x. x < limit) numbers.now) }
    ensures found { IfSome result
        (IsLeast (λ k. (k < length numbers.now) × (limit ≤ slice_index numbers.now k))) }
{
    for (k, x) in numbers.iter().enumerate() {
        if *x >= limit {
            return Some(k as u32);
        }
    }
    None
}

// The first place of a number that is 0.
fn first_zero(numbers: &[u32]) -> Option<u32>
    requires { length numbers.now ≤ 2 ^ 24 }
    ensures none { IfNone result (All (λ x. 0 < x) numbers.now) }
    ensures found { IfSome result
        (IsLeast (λ k. (k < length numbers.now) × (slice_index numbers.now k ≡ 0))) }
{
    for (k, x) in numbers.iter().enumerate() {
        if *x == 0 {
            return Some(k as u32);
        }
    }
    None
}

// Rejects arrays with invalid lengths.
fn check_shape(vertices: u32, ends: &[u32], weights: &[u32]) -> Result<(), EndsFault>
    ensures shape { OnOk result (HaveShape vertices ends.now weights.now) }
    ensures fault { IfErr result (IsEndsFault vertices ends.now weights.now) }
{
    if vertices > 1 << 22 {
        return Err(EndsFault::TooManyVertices);
    }
    if ends.len() % 2 != 0 {
        return Err(EndsFault::OddEnds);
    }
    if ends.len() > 1 << 24 {
        return Err(EndsFault::TooManyEdges);
    }
    if !weights.is_empty() && weights.len() != ends.len() / 2 {
        return Err(EndsFault::WeightCount);
    }
    Ok(())
}

// Edge i of the arrays.
fn edge_of(vertices: u32, ends: &[u32], weights: &[u32], i: usize) -> Edge
    requires shape { HaveShape vertices ends.now weights.now }
    requires ends { All (λ w. w < vertices) ends.now }
    requires weights { All (λ w. 0 < w) weights.now }
    requires known { i < length ends.now / 2 }
    ensures edge { result ≡ edge_in ends.now weights.now i }
    ensures joins { IsEdge vertices result }
{
    Edge {
        u: ends[2 * i] + 1,
        v: ends[2 * i + 1] + 1,
        weight: if weights.is_empty() { 1 } else { weights[i] },
    }
}

/// The graph with this many vertices and with these edges. The ends of edge i are the vertices at
/// the places 2 i and 2 i + 1; they count from 0 there. Its weight is at place i, or 1 if there
/// are no weights at all.
pub fn graph_of_ends(
    alloc: Global,
    vertices: u32,
    ends: &[u32],
    weights: &[u32],
) -> Result<Graph, EndsFault>
    ensures graph { IfOk result (λ graph. graph ≡ graph_in vertices ends.now weights.now) }
    ensures fault { IfErr result (IsEndsFault vertices ends.now weights.now) }
{
    check_shape(vertices, ends, weights)?;
    if let Some(place) = first_not_below(ends, vertices) {
        return Err(EndsFault::NoVertex(place));
    }
    if let Some(place) = first_zero(weights) {
        return Err(EndsFault::NoWeight(place));
    }
    let count = ends.len() / 2;
    let mut graph = Graph::with_room(alloc, vertices, count)?;
    for i in 0..count {
        graph.push(edge_of(vertices, ends, weights, i))?;
    }
    Ok(graph)
}
