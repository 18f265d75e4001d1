ghost use Rattle.std.specs.Prelude.{◌≡◌, length, OnOk};
ghost use Rattle.graph_read.specs.Graphs.{IsGraph, IsVertex};
ghost use Rattle.graph_read.specs.Incidence.{edges_at, neighbours_of};

use std::alloc::AllocError;

/// The adjacency of a graph without its self-loops: the vertices that edges join to each vertex.
/// Vertices count from 1.
pub trait Adjacency {
    ghost use Rattle.graph_read.specs.Graphs.{GraphOf};

    /// The graph.
    ghost of_graph: { Self → GraphOf };

    /// The number of vertices, at most 2^22.
    fn vertices(&self) -> u32
        ensures count { result ≡ (of_graph self.now).vertices }
        ensures graph { IsGraph (of_graph self.now) };

    /// About twice the number of edges: the sum of the degrees. It only suggests how much room
    /// lists may need.
    fn ends(&self) -> usize;

    /// The number of edges at a vertex, without self-loops.
    fn degree(&self, vertex: u32) -> u32
        requires { IsVertex (of_graph self.now).vertices vertex }
        ensures { result ≡ length (edges_at (of_graph self.now) vertex) };

    /// Replaces the contents of a list by the neighbours of a vertex, one for each edge at it, in
    /// the order of the graph.
    fn put_neighbours(&self, neighbours: &mut Vec<u32>, vertex: u32) -> Result<(), AllocError>
        requires { IsVertex (of_graph self.now).vertices vertex }
        ensures { OnOk result
            (neighbours.new.items ≡ neighbours_of (of_graph self.now) vertex) };
}
