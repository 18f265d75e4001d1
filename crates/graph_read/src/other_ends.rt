ghost use Rattle.std.specs.Prelude.{◌≡◌, ◌≤◌, ◌^◌, length, IfOk};
ghost use Rattle.graph_read.specs.Graphs.{IsVertex};
ghost use Rattle.graph_read.specs.Incidence.{degrees_of, neighbours_of, put_of, rows_by};
ghost use Rattle.graph_read.specs.declared.put.Put.TheVariants.{Weight};

use crate::end_rows::{put_rows, rows_of};
use crate::put::Put;
use crate::{Adjacency, Graph};
use pop_rows::FlatRows;
use std::alloc::{AllocError, Global};
use std::marker::Model;

/// A graph with, for each of its vertices, the neighbours that its edges join to it, in the order
/// of the graph, without self-loops. They are stored, so no edge is looked up for them. Contracts
/// see the graph.
#[derive(Drop)]
pub struct OtherEnds<'g> {
    graph: &'g Graph,
    // The neighbours of vertex w are in row w - 1.
    rows: FlatRows,
}

impl<'g> Model for OtherEnds<'g> {
    ghost use Rattle.std.specs.Prelude.{◌≡◌};
    ghost use Rattle.graph_read.specs.Graphs.{GraphOf};
    ghost use Rattle.graph_read.specs.Incidence.{put_of, rows_by};
    ghost use Rattle.graph_read.specs.declared.put.Put.TheVariants.{OtherEnd};

    ghost Value = { GraphOf };

    ghost view = { λ a. a.graph.now };

    ghost invariant = { λ a. a.rows.rows ≡ rows_by (put_of OtherEnd) a.graph.now };
}

impl<'g> OtherEnds<'g> {
    /// The other ends of a graph's edges. Time and memory are linear in the vertices and edges.
    pub fn of(alloc: Global, graph: &'g Graph) -> Result<OtherEnds<'g>, AllocError>
        ensures { IfOk result (λ ends. ends ≡ graph.now) }
    {
        let rows = rows_of(alloc, graph, Put::OtherEnd)?;
        Ok(OtherEnds { graph, rows })
    }

    /// The graph.
    pub fn graph(&self) -> &Graph
        ensures { result.now ≡ self.now }
    {
        self.graph
    }

    /// The neighbours of a vertex, one for each edge at it. Vertices count from 1.
    pub fn at(&self, vertex: u32) -> &[u32]
        requires { IsVertex self.now.vertices vertex }
        ensures { result.now ≡ neighbours_of self.now vertex }
    {
        self.rows.row(vertex - 1)
    }

    /// For each vertex, from vertex 1 on, the weights of these edges.
    pub fn weights(&self, alloc: Global) -> Result<FlatRows, AllocError>
        ensures { IfOk result (λ weights. weights.rows ≡ rows_by (put_of Weight) self.now) }
    {
        put_rows(alloc, self.graph, self.degrees(alloc)?, Put::Weight)
    }

    // The number of these edges at each vertex, from vertex 1 on.
    fn degrees(&self, alloc: Global) -> Result<Vec<u32>, AllocError>
        ensures degrees { IfOk result (λ degrees. degrees.items ≡ degrees_of self.now) }
        ensures few { IfOk result (λ degrees. length degrees.items ≤ 2 ^ 22) }
    {
        let mut degrees = Vec::with_capacity(alloc, self.vertices() as usize)?;
        for v in 0..self.vertices() {
            degrees.push(self.degree(v + 1))?;
        }
        Ok(degrees)
    }
}

impl<'g> Adjacency for OtherEnds<'g> {
    ghost of_graph = { λ a. a };

    fn vertices(&self) -> u32 {
        self.graph.vertices()
    }

    fn ends(&self) -> usize {
        2 * self.graph.edges() as usize
    }

    fn degree(&self, vertex: u32) -> u32 {
        // Read for its contract, which bounds the number of edges.
        let _edges = self.graph.edges();
        self.at(vertex).len() as u32
    }

    fn put_neighbours(&self, neighbours: &mut Vec<u32>, vertex: u32) -> Result<(), AllocError> {
        neighbours.clear();
        neighbours.extend_from_slice(self.at(vertex))
    }
}
