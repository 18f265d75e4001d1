ghost use Rattle.std.specs.Prelude.{◌≡◌, ◌<◌, ◌≤◌, ◌^◌, [], ◌∷◌, ◌++◌, length, slice_index_or, IfOk, OnOk, OnErr};

use crate::Edge;
use std::alloc::{AllocError, Global};
use std::marker::Model;

/// A graph of at most 2^22 vertices, which count from 1, and at most 2^23 edges, which count from
/// 0 here. Self-loops and parallel edges are allowed.
#[derive(Drop)]
pub struct Graph {
    vertices: u32,
    edges: Vec<Edge>,
}

impl Model for Graph {
    ghost use Rattle.graph_read.specs.Graphs.{GraphOf, IsGraph};

    ghost Value = { GraphOf };

    ghost view = { λ g. record { vertices = g.vertices; edges = g.edges.items } };

    ghost invariant = { λ g. IsGraph (record { vertices = g.vertices; edges = g.edges.items }) };
}

impl Graph {
    ghost use Rattle.graph_read.specs.Graphs.{IsEdge, IsGraph};

    // The graph with this many vertices and no edges.
    pub(crate) fn without_edges(alloc: Global, vertices: u32) -> Graph
        requires { vertices ≤ 2 ^ 22 }
        ensures { result ≡ record { vertices = vertices; edges = [] } }
    {
        Graph {
            vertices,
            edges: Vec::new(alloc),
        }
    }

    // The graph with this many vertices and no edges, with room for this many edges.
    pub(crate) fn with_room(alloc: Global, vertices: u32, edges: usize) -> Result<Graph, AllocError>
        requires { vertices ≤ 2 ^ 22 }
        ensures { IfOk result (λ graph. graph ≡ record { vertices = vertices; edges = [] }) }
    {
        Ok(Graph {
            vertices,
            edges: Vec::with_capacity(alloc, edges)?,
        })
    }

    // Adds an edge after the others.
    pub(crate) fn push(&mut self, edge: Edge) -> Result<(), AllocError>
        requires edge { IsEdge self.old.vertices edge }
        requires room { length self.old.edges < 2 ^ 23 }
        ensures pushed { OnOk result (self.new ≡
            record self.old { edges = self.old.edges ++ edge ∷ [] }) }
        ensures kept { OnErr result (self.new ≡ self.old) }
    {
        self.edges.push(edge)?;
        Ok(())
    }

    /// The number of vertices, at most 2^22.
    pub fn vertices(&self) -> u32
        ensures count { result ≡ self.now.vertices }
        ensures graph { IsGraph self.now }
    {
        self.vertices
    }

    /// The number of edges, at most 2^23.
    pub fn edges(&self) -> u32
        ensures count { result ≡ length self.now.edges }
        ensures graph { IsGraph self.now }
    {
        self.edges.len() as u32
    }

    /// Edge i, counted from 0.
    pub fn edge(&self, i: u32) -> Edge
        requires { i < length self.now.edges }
        ensures edge { result ≡ slice_index_or self.now.edges i result }
        ensures joins { IsEdge self.now.vertices result }
    {
        self.edges[i as usize]
    }
}
