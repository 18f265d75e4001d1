ghost use Rattle.std.specs.Prelude.{◌≡◌, IfOk};
ghost use Rattle.graph_read.specs.Graphs.{IsVertex};
ghost use Rattle.graph_read.specs.Incidence.{darts_at};

use crate::Graph;
use crate::end_rows::rows_of;
use crate::put::Put;
use pop_rows::FlatRows;
use std::alloc::{AllocError, Global};
use std::marker::Model;

/// A graph with, for each of its vertices, the darts at it, rising, without self-loops. A dart is
/// a half-edge. Edge i, counted from 0, has dart 2 i at its end v and dart 2 i + 1 at its end u.
/// So a dart says at which end of its edge the vertex is, without a look at the edge. Contracts
/// see the graph.
#[derive(Drop)]
pub struct Incidence<'g> {
    graph: &'g Graph,
    // The darts at vertex w are in row w - 1.
    rows: FlatRows,
}

impl<'g> Model for Incidence<'g> {
    ghost use Rattle.std.specs.Prelude.{◌≡◌};
    ghost use Rattle.graph_read.specs.Graphs.{GraphOf};
    ghost use Rattle.graph_read.specs.Incidence.{dart_at, rows_by};

    ghost Value = { GraphOf };

    ghost view = { λ a. a.graph.now };

    ghost invariant = { λ a. a.rows.rows ≡ rows_by dart_at a.graph.now };
}

impl<'g> Incidence<'g> {
    /// The incidence of a graph. Time and memory are linear in the vertices and edges.
    pub fn of(alloc: Global, graph: &'g Graph) -> Result<Incidence<'g>, AllocError>
        ensures { IfOk result (λ incidence. incidence ≡ graph.now) }
    {
        let rows = rows_of(alloc, graph, Put::Dart)?;
        Ok(Incidence { graph, rows })
    }

    /// The graph.
    pub fn graph(&self) -> &Graph
        ensures { result.now ≡ self.now }
    {
        self.graph
    }

    /// The darts at a vertex, which counts from 1.
    pub fn at(&self, vertex: u32) -> &[u32]
        requires { IsVertex self.now.vertices vertex }
        ensures { result.now ≡ darts_at self.now vertex }
    {
        self.rows.row(vertex - 1)
    }
}
