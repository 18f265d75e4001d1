ghost use Rattle.std.specs.Prelude.{◌≡◌, ◌<◌, ◌≤◌, ◌+◌, ◌-◌, ◌*◌, ◌^◌, length, IsTrue, IfOk, OnOk};
ghost use Rattle.graph_read.specs.Graphs.{IsEdge};
ghost use Rattle.graph_read.specs.Grids.{AddsEdges, IsPlace, IsSide, edge_where, edges_from, grid_of, row_edges};

use crate::{Edge, Graph};
use std::alloc::{AllocError, Global};

impl Graph {
    /// The square grid with `side` rows and columns, from 1 to 2048. The vertex in row r and
    /// column c, both from 1, is (r - 1) * side + c. The edges are in the order of their lower
    /// vertices. For each of these the edge to the right neighbour is first, then the edge to the
    /// one below, if they exist. All weights are 1.
    pub fn grid(alloc: Global, side: u32) -> Result<Graph, AllocError>
        requires { IsSide side }
        ensures { IfOk result (λ graph. graph ≡ grid_of side) }
    {
        let mut graph = Graph::without_edges(alloc, side * side);
        for row in 0..side {
            add_row(&mut graph, side, row + 1)?;
        }
        Ok(graph)
    }
}

// Adds an edge of weight 1, if it exists.
fn add_where(graph: &mut Graph, there: bool, u: u32, v: u32) -> Result<(), AllocError>
    requires edge { IsTrue there → IsEdge graph.old.vertices (record { u = u; v = v; weight = 1 }) }
    requires room { length graph.old.edges < 2 ^ 23 }
    ensures { OnOk result (AddsEdges graph.old graph.new (edge_where there u v)) }
{
    if there {
        graph.push(Edge { u, v, weight: 1 })?;
    }
    Ok(())
}

// Adds the edges from a vertex to higher ones, after those of the vertices before it.
fn add_edges_from(graph: &mut Graph, side: u32, row: u32, column: u32) -> Result<(), AllocError>
    requires side { IsSide side }
    requires place { IsPlace side row column }
    requires vertices { graph.old.vertices ≡ side * side }
    requires few { length graph.old.edges ≤ 2 * ((row - 1) * side + (column - 1)) }
    ensures { OnOk result (AddsEdges graph.old graph.new (edges_from side row column)) }
{
    let vertex = (row - 1) * side + column;
    add_where(graph, column < side, vertex, vertex + 1)?;
    add_where(graph, row < side, vertex, vertex + side)
}

// Adds the edges from the vertices of a row to higher ones, after those of the rows before it.
fn add_row(graph: &mut Graph, side: u32, row: u32) -> Result<(), AllocError>
    requires side { IsSide side }
    requires row { (1 ≤ row) × (row ≤ side) }
    requires vertices { graph.old.vertices ≡ side * side }
    requires few { length graph.old.edges ≤ 2 * ((row - 1) * side) }
    ensures { OnOk result (AddsEdges graph.old graph.new (row_edges side row)) }
{
    for column in 0..side {
        add_edges_from(graph, side, row, column + 1)?;
    }
    Ok(())
}
