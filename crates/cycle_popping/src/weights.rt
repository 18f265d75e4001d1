ghost use Rattle.std.specs.Prelude.{◌≡◌, ◌↔◌, All, IfOk, IsTrue};
ghost use Rattle.graph_read.specs.Graphs.{IsVertex};
ghost use Rattle.graph_read.specs.Paths.{IsConnected};
ghost use Rattle.cycle_popping.specs.Trees.{weights_of_tree};

use graph_read::{Adjacency, Graph, OtherEnds, vertex_of};
use pop_rows::RowList;
use pop_stacks::{Rows, Weights};
use std::alloc::{AllocError, Global};

/// The weights of the arrows of the spanning trees that lead to a root. The weight of a slot is
/// that of its edge. Variables, slots and the condition are those of `arrows`. Time and memory are
/// linear in the vertices and edges.
pub fn arrow_weights(alloc: Global, graph: &Graph, root: u32) -> Result<Weights, AllocError>
    requires root { IsVertex graph.now.vertices root }
    requires joined { IsConnected graph.now root }
    ensures { IfOk result (λ weights. weights ≡ weights_of_tree graph.now root) }
{
    let ends = OtherEnds::of(alloc, graph)?;
    weights_of(alloc, &ends, root)
}

/// The weights of the arrows of a graph, given by the other ends of its edges. They are those of
/// `arrow_weights`.
pub fn weights_of(alloc: Global, ends: &OtherEnds, root: u32) -> Result<Weights, AllocError>
    requires root { IsVertex ends.now.vertices root }
    requires joined { IsConnected ends.now root }
    ensures { IfOk result (λ weights. weights ≡ weights_of_tree ends.now root) }
{
    if all_weigh_one(ends.graph()) {
        return ones_of(alloc, ends, root);
    }
    numbers_of(alloc, ends, root)
}

// Whether each edge has weight 1.
fn all_weigh_one(graph: &Graph) -> bool
    ensures { IsTrue result ↔ All (λ e. e.weight ≡ 1) graph.now.edges }
{
    for i in 0..graph.edges() {
        if graph.edge(i).weight != 1 {
            return false;
        }
    }
    true
}

/// The weights of the arrows if each edge has weight 1. They are not stored slot by slot.
pub(crate) fn ones_of<A: Adjacency>(
    alloc: Global,
    adjacency: &A,
    root: u32,
) -> Result<Weights, AllocError>
    requires root { IsVertex (A.of_graph adjacency.now).vertices root }
    requires joined { IsConnected (A.of_graph adjacency.now) root }
    requires ones { All (λ e. e.weight ≡ 1) (A.of_graph adjacency.now).edges }
    ensures { IfOk result
        (λ weights. weights ≡ weights_of_tree (A.of_graph adjacency.now) root) }
{
    let count = adjacency.vertices() - 1;
    let mut lengths = Vec::with_capacity(alloc, count as usize)?;
    for v in 0..count {
        lengths.push(adjacency.degree(vertex_of(root, v)))?;
    }
    let ones = Rows::ones(alloc, lengths)?;
    Ok(Weights::of(ones))
}

// The weights of the arrows, each of them stored.
fn numbers_of(alloc: Global, ends: &OtherEnds, root: u32) -> Result<Weights, AllocError>
    requires root { IsVertex ends.now.vertices root }
    requires joined { IsConnected ends.now root }
    ensures { IfOk result (λ weights. weights ≡ weights_of_tree ends.now root) }
{
    let weights = ends.weights(alloc)?;
    let count = ends.vertices() - 1;
    let mut rows = RowList::with_room(alloc, count as usize, ends.ends())?;
    for v in 0..count {
        rows.push_row(weights.row(vertex_of(root, v) - 1))?;
    }
    Ok(Weights::of(Rows::flat(rows)))
}
