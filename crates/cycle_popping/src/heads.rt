ghost use Rattle.std.specs.Prelude.{◌≡◌, ◌≤◌, map, All, IfOk, OnOk};
ghost use Rattle.std.specs.Option.{unwrap_or};
ghost use Rattle.graph_read.specs.Graphs.{IsVertex};
ghost use Rattle.graph_read.specs.Paths.{IsConnected};
ghost use Rattle.cycle_popping.specs.Trees.{heads_of_tree, variable_of as variable_in};

use crate::names::variable_of;
use graph_read::{Adjacency, Graph, OtherEnds, vertex_of};
use pop_instance::Arrows;
use pop_rows::RowList;
use std::alloc::{AllocError, Global};

/// The arrows of the spanning trees that lead to a root. The variables are the vertices without
/// the root, rising. The slots of a variable are the edges at its vertex, without self-loops, in
/// the order of the graph; each leads to the other end. Each vertex must be connected to the root.
/// Time and memory are linear in the vertices and edges.
pub fn arrows(alloc: Global, graph: &Graph, root: u32) -> Result<Arrows, AllocError>
    requires root { IsVertex graph.now.vertices root }
    requires joined { IsConnected graph.now root }
    ensures { IfOk result (λ arrows. arrows ≡ heads_of_tree graph.now root) }
{
    let ends = OtherEnds::of(alloc, graph)?;
    arrows_of(alloc, &ends, root)
}

/// The arrows of a graph, given by the edges at each vertex. They are those of `arrows`.
pub fn arrows_of<A: Adjacency>(
    alloc: Global,
    adjacency: &A,
    root: u32,
) -> Result<Arrows, AllocError>
    requires root { IsVertex (A.of_graph adjacency.now).vertices root }
    requires joined { IsConnected (A.of_graph adjacency.now) root }
    ensures { IfOk result (λ arrows. arrows ≡ heads_of_tree (A.of_graph adjacency.now) root) }
{
    let count = adjacency.vertices() - 1;
    let mut rows = RowList::with_room(alloc, count as usize, adjacency.ends())?;

    // Two lists are reused for each variable in turn.
    let mut neighbours = Vec::new(alloc);
    let mut heads = Vec::new(alloc);
    for v in 0..count {
        adjacency.put_neighbours(&mut neighbours, vertex_of(root, v))?;
        fill_heads(&mut heads, &neighbours, root, count)?;
        rows.push_row(&heads)?;
    }
    let Some(arrows) = Arrows::flat(rows) else {
        unreachable!()
    };
    Ok(arrows)
}

// Replaces the contents of a list by the numbers of vertices as heads: this number for the root,
// and its variable for any other vertex.
fn fill_heads(
    heads: &mut Vec<u32>,
    vertices: &[u32],
    root: u32,
    root_number: u32,
) -> Result<(), AllocError>
    requires root { 1 ≤ root }
    requires vertices { All (λ w. 1 ≤ w) vertices.now }
    ensures { OnOk result
        (heads.new.items ≡ map (λ w. unwrap_or (variable_in root w) root_number) vertices.now) }
{
    heads.clear();
    for w in vertices {
        heads.push(variable_of(root, *w).unwrap_or(root_number))?;
    }
    Ok(())
}
