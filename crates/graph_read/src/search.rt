ghost use Rattle.std.specs.Prelude.{◌≡◌, ◌≤◌, ℕ, not, length, position, OnOk, IfOk};
ghost use Rattle.graph_read.specs.Graphs.{IsVertex};
ghost use Rattle.graph_read.specs.Paths.{IsFirstCutOff, IsJoined};
ghost use Rattle.graph_read.specs.Search.{AreJoined, Goes, HasVisited, IsMet, IsSearch};

use crate::{Graph, OtherEnds};
use std::alloc::{AllocError, Global};

/// The vertices that a search has reached.
#[derive(Drop)]
pub struct Search {
    /// For each vertex, from vertex 1 on, whether the search has reached it.
    pub met: Vec<bool>,
    /// The vertices that were reached, in order.
    pub found: Vec<u32>,
}

impl Search {
    ghost use Rattle.graph_read.specs.Graphs.{GraphOf, IsVertex};
    ghost use Rattle.graph_read.specs.Paths.{IsJoined};
    ghost use Rattle.graph_read.specs.Search.{Goes, HasVisited, IsMet, IsSearch};

    // No vertex was reached yet.
    fn new(alloc: Global, vertices: u32) -> Result<Search, AllocError>
        ensures { IfOk result (λ search. (g : GraphOf) → g.vertices ≡ vertices
            → (root : ℕ) → IsSearch g root search) }
    {
        Ok(Search {
            met: vec![in alloc; false; vertices as usize]?,
            found: Vec::new(alloc),
        })
    }

    // Reaches a vertex.
    fn meet(&mut self, vertex: u32) -> Result<(), AllocError>
        requires first { 1 ≤ vertex }
        requires last { vertex ≤ length self.old.met.items }
        ensures here { OnOk result (IsMet self.new.met.items vertex) }
        ensures goes { OnOk result (Goes self.old self.new) }
        ensures search { OnOk result ((g : GraphOf) (root : ℕ) → IsSearch g root self.old
            → IsJoined g root vertex → IsSearch g root self.new) }
    {
        let place = vertex as usize - 1;
        if !self.met[place] {
            self.found.push(vertex)?;
            self.met[place] = true;
        }
        Ok(())
    }
}

// Reaches the neighbours of a vertex.
fn visit(search: &mut Search, ends: &OtherEnds, vertex: u32) -> Result<(), AllocError>
    requires vertex { IsVertex ends.now.vertices vertex }
    requires size { length search.old.met.items ≡ ends.now.vertices }
    requires met { IsMet search.old.met.items vertex }
    ensures goes { OnOk result (Goes search.old search.new) }
    ensures visited { OnOk result (HasVisited ends.now search.new vertex) }
    ensures search { OnOk result ((root : ℕ) → IsSearch ends.now root search.old
        → IsSearch ends.now root search.new) }
{
    // Read for its contract, which says that the ends of edges are vertices.
    let _edges = ends.graph().edges();
    for w in ends.at(vertex) {
        search.meet(*w)?;
    }
    Ok(())
}

// For each vertex, from vertex 1 on, whether a path joins it to the root.
fn reach(alloc: Global, ends: &OtherEnds, root: u32) -> Result<Vec<bool>, AllocError>
    requires root { IsVertex ends.now.vertices root }
    ensures { IfOk result (λ met. AreJoined ends.now root met.items) }
{
    let mut search = Search::new(alloc, ends.graph().vertices())?;
    search.meet(root)?;
    let mut at = 0;
    while at < search.found.len() {
        let vertex = search.found[at];
        visit(&mut search, ends, vertex)?;
        at += 1;
    }
    let Search { met, found: _ } = search;
    Ok(met)
}

fn first_unmet(met: &[bool]) -> Option<usize>
    ensures { result ≡ position not met.now }
{
    met.iter().position(|met| !*met)
}

impl<'g> OtherEnds<'g> {
    /// The lowest vertex that is not connected to the root, or None if all are. The root must be a
    /// vertex.
    pub fn first_cut_off(&self, alloc: Global, root: u32) -> Result<Option<u32>, AllocError>
        requires { IsVertex self.now.vertices root }
        ensures { IfOk result (IsFirstCutOff self.now root) }
    {
        // Read for its contract, which says that there are at most 2^22 vertices.
        let _vertices = self.graph().vertices();
        let met = reach(alloc, self, root)?;
        match first_unmet(&met) {
            None => Ok(None),
            Some(place) => Ok(Some(place as u32 + 1)),
        }
    }
}

/// The lowest vertex that is not connected to the root, or None if all are. The root must be a
/// vertex. Time and memory are linear in the vertices and edges.
pub fn first_cut_off(alloc: Global, graph: &Graph, root: u32) -> Result<Option<u32>, AllocError>
    requires { IsVertex graph.now.vertices root }
    ensures { IfOk result (IsFirstCutOff graph.now root) }
{
    OtherEnds::of(alloc, graph)?.first_cut_off(alloc, root)
}
