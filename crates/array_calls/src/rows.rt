//! Rows of the vertices of a tree, in one array.
ghost use Rattle.std.specs.Prelude.{◌≡◌, ◌≢◌, ℕ, ◌+◌, ◌-◌, ◌<◌, ◌≤◌, ◌^◌, length, slice_index};
ghost use Rattle.graph_read.specs.Graphs.{IsVertex};
ghost use Rattle.graph_read.specs.Incidence.{edges_at};
ghost use Rattle.array_calls.specs.Rows.{PutsRow, PutsWanted};
ghost use Rattle.array_calls.specs.Trees.{HaveSlots, edge_number, parent, used, variable_at};

use graph_read::{Incidence, OtherEnds};
use pop_instance::{Cursors, Values};

// The number for no vertex and for no edge.
const NOTHING: u32 = u32::MAX;

// The variable of a vertex other than the root.
fn variable_of(root: u32, vertex: u32) -> u32
    requires first { 1 ≤ vertex }
    requires root { 1 ≤ root }
    requires other { vertex ≢ root }
    ensures { result ≡ variable_at root vertex }
{
    if vertex < root {
        vertex - 1
    } else {
        vertex - 2
    }
}

// The head of the arrow of a vertex.
fn parent_of(ends: &OtherEnds, root: u32, slots: &Values, vertex: u32) -> u32
    requires root { IsVertex ends.now.vertices root }
    requires vertex { IsVertex ends.now.vertices vertex }
    requires slots { HaveSlots ends.now root slots.now }
    ensures { result ≡ parent ends.now root slots.now vertex }
{
    if vertex == root {
        return NOTHING;
    }
    // Read for its contract, which says that the ends of edges are vertices.
    let _edges = ends.graph().edges();
    let slot = slots.get(variable_of(root, vertex));
    ends.at(vertex)[slot as usize] - 1
}

// The edge of the arrow of a vertex.
fn edge_of(incidence: &Incidence, root: u32, slots: &Values, vertex: u32) -> u32
    requires root { IsVertex incidence.now.vertices root }
    requires vertex { IsVertex incidence.now.vertices vertex }
    requires slots { HaveSlots incidence.now root slots.now }
    ensures { result ≡ edge_number incidence.now root slots.now vertex }
{
    if vertex == root {
        return NOTHING;
    }
    let slot = slots.get(variable_of(root, vertex));
    incidence.at(vertex)[slot as usize] / 2
}

// The number of entries of a vertex that were consumed.
fn used_of(root: u32, cursors: &Cursors, vertex: u32) -> u32
    requires root { 1 ≤ root }
    requires vertex { IsVertex (length cursors.now + 1) vertex }
    requires root_last { root ≤ length cursors.now + 1 }
    ensures { result ≡ used root cursors.now vertex }
{
    if vertex == root {
        return 0;
    }
    cursors.get(variable_of(root, vertex))
}

/// Stores the heads of the arrows of all vertices.
pub fn put_parents(ends: &OtherEnds, root: u32, slots: &Values, numbers: &mut [u32], at: usize)
    requires root { IsVertex ends.now.vertices root }
    requires slots { HaveSlots ends.now root slots.now }
    requires room { at + ends.now.vertices ≤ length numbers.old }
    ensures { PutsRow at ends.now.vertices (parent ends.now root slots.now) numbers.old numbers.new }
{
    for k in 0..ends.graph().vertices() {
        numbers[at + k as usize] = parent_of(ends, root, slots, k + 1);
    }
}

/// Stores the edges of the arrows of all vertices.
pub fn put_edges(incidence: &Incidence, root: u32, slots: &Values, numbers: &mut [u32], at: usize)
    requires root { IsVertex incidence.now.vertices root }
    requires slots { HaveSlots incidence.now root slots.now }
    requires room { at + incidence.now.vertices ≤ length numbers.old }
    ensures { PutsRow at incidence.now.vertices (edge_number incidence.now root slots.now)
        numbers.old numbers.new }
{
    for k in 0..incidence.graph().vertices() {
        numbers[at + k as usize] = edge_of(incidence, root, slots, k + 1);
    }
}

/// Stores the numbers of entries of all vertices that were consumed.
pub fn put_used(vertices: u32, root: u32, cursors: &Cursors, numbers: &mut [u32], at: usize)
    requires root { IsVertex vertices root }
    requires few { vertices ≤ 2 ^ 22 }
    requires count { length cursors.now + 1 ≡ vertices }
    requires room { at + vertices ≤ length numbers.old }
    ensures { PutsRow at vertices (used root cursors.now) numbers.old numbers.new }
{
    for k in 0..vertices {
        numbers[at + k as usize] = used_of(root, cursors, k + 1);
    }
}
