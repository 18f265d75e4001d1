//! Trees of a graph that is given as arrays.
ghost use Rattle.std.specs.Prelude.{◌≡◌, ◌≢◌, ◌⊎◌, ◌+◌, ◌-◌, ◌*◌, ◌/◌, ◌<◌, ◌≤◌, ◌^◌, [], length, slice_index, slice_set, OnOk, IfOk, IfErr, MatchOption};
ghost use Rattle.graph_read.specs.Graphs.{IsVertex};
ghost use Rattle.graph_read.specs.Ends.{graph_in};
ghost use Rattle.pop_batch.specs.Parts.{CanStart};
ghost use Rattle.array_calls.specs.declared.refusal.ArrayRefusal.TheVariants.{OutOfMemory};
ghost use Rattle.array_calls.specs.Refused.{IsRefusal, RefusesTreeArrays};
ghost use Rattle.array_calls.specs.Rows.{PutsRow, PutsWanted};
ghost use Rattle.array_calls.specs.Draws.{IsOutcome, given, stopped_at};
ghost use Rattle.array_calls.specs.Trees.{AreTreesOf, FitFrom, FitRows, HaveSlots, LeavesTrees, WantsStops, edge_number, parent, tree_arrays, trees_under, used, without_root};

use crate::counts::{given, less, outcome_of, put_counts};
use crate::draw::Draw;
use crate::instances::tree_instance;
use crate::outcome::Outcome;
use crate::refusal::ArrayRefusal;
use crate::rows::{put_edges, put_parents, put_used};
use confluence_core::End;
use graph_read::{Graph, Incidence, OtherEnds, graph_of_ends, vertex_of};
use pop_batch::Samples;
use pop_instance::{Cursors, Instance, Values};
use std::alloc::{AllocError, Global};

/// A graph as arrays, and the root of its trees. Vertices count from 0.
#[derive(Clone, Copy)]
pub struct TreeGraph<'a> {
    pub vertices: u32,
    /// The two ends of each edge.
    pub ends: &'a [u32],
    /// The weight of each edge. If there are none, each weight is 1.
    pub weights: &'a [u32],
    pub root: u32,
}

// The edges at each vertex, if the edges of trees are wanted.
fn incidence_where<'g>(
    alloc: Global,
    graph: &'g Graph,
    edges: &[u32],
) -> Result<Option<Incidence<'g>>, AllocError>
    ensures { IfOk result (λ found. MatchOption found (length edges.now ≡ 0)
        (λ incidence. (incidence ≡ graph.now) × (0 < length edges.now))) }
{
    if edges.is_empty() {
        return Ok(None);
    }
    Ok(Some(Incidence::of(alloc, graph)?))
}

// Stores the edges of the arrows, if they are wanted.
fn put_wanted_edges(
    ends: &OtherEnds,
    incidence: &Option<Incidence>,
    root: u32,
    slots: &Values,
    edges: &mut [u32],
    at: usize,
)
    requires root { IsVertex ends.now.vertices root }
    requires slots { HaveSlots ends.now root slots.now }
    requires wanted { MatchOption incidence.now (length edges.old ≡ 0)
        (λ x. (x ≡ ends.now) × (at + ends.now.vertices ≤ length edges.old)) }
    ensures { PutsWanted at ends.now.vertices (edge_number ends.now root slots.now)
        edges.old edges.new }
{
    if let Some(incidence) = incidence {
        put_edges(incidence, root, slots, edges, at);
    }
}

// Stores how many entries were consumed, if it is wanted.
fn put_wanted_used(ends: &OtherEnds, root: u32, cursors: &Cursors, numbers: &mut [u32], at: usize)
    requires root { IsVertex ends.now.vertices root }
    requires count { length cursors.now + 1 ≡ ends.now.vertices }
    requires room { (length numbers.old ≡ 0) ⊎ (at + ends.now.vertices ≤ length numbers.old) }
    ensures { PutsWanted at ends.now.vertices (used root cursors.now) numbers.old numbers.new }
{
    if !numbers.is_empty() {
        put_used(ends.graph().vertices(), root, cursors, numbers, at);
    }
}

// Stores the end of a sample in its row of each array.
fn put_end(
    ends: &OtherEnds,
    incidence: &Option<Incidence>,
    root: u32,
    end: &End,
    j: usize,
    parents: &mut [u32],
    edges: &mut [u32],
    useds: &mut [u32],
    counts: &mut [u64],
)
    requires root { IsVertex ends.now.vertices root }
    requires slots { HaveSlots ends.now root end.now.values }
    requires cursors { length end.now.cursors + 1 ≡ ends.now.vertices }
    requires parents { j * ends.now.vertices + ends.now.vertices ≤ length parents.old }
    requires edges { MatchOption incidence.now (length edges.old ≡ 0) (λ x. (x ≡ ends.now)
        × (j * ends.now.vertices + ends.now.vertices ≤ length edges.old)) }
    requires useds { (length useds.old ≡ 0)
        ⊎ (j * ends.now.vertices + ends.now.vertices ≤ length useds.old) }
    requires counts { 2 * j + 1 < length counts.old }
    ensures parents { PutsRow (j * ends.now.vertices) ends.now.vertices
        (parent ends.now root end.now.values) parents.old parents.new }
    ensures edges { PutsWanted (j * ends.now.vertices) ends.now.vertices
        (edge_number ends.now root end.now.values) edges.old edges.new }
    ensures useds { PutsWanted (j * ends.now.vertices) ends.now.vertices
        (used root end.now.cursors) useds.old useds.new }
    ensures counts { counts.new ≡ slice_set (slice_set counts.old (2 * j) end.now.pops)
        (2 * j + 1) (length end.now.stuck) }
{
    let at = j * ends.graph().vertices() as usize;
    put_parents(ends, root, &end.values, parents, at);
    put_wanted_edges(ends, incidence, root, &end.values, edges, at);
    put_wanted_used(ends, root, &end.cursors, useds, at);
    put_counts(end.pops, end.stuck.len(), j, counts);
}

// Stores the state at which a sample was stopped in its row of cursors and of counts.
fn put_stop(
    ends: &OtherEnds,
    root: u32,
    stop: &End,
    j: usize,
    useds: &mut [u32],
    counts: &mut [u64],
)
    requires root { IsVertex ends.now.vertices root }
    requires cursors { length stop.now.cursors + 1 ≡ ends.now.vertices }
    requires useds { j * ends.now.vertices + ends.now.vertices ≤ length useds.old }
    requires counts { 2 * j + 1 < length counts.old }
    ensures useds { PutsRow (j * ends.now.vertices) ends.now.vertices
        (used root stop.now.cursors) useds.old useds.new }
    ensures counts { counts.new ≡ slice_set (slice_set counts.old (2 * j) stop.now.pops)
        (2 * j + 1) (length stop.now.stuck) }
{
    let vertices = ends.graph().vertices();
    put_used(vertices, root, &stop.cursors, useds, j * vertices as usize);
    put_counts(stop.pops, stop.stuck.len(), j, counts);
}

// The cursors of a tree's variables, from those of all vertices.
fn without_root(alloc: Global, root: u32, from: &[u32]) -> Result<Vec<u32>, AllocError>
    requires root { from.now ≢ [] → IsVertex (length from.now) root }
    requires few { length from.now ≤ 2 ^ 22 }
    ensures { IfOk result (λ cursors. cursors.items ≡ without_root root from.now) }
{
    let mut cursors = Vec::new(alloc);
    if from.is_empty() {
        return Ok(cursors);
    }
    for v in 0..from.len() as u32 - 1 {
        cursors.push(from[vertex_of(root, v) as usize - 1])?;
    }
    Ok(cursors)
}

// Draws samples into the rows of the arrays, as many as there are pairs of counts, until the
// budget is spent. Returns the row at which it was spent.
fn put_samples(
    alloc: Global,
    ends: &OtherEnds,
    incidence: &Option<Incidence>,
    root: u32,
    samples: &Samples,
    first: u32,
    from: &[u32],
    budget: u64,
    parents: &mut [u32],
    edges: &mut [u32],
    useds: &mut [u32],
    counts: &mut [u64],
) -> Result<Option<usize>, AllocError>
    requires root { IsVertex ends.now.vertices root }
    requires trees { AreTreesOf ends.now root samples.now }
    requires last { first + length counts.old / 2 ≤ 2 ^ 32 }
    requires start { CanStart samples.now (given from.now 0) }
    requires rows { FitRows ends.now.vertices (length counts.old / 2) parents.old edges.old
        useds.old }
    requires stops { WantsStops budget ends.now.vertices (length counts.old / 2) useds.old }
    requires wanted { MatchOption incidence.now (length edges.old ≡ 0)
        (λ x. (x ≡ ends.now) × (0 < length edges.old)) }
    ensures leaves { IfOk result (LeavesTrees samples.now ends.now root first from.now budget
        (length counts.old / 2) (tree_arrays parents.old edges.old useds.old counts.old)
        (tree_arrays parents.new edges.new useds.new counts.new)) }
    ensures size { OnOk result (length counts.new ≡ length counts.old) }
{
    let mut left = budget;
    for j in 0..counts.len() / 2 {
        let start = given(alloc, from, j)?;
        let part = samples.run_part(alloc, first + j as u32, start, left)?;
        if part.is_open {
            put_stop(ends, root, &part.at, j, useds, counts);
            return Ok(Some(j));
        }
        put_end(
            ends, incidence, root, &part.at, j, parents, edges, useds, counts,
        );
        left = less(left, part.at.pops);
    }
    Ok(None)
}

// Like `put_samples`, for an instance of trees, with the cursors of all vertices.
fn put_instance(
    alloc: Global,
    ends: &OtherEnds,
    root: u32,
    instance: &Instance,
    draw: Draw,
    parents: &mut [u32],
    edges: &mut [u32],
    useds: &mut [u32],
    counts: &mut [u64],
) -> Result<Option<usize>, AllocError>
    requires root { IsVertex ends.now.vertices root }
    requires trees { instance.now ≡ trees_under draw.key draw.height ends.now root }
    requires last { draw.first + length counts.old / 2 ≤ 2 ^ 32 }
    requires from { FitFrom ends.now.vertices draw.height draw.from.now }
    requires rows { FitRows ends.now.vertices (length counts.old / 2) parents.old edges.old
        useds.old }
    requires stops { WantsStops draw.budget ends.now.vertices (length counts.old / 2) useds.old }
    ensures leaves { IfOk result (LeavesTrees instance.now ends.now root draw.entry.first
        (without_root root draw.entry.from.now) draw.entry.budget (length counts.old / 2)
        (tree_arrays parents.old edges.old useds.old counts.old)
        (tree_arrays parents.new edges.new useds.new counts.new)) }
    ensures size { OnOk result (length counts.new ≡ length counts.old) }
{
    // Read for its contract, which bounds the number of vertices.
    let _vertices = ends.graph().vertices();
    let from = without_root(alloc, root, draw.from)?;
    let incidence = incidence_where(alloc, ends.graph(), edges)?;
    let samples = Samples::of(alloc, instance)?;
    put_samples(
        alloc,
        ends,
        &incidence,
        root,
        &samples,
        draw.first,
        &from,
        draw.budget,
        parents,
        edges,
        useds,
        counts,
    )
}

/// Draws trees of the graph in arrays, as many as there are pairs of counts. They are those of the
/// samples from the first number on, and are stored in the rows of the arrays.
///
/// A row has a number for each vertex:
///
/// - in `parents` the vertex that its arrow leads to, or 2^32 - 1 at the root;
/// - in `edges` the edge of its arrow, or 2^32 - 1 at the root;
/// - in `useds` the number of its entries that were consumed, or 0 at the root.
///
/// An array of length 0 is not filled. A pair of counts has the number of pops and the number of
/// cycles that occur, which is 0 for a tree.
///
/// With a budget the call may stop at a row. That row of `useds` has its cursors, and another call
/// can continue from them to the same trees. Its counts are those of the pops so far and of the
/// cycles that occur there. The rows of `parents` and `edges` at that place, and everything after
/// it, stay unchanged.
pub fn trees(
    alloc: Global,
    asked: TreeGraph,
    draw: Draw,
    parents: &mut [u32],
    edges: &mut [u32],
    useds: &mut [u32],
    counts: &mut [u64],
) -> Result<Outcome, ArrayRefusal>
    requires some { 0 < draw.height }
    requires short { draw.height < 2 ^ 31 }
    requires last { draw.first + length counts.old / 2 ≤ 2 ^ 32 }
    requires from { FitFrom asked.vertices draw.height draw.from.now }
    requires rows { FitRows asked.vertices (length counts.old / 2) parents.old edges.old useds.old }
    requires stops { WantsStops draw.budget asked.vertices (length counts.old / 2) useds.old }
    ensures leaves { IfOk result (λ outcome. LeavesTrees
        (trees_under draw.entry.key draw.entry.height
        (graph_in asked.entry.vertices asked.entry.ends.now asked.entry.weights.now)
        (asked.entry.root + 1))
        (graph_in asked.entry.vertices asked.entry.ends.now asked.entry.weights.now)
        (asked.entry.root + 1) draw.entry.first
        (without_root (asked.entry.root + 1) draw.entry.from.now) draw.entry.budget
        (length counts.old / 2) (tree_arrays parents.old edges.old useds.old counts.old)
        (tree_arrays parents.new edges.new useds.new counts.new) (stopped_at outcome)) }
    ensures outcome { IfOk result (IsOutcome counts.new) }
    ensures size { OnOk result (length counts.new ≡ length counts.old) }
    ensures refused { IfErr result (IsRefusal
        (RefusesTreeArrays asked.entry.vertices asked.entry.ends.now asked.entry.weights.now
        asked.entry.root)) }
    // After an error, except out of memory, the arrays are as they were.
    ensures kept { IfErr result (λ refusal. refusal ≢ OutOfMemory
        → (parents.new ≡ parents.old) × (edges.new ≡ edges.old) × (useds.new ≡ useds.old)
        × (counts.new ≡ counts.old)) }
{
    let graph = graph_of_ends(alloc, asked.vertices, asked.ends, asked.weights)?;
    if asked.root >= asked.vertices {
        return Err(ArrayRefusal::NoRoot);
    }
    let root = asked.root + 1;
    let ends = OtherEnds::of(alloc, &graph)?;
    let instance = tree_instance(alloc, &ends, root, draw.key, draw.height)?;
    let stopped = put_instance(
        alloc, &ends, root, &instance, draw, parents, edges, useds, counts,
    )?;
    Ok(outcome_of(stopped, counts))
}
