//! Trees of graphs: their arrows and weights, and the ends of their runs.
ghost use Rattle.std.specs.Prelude.{◌≡◌, ◌<◌, ◌^◌, length};
ghost use Rattle.pop_model.specs.Stacks.{variables_of};
ghost use Rattle.graph_read.specs.Graphs.{IsVertex};
ghost use Rattle.graph_read.specs.Paths.{IsConnected};
ghost use Rattle.cycle_popping.specs.Walks.{AreCycles};

use crate::comparing::{is_so, same};
use crate::sources::graph;
use confluence_core::{End, Stuck, run_first};
use cycle_popping::{arrow_weights, arrows, run_walks};
use graph_read::{Graph, first_cut_off};
use pop_instance::{Arrows, Family, Instance};
use pop_stacks::{Reader, Rows, StackSpec, Stacks};
use std::alloc::Global;
use std::process::Abort;
use test_instances::{has_cursors, rows};

mod draws;
mod grids;
mod multigraphs;

// Ends the test if a vertex is not connected to the root, or if the root is not a vertex.
fn expect_joined(rt: &impl Abort, alloc: Global, graph: &Graph, root: u32)
    ensures root { IsVertex graph.now.vertices root }
    ensures joined { IsConnected graph.now root }
{
    assert!(rt; 1 <= root);
    assert!(rt; root <= graph.vertices());
    let cut_off = first_cut_off(alloc, graph, root).expect(rt, "memory");
    assert!(rt; cut_off.is_none());
}

// The stacks of the arrows to a root, from this source. If it is a key, they have this height.
fn stacks_of(
    rt: &impl Abort,
    alloc: Global,
    graph: &Graph,
    root: u32,
    spec: StackSpec,
    height: u32,
) -> Stacks
    requires root { IsVertex graph.now.vertices root }
    requires joined { IsConnected graph.now root }
    requires some { 0 < height }
    requires short { height < 2 ^ 31 }
{
    let weights = arrow_weights(alloc, graph, root).expect(rt, "memory");
    Stacks::new(spec, weights, height).expect(rt, "stacks")
}

// The instance of these stacks and the cycles of these arrows.
fn cycles_of(rt: &impl Abort, stacks: Stacks, arrows: Arrows) -> Instance
    ensures { AreCycles result.family }
{
    Instance::new(stacks, Family::Cycles(arrows)).expect(rt, "an instance")
}

// The trees of a graph to a root, over these stacks.
fn trees_of(rt: &impl Abort, alloc: Global, graph: &Graph, root: u32, stacks: Stacks) -> Instance
    requires root { IsVertex graph.now.vertices root }
    requires joined { IsConnected graph.now root }
    ensures { AreCycles result.family }
{
    let arrows = arrows(alloc, graph, root).expect(rt, "memory");
    cycles_of(rt, stacks, arrows)
}

// The trees of a graph to a root, over stacks from this source. If it is a key, they have this
// height.
fn trees(
    rt: &impl Abort,
    alloc: Global,
    text: &[u8],
    root: u32,
    spec: StackSpec,
    height: u32,
) -> Instance
    requires some { 0 < height }
    requires short { height < 2 ^ 31 }
    ensures { AreCycles result.family }
{
    let graph = graph(rt, alloc, text);
    expect_joined(rt, alloc, &graph, root);
    let stacks = stacks_of(rt, alloc, &graph, root, spec, height);
    let instance = trees_of(rt, alloc, &graph, root, stacks);
    drop(graph);
    instance
}

// The expected end: its cursors, its pops and the units of its stuck cycles.
struct Want {
    cursors: &'static [u32],
    pops: u64,
    stuck: &'static [u32],
}

// Compares the units of the stuck cycles.
fn are_stuck(rt: &impl Abort, stuck: &Stuck, units: &[u32]) {
    assert!(rt; stuck.len() == units.len() as u64);
    for (i, unit) in units.iter().enumerate() {
        is_so(rt, stuck.at(i as u64).0 == *unit, "stuck cycle", i as u64);
    }
}

// Compares an end over this many variables.
fn is_end(rt: &impl Abort, end: &End, count: u32, want: &Want)
    requires { count ≡ length end.now.cursors }
{
    let are_there = has_cursors(&end.cursors, count, want.cursors);
    is_so(rt, are_there, "cursors of variables below", count as u64);
    same(rt, end.pops, want.pops, "pops");
    are_stuck(rt, &end.stuck, want.stuck);
}

// Compares the end of the walks.
fn walks_end(rt: &impl Abort, alloc: Global, instance: &Instance, want: &Want)
    requires { AreCycles instance.now.family }
{
    let end = run_walks(alloc, instance).expect(rt, "memory");
    is_end(rt, &end, instance.stacks().count(), want);
    drop(end);
}

// Compares the end of the one-thread run.
fn first_ends(rt: &impl Abort, alloc: Global, instance: &Instance, want: &Want) {
    let end = run_first(alloc, instance).expect(rt, "memory");
    is_end(rt, &end, instance.stacks().count(), want);
    drop(end);
}

// Compares the ends of the walks and of the one-thread run.
fn ends_with(rt: &impl Abort, alloc: Global, instance: &Instance, want: &Want)
    requires { AreCycles instance.now.family }
{
    walks_end(rt, alloc, instance, want);
    first_ends(rt, alloc, instance, want);
}

// The rows of a table.
fn rows_of(rt: &impl Abort, alloc: Global, table: &[&[u32]]) -> Rows {
    match rows(alloc, table) {
        Ok(rows) => rows,
        Err(_) => panic!(rt; "no rows"),
    }
}

// A graph, the rows of entries over its arrows to vertex 1, and the expected end.
struct Case {
    text: &'static [u8],
    rows: &'static [&'static [u32]],
    want: Want,
}

// The instance of a case.
fn case_trees(rt: &impl Abort, alloc: Global, case: &Case) -> Instance
    ensures { AreCycles result.family }
{
    let rows = rows_of(rt, alloc, case.rows);
    trees(rt, alloc, case.text, 1, StackSpec::Given(rows), 1)
}

// Compares the ends of the runs of a case.
fn case_ends(rt: &impl Abort, alloc: Global, case: &Case) {
    let instance = case_trees(rt, alloc, case);
    ends_with(rt, alloc, &instance, &case.want);
    drop(instance);
}

const TRIANGLE: &[u8] = b"p edge 3 3\ne 1 2\ne 2 3\ne 1 3\n";

// Worked by hand: vertex 2 has the edges to 1 and 3, and vertex 3 those to 2 and 1.
static TWO_VERTICES: Case = Case {
    text: TRIANGLE,
    rows: &[&[1, 0], &[0, 0]],
    want: Want {
        cursors: &[1, 1],
        pops: 1,
        stuck: &[],
    },
};

#[test]
fn the_cycle_of_two_vertices_is_popped(rt: HostRuntime) {
    case_ends(&rt, rt.alloc(), &TWO_VERTICES);
}

// Worked by hand: the cycle of vertices 2 and 3 occurs at their last entries.
static LAST_ENTRY: Case = Case {
    text: TRIANGLE,
    rows: &[&[1], &[0]],
    want: Want {
        cursors: &[0, 0],
        pops: 0,
        stuck: &[0],
    },
};

#[test]
fn a_cycle_is_stuck_at_the_last_entry(rt: HostRuntime) {
    case_ends(&rt, rt.alloc(), &LAST_ENTRY);
}

// Worked by hand: the path 2, 3, 4, 1. Its vertices 3 and 4 lead to each other first.
static PATH: Case = Case {
    text: b"p edge 4 3\ne 2 3\ne 3 4\ne 4 1\n",
    rows: &[&[0, 0], &[1, 1], &[0, 1]],
    want: Want {
        cursors: &[0, 1, 1],
        pops: 1,
        stuck: &[],
    },
};

#[test]
fn a_vertex_in_front_of_a_cycle_keeps_its_arrow(rt: HostRuntime) {
    case_ends(&rt, rt.alloc(), &PATH);
}

// The first value of a variable.
fn first_value(rt: &impl Abort, stacks: &Stacks, v: u32) -> u32
    requires { v < variables_of stacks.now }
{
    let height = stacks.height(v);
    assert!(rt; 0 < height);
    let mut reader = Reader::new(stacks);
    let value = reader.entry(stacks, v, 0);
    drop(reader);
    value
}

// Compares stacks of one variable with two values, height 9 and first value 0.
fn has_two_values(rt: &impl Abort, stacks: &Stacks) {
    assert!(rt; stacks.count() == 1);
    same(rt, stacks.domain(0) as u64, 2, "values");
    same(rt, stacks.height(0) as u64, 9, "height");
    same(rt, first_value(rt, stacks, 0) as u64, 0, "first value");
}

static PARALLEL_EDGES: &[u8] = b"p edge 2 3\ne 2 2\ne 1 2 5\ne 1 2\n";

static ROOT_AT_ONCE: Want = Want {
    cursors: &[0],
    pops: 0,
    stuck: &[],
};

// Compares the ends of its runs, and its stacks.
fn root_at_once(rt: &impl Abort, alloc: Global, instance: &Instance)
    requires { AreCycles instance.now.family }
{
    ends_with(rt, alloc, instance, &ROOT_AT_ONCE);
    has_two_values(rt, instance.stacks());
}

// Worked by hand from the key stream. Vertex 2 has a self-loop, which is no slot, and two parallel
// edges to the root with weights 5 and 1. Its first entry selects the first of these.
#[test]
fn parallel_edges_are_slots_and_loops_are_none(rt: HostRuntime) {
    let alloc = rt.alloc();
    let instance = trees(&rt, alloc, PARALLEL_EDGES, 1, StackSpec::Key([0; 32]), 9);
    root_at_once(&rt, alloc, &instance);
    drop(instance);
}
