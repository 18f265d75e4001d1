//! Random multigraphs, with self-loops and parallel edges: the runs to their trees have the same
//! end.
ghost use Rattle.std.specs.Prelude.{◌≡◌, ◌<◌, ◌^◌, length};
ghost use Rattle.pop_model.specs.Stacks.{variables_of};
ghost use Rattle.cycle_popping.specs.Walks.{AreCycles};

use super::draws::{Draw, connected, drawn};
use super::trees;
use crate::comparing::is_so;
use confluence_core::{End, Keep, Run, Stuck, run_first, run_from_zeros};
use cycle_popping::run_walks;
use pop_instance::{Arrows, Cursors, Family, Instance};
use pop_stacks::{Reader, StackSpec, Stacks};
use std::alloc::Global;
use std::process::Abort;
use test_instances::are_cursors_alike;

// Compares the units and the events of the stuck cycles of graph i.
fn same_stuck(rt: &impl Abort, found: &Stuck, want: &Stuck, i: u32) {
    assert!(rt; found.len() == want.len());
    for place in 0..found.len() {
        let (unit, cube) = found.at(place);
        let (want_unit, want_cube) = want.at(place);
        is_so(rt, unit == want_unit, "stuck unit of graph", i as u64);
        is_so(rt, cube == want_cube, "stuck cycle of graph", i as u64);
    }
}

// Compares two ends over this many variables, of graph i.
fn end_alike(rt: &impl Abort, found: &End, want: &End, count: u32, i: u32)
    requires found { count ≡ length found.now.cursors }
    requires want { count ≡ length want.now.cursors }
{
    is_so(rt, found.pops == want.pops, "pops of graph", i as u64);
    let are_alike = are_cursors_alike(&found.cursors, &want.cursors, count);
    is_so(rt, are_alike, "cursors of graph", i as u64);
    same_stuck(rt, &found.stuck, &want.stuck, i);
}

// The head of the arrow of a variable at an entry.
fn head_at(rt: &impl Abort, stacks: &Stacks, arrows: &Arrows, v: u32, k: u32) -> Option<u32>
    requires stacks { v < variables_of stacks.now }
    requires arrows { v < length arrows.now }
{
    assert!(rt; k < stacks.height(v));
    let mut reader = Reader::new(stacks);
    let slot = reader.entry(stacks, v, k);
    drop(reader);
    assert!(rt; slot < arrows.slots(v));
    arrows.head(v, slot)
}

// The heads of the arrows of all variables at cursors.
fn heads_at(
    rt: &impl Abort,
    alloc: Global,
    stacks: &Stacks,
    arrows: &Arrows,
    cursors: &Cursors,
) -> Vec<Option<u32>>
    requires cursors { variables_of stacks.now ≡ length cursors.now }
    requires arrows { variables_of stacks.now ≡ length arrows.now }
{
    let mut heads = Vec::new(alloc);
    for v in 0..stacks.count() {
        let head = head_at(rt, stacks, arrows, v, cursors.get(v));
        heads.push(head).expect(rt, "memory");
    }
    heads
}

// The heads of the current arrows of all variables at an end.
fn current_heads(rt: &impl Abort, alloc: Global, instance: &Instance, end: &End) -> Vec<Option<u32>>
    requires { variables_of instance.now.stacks ≡ length end.now.cursors }
{
    let Family::Cycles(arrows) = instance.family() else {
        panic!(rt; "no arrows")
    };
    let stacks = instance.stacks();
    assert!(rt; arrows.count() == stacks.count());
    heads_at(rt, alloc, stacks, arrows, &end.cursors)
}

// Whether the path along these heads from a variable reaches the root in at most as many steps as
// there are variables.
fn leads_to_root(heads: &[Option<u32>], v: usize) -> bool {
    let mut at = v;
    for _ in heads {
        match heads.get(at) {
            Some(Some(w)) => at = *w as usize,
            Some(None) => return true,
            None => return false,
        }
    }
    false
}

// Whether the paths from all variables reach the root.
fn lead_to_root(heads: &[Option<u32>]) -> bool {
    for v in 0..heads.len() {
        if !leads_to_root(heads, v) {
            return false;
        }
    }
    true
}

// Compares the number of records of a run's log, if it has one, with its pops.
fn has_records(rt: &impl Abort, run: &Run, i: u32) {
    let Some(log) = &run.log else {
        panic!(rt; "no log")
    };
    is_so(rt, log.len() == run.end.pops, "log of graph", i as u64);
}

// Compares the run from zeros with an end of graph i, and its log with the pops.
fn zeros_end_alike(rt: &impl Abort, alloc: Global, instance: &Instance, want: &End, i: u32)
    requires { variables_of instance.now.stacks ≡ length want.now.cursors }
{
    let run = run_from_zeros(alloc, instance, Keep::Log).expect(rt, "memory");
    has_records(rt, &run, i);
    end_alike(rt, &run.end, want, instance.stacks().count(), i);
    drop(run);
}

// Compares the walks with an end of graph i.
fn walks_end_alike(rt: &impl Abort, alloc: Global, instance: &Instance, want: &End, i: u32)
    requires cycles { AreCycles instance.now.family }
    requires over { variables_of instance.now.stacks ≡ length want.now.cursors }
{
    let end = run_walks(alloc, instance).expect(rt, "memory");
    end_alike(rt, &end, want, instance.stacks().count(), i);
    drop(end);
}

// Checks that the arrows of graph i lead from each vertex to the root. They are those of this many
// vertices, without the root.
fn are_tree(rt: &impl Abort, heads: &[Option<u32>], vertices: u32, i: u32)
    requires { 0 < vertices }
{
    is_so(
        rt,
        heads.len() == vertices as usize - 1,
        "heads of graph",
        i as u64,
    );
    is_so(
        rt,
        lead_to_root(heads),
        "arrows to the root of graph",
        i as u64,
    );
}

// Whether an end has a stuck cycle. If it has none, the arrows there must lead to the root.
fn is_stuck(
    rt: &impl Abort,
    alloc: Global,
    instance: &Instance,
    end: &End,
    vertices: u32,
    i: u32,
) -> bool
    requires some { 0 < vertices }
    requires over { variables_of instance.now.stacks ≡ length end.now.cursors }
{
    if end.stuck.len() > 0 {
        return true;
    }
    let heads = current_heads(rt, alloc, instance, end);
    are_tree(rt, &heads, vertices, i);
    drop(heads);
    false
}

// Whether the runs of an instance over this many vertices, which must all have the same end, end
// with a stuck cycle. A stack of one entry has no next entry.
fn runs_exhausted(
    rt: &impl Abort,
    alloc: Global,
    instance: &Instance,
    vertices: u32,
    height: u32,
    i: u32,
) -> bool
    requires some { 0 < vertices }
    requires cycles { AreCycles instance.now.family }
{
    let first = run_first(alloc, instance).expect(rt, "memory");
    is_so(rt, height > 1 || first.pops == 0, "pops of graph", i as u64);
    zeros_end_alike(rt, alloc, instance, &first, i);
    walks_end_alike(rt, alloc, instance, &first, i);
    let stuck = is_stuck(rt, alloc, instance, &first, vertices, i);
    drop(first);
    stuck
}

// The instance of the trees of a graph, as they are drawn.
fn drawn_trees(rt: &impl Abort, alloc: Global, text: &str, draw: Draw) -> Instance
    requires height { 0 < draw.height }
    requires short { draw.height < 2 ^ 31 }
    ensures { AreCycles result.family }
{
    let spec = StackSpec::Key([draw.key; 32]);
    trees(rt, alloc, text.as_bytes(), draw.root, spec, draw.height)
}

// Draws graph i, and returns whether the runs to its trees end with a stuck cycle.
fn is_drawn_exhausted(rt: &impl Abort, alloc: Global, state: &mut u64, i: u32) -> bool {
    let vertices = 1 + i % 12;
    let text = connected(rt, alloc, state, vertices);
    let draw = drawn(state, vertices, i);
    let instance = drawn_trees(rt, alloc, text.as_str(), draw);
    drop(text);
    let exhausted = runs_exhausted(rt, alloc, &instance, vertices, draw.height, i);
    drop(instance);
    exhausted
}

#[test]
fn three_runs_over_random_multigraphs_end_alike(rt: HostRuntime) {
    let mut state = 1;
    let mut has_exhausted = false;
    let mut has_sample = false;
    for i in 0..600 {
        if is_drawn_exhausted(&rt, rt.alloc(), &mut state, i) {
            has_exhausted = true;
        } else {
            has_sample = true;
        }
    }
    assert!(&rt; has_exhausted);
    assert!(&rt; has_sample);
}
