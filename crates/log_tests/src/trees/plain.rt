// Comparison with a simple search, which compares each record with each vertex and finds the
// preorder by the paths from the root.
use super::COUNT;
use crate::records::log_of;
use confluence_core::Log;
use std::alloc::Global;
use std::process::Abort;
use test_instances::below;
use witness_trees::{Tree, tree};

// A vertex that the search found: the variables of the labels from the root down to it, and its
// unit.
#[derive(Drop)]
struct Found<'a> {
    path: Vec<&'a [u32]>,
    unit: u32,
}

// Whether some variable is in both lists.
fn meet(variables: &[u32], others: &[u32]) -> bool {
    variables.iter().any(|v| others.contains(v))
}

// Whether the first vertex takes precedence as the parent: it is deeper, or equally deep with a
// lower label.
fn is_before(path: &[&[u32]], other: &[&[u32]]) -> bool {
    if path.len() != other.len() {
        return path.len() > other.len();
    }
    path.last() < other.last()
}

// The path of the deepest vertex that shares one of these variables. If there are several, it is
// the one with the lowest label.
fn parent<'a, 'b>(found: &'b [Found<'a>], variables: &[u32]) -> Option<&'b [&'a [u32]]> {
    let mut best: Option<&'b [&'a [u32]]> = None;
    for vertex in found {
        let meets = vertex
            .path
            .last()
            .is_some_and(|label| meet(label, variables));
        if meets && best.is_none_or(|path| is_before(&vertex.path, path)) {
            best = Some(&vertex.path);
        }
    }
    best
}

// The path to a vertex with these variables. None if they share a variable with no vertex that was
// found.
fn path_of<'a>(
    rt: &impl Abort,
    alloc: Global,
    found: &[Found<'a>],
    variables: &'a [u32],
) -> Option<Vec<&'a [u32]>> {
    let mut path: Vec<&'a [u32]> = Vec::new(alloc);
    if !found.is_empty() {
        match parent(found, variables) {
            None => return None,
            Some(above) => path = Vec::from_slice(alloc, above).expect(rt, "memory"),
        }
    }
    path.push(variables).expect(rt, "memory");
    Some(path)
}

// Adds the vertex of a pop, unless it shares a variable with no vertex that was found.
fn add<'a>(
    rt: &impl Abort,
    alloc: Global,
    found: &mut Vec<Found<'a>>,
    unit: u32,
    variables: &'a [u32],
) {
    if let Some(path) = path_of(rt, alloc, found, variables) {
        found.push(Found { path, unit }).expect(rt, "memory");
    }
}

// The vertices of the tree of the last pop, in preorder.
fn search<'a>(rt: &impl Abort, alloc: Global, pops: &'a [(u32, Vec<u32>)]) -> Vec<Found<'a>> {
    let mut found: Vec<Found<'a>> = Vec::new(alloc);
    for (unit, variables) in pops.iter().rev() {
        add(rt, alloc, &mut found, *unit, variables.as_slice());
    }
    found.sort_unstable_by(|vertex, other| vertex.path.cmp(&other.path));
    found
}

// One to three of six variables, with their own unit.
fn event(rt: &impl Abort, alloc: Global, state: &mut u64) -> (u32, Vec<u32>) {
    let (a, b, c) = (below(state, 6), below(state, 6), below(state, 6));
    let mut unit: u32 = 0;
    let mut variables = Vec::new(alloc);
    for v in 0..6 {
        unit = unit.wrapping_mul(2);
        if v == a || v == b || v == c {
            unit = unit.wrapping_add(1);
            variables.push(v).expect(rt, "memory");
        }
    }
    (unit, variables)
}

// One to twelve pops.
fn draw_pops(rt: &impl Abort, alloc: Global, state: &mut u64) -> Vec<(u32, Vec<u32>)> {
    let mut pops = Vec::new(alloc);
    for _ in 0..below(state, 12) + 1 {
        let event = event(rt, alloc, state);
        pops.push(event).expect(rt, "memory");
    }
    pops
}

// Compares a tree with the result of the search.
fn is_found(rt: &impl Abort, tree: &Tree, want: &[Found]) {
    assert!(rt; tree.len() == want.len() as u64);
    for i in 0..tree.len() {
        let vertex = &want[i as usize];
        assert!(rt; tree.unit(i) == vertex.unit, "vertex {i}");
        let depth = (vertex.path.len() as u64).checked_sub(1);
        assert!(rt; depth == Some(tree.depth(i)), "the depth of vertex {i}");
    }
}

// Compares the tree of the last record of a log with the result of the search.
fn has_found(rt: &impl Abort, alloc: Global, log: &Log, want: &[Found]) {
    let count = log.len();
    assert!(rt; 0 < count);
    let tree = tree(alloc, log, count - 1).expect(rt, "memory");
    is_found(rt, &tree, want);
    drop(tree);
}

// Compares the tree of the last pop with the result of the search.
fn agree(rt: &impl Abort, alloc: Global, pops: &[(u32, Vec<u32>)]) {
    let want = search(rt, alloc, pops);
    let log = log_of(rt, alloc, COUNT, pops);
    has_found(rt, alloc, &log, &want);
    drop(log);
    drop(want);
}

#[test]
fn trees_are_those_that_a_search_finds(rt: HostRuntime) {
    let alloc = rt.alloc();
    let mut state = 1;
    for _ in 0..400 {
        let pops = draw_pops(&rt, alloc, &mut state);
        agree(&rt, alloc, &pops);
        drop(pops);
    }
}
