//! The export for trees of graphs that are given as arrays.
ghost use Rattle.std.specs.Prelude.{◌≡◌, ◌⊎◌, ◌↔◌, ◌<◌, ◌≤◌, ◌/◌, ◌^◌, length, slice_index, IsTrue};
ghost use Rattle.array_calls.specs.Draws.{AreSamples};
ghost use Rattle.array_calls.specs.Trees.{FitRows, tree_arrays};
ghost use Rattle.popsample_c.specs.Calls.{AreRefused, EndTrees, IsArrayStatus, IsCall, StopTrees};

use crate::drawing::{
    EXHAUSTED, SAMPLES, STOPPED, USAGE, fit_from, fits_wanted, is_drawn, key_of, told, wants_stops,
};
use array_calls::{Draw, Outcome, TreeGraph, trees};
use std::alloc::Global;

// Whether arrays have this many rows with this many numbers.
fn fit_rows(vertices: u32, count: usize, parents: &[u32], edges: &[u32], useds: &[u32]) -> bool
    requires { count ≤ 2 ^ 32 }
    ensures { IsTrue result ↔ FitRows vertices count parents.now edges.now useds.now }
{
    parents.len() == count * vertices as usize
        && fits_wanted(vertices as usize, count, edges)
        && fits_wanted(vertices as usize, count, useds)
}

// Whether the cursors from which a sample continues have 0 at the root, if there is such a vertex.
fn is_zero_at(root: u32, from: &[u32]) -> bool
    ensures { IsTrue result ↔ (slice_index from.now root ≡ 0) }
{
    match from.get(root as usize) {
        Some(entry) => *entry == 0,
        None => true,
    }
}

// Whether this is a valid call for trees: its arrays have a row for each pair of counts.
fn is_call(
    vertices: u32,
    root: u32,
    key: &[u8],
    height: u32,
    first: u32,
    from: &[u32],
    budget: u64,
    parents: &[u32],
    edges: &[u32],
    useds: &[u32],
    counts: &[u64],
) -> bool
    ensures { IsTrue result ↔ IsCall vertices root key.now height first from.now budget parents.now
        edges.now useds.now counts.now }
{
    let count = counts.len() / 2;
    is_drawn(key, height, first, count)
        && fit_rows(vertices, count, parents, edges, useds)
        && fit_from(vertices as usize, height, from)
        && is_zero_at(root, from)
        && wants_stops(budget, vertices as usize, count, useds)
}

/// Draws trees of the graph in arrays, as many as there are pairs of `counts`. They are those of
/// the samples from the number `first` on. The first of them continues from the cursors `from`.
/// `kind` and `place` describe an error, or `place` is the row at which the budget was spent.
#[unsafe(no_mangle)]
pub extern "C" fn popsample_trees(
    alloc: Global,
    vertices: u32,
    ends: &[u32],
    weights: &[u32],
    root: u32,
    key: &[u8],
    height: u32,
    first: u32,
    from: &[u32],
    budget: u64,
    parents: &mut [u32],
    edges: &mut [u32],
    useds: &mut [u32],
    counts: &mut [u64],
    kind: &mut u64,
    place: &mut u64,
) -> u32
    // Each row of the arrays has the end of its sample, within the budget; with status 0 each is a
    // tree.
    ensures rows { result < 2 → EndTrees vertices ends.now weights.now root key.now height first
        from.now budget (length counts.old / 2)
        (tree_arrays parents.new edges.new useds.new counts.new) }
    ensures trees { result ≡ 0 → AreSamples (length counts.old / 2) counts.new }
    ensures exhausted { result ≡ 1 → AreSamples (length counts.old / 2) counts.new → ⊥ }

    // The budget was spent at a row.
    ensures stopped { result ≡ 10 → StopTrees vertices ends.now weights.now root key.now height
        first from.now budget (length counts.old / 2)
        (tree_arrays parents.old edges.old useds.old counts.old)
        (tree_arrays parents.new edges.new useds.new counts.new) place.new }

    // Otherwise the call is invalid, the input is rejected with the reason, or memory ran out.
    ensures usage { (result ≡ 2) ↔ (IsCall vertices root key.now height first from.now budget
        parents.old edges.old useds.old counts.old → ⊥) }
    ensures refused { 2 < result → result < 9 → AreRefused vertices ends.now weights.now root result
        kind.new place.new }
    ensures statuses { IsArrayStatus result }

    // After an error the arrays are as they were, unless memory ran out.
    ensures kept { 2 ≤ result → result < 9 → (parents.new ≡ parents.old) × (edges.new ≡ edges.old)
        × (useds.new ≡ useds.old) × (counts.new ≡ counts.old) }
    ensures no_kind { (result < 3) ⊎ (9 ≤ result) → kind.new ≡ 0 }
    ensures no_place { (result < 3) ⊎ (result ≡ 9) → place.new ≡ 0 }
{
    *kind = 0;
    *place = 0;
    if !is_call(
        vertices, root, key, height, first, from, budget, parents, edges, useds, counts,
    ) {
        return USAGE;
    }
    let asked = TreeGraph {
        vertices,
        ends,
        weights,
        root,
    };
    let draw = Draw {
        key: key_of(key),
        height,
        first,
        from,
        budget,
    };
    match trees(alloc, asked, draw, parents, edges, useds, counts) {
        Ok(Outcome::Samples) => SAMPLES,
        Ok(Outcome::Exhausted) => EXHAUSTED,
        Ok(Outcome::Stopped(row)) => {
            *place = row as u64;
            STOPPED
        }
        Err(refusal) => {
            let (status, of_kind, at) = told(refusal);
            *kind = of_kind;
            *place = at;
            status
        }
    }
}
