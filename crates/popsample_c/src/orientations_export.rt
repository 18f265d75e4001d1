//! The export for orientations of graphs that are given as arrays.
ghost use Rattle.std.specs.Prelude.{◌≡◌, ◌⊎◌, ◌↔◌, ◌<◌, ◌≤◌, ◌/◌, ◌^◌, length, IsTrue};
ghost use Rattle.array_calls.specs.Draws.{AreSamples};
ghost use Rattle.array_calls.specs.Values.{value_arrays};
ghost use Rattle.popsample_c.specs.Calls.{AreUnoriented, EndOrientations, FitEdges, IsArrayStatus, IsOrientCall, StopOrientations};

use crate::drawing::{
    EXHAUSTED, SAMPLES, STOPPED, USAGE, fit_from, fits_wanted, is_drawn, key_of, told, wants_stops,
};
use array_calls::{Draw, OrientedGraph, Outcome, orientations};
use std::alloc::Global;

// Whether arrays have this many rows with a number for each of the edges of these ends. More than
// 2^32 ends are not a graph.
fn fit_edges(ends: &[u32], count: usize, directions: &[u8], useds: &[u32]) -> bool
    requires { count ≤ 2 ^ 32 }
    ensures { IsTrue result ↔ FitEdges ends.now count directions.now useds.now }
{
    let edges = ends.len() / 2;
    edges < 1 << 31 && directions.len() == count * edges && fits_wanted(edges, count, useds)
}

// Whether this is a valid call for orientations: its arrays have a row for each pair of counts.
fn is_orient_call(
    ends: &[u32],
    key: &[u8],
    height: u32,
    first: u32,
    from: &[u32],
    budget: u64,
    directions: &[u8],
    useds: &[u32],
    counts: &[u64],
) -> bool
    ensures { IsTrue result ↔ IsOrientCall ends.now key.now height first from.now budget
        directions.now useds.now counts.now }
{
    let count = counts.len() / 2;
    is_drawn(key, height, first, count)
        && fit_edges(ends, count, directions, useds)
        && fit_from(ends.len() / 2, height, from)
        && wants_stops(budget, ends.len() / 2, count, useds)
}

/// Draws sink-free orientations of the graph in arrays, as many as there are pairs of `counts`.
/// They are those of the samples from the number `first` on. The first of them continues from the
/// cursors `from`. `kind` and `place` describe an error, or `place` is the row at which the budget
/// was spent.
#[unsafe(no_mangle)]
pub extern "C" fn popsample_orientations(
    alloc: Global,
    vertices: u32,
    ends: &[u32],
    key: &[u8],
    height: u32,
    first: u32,
    from: &[u32],
    budget: u64,
    directions: &mut [u8],
    useds: &mut [u32],
    counts: &mut [u64],
    kind: &mut u64,
    place: &mut u64,
) -> u32
    // Each row of the arrays has the end of its sample, within the budget; with status 0 none has a
    // sink.
    ensures rows { result < 2 → EndOrientations vertices ends.now key.now height first from.now
        budget (length counts.old / 2) (value_arrays directions.old useds.old counts.old)
        (value_arrays directions.new useds.new counts.new) }
    ensures free { result ≡ 0 → AreSamples (length counts.old / 2) counts.new }
    ensures exhausted { result ≡ 1 → AreSamples (length counts.old / 2) counts.new → ⊥ }

    // The budget was spent at a row.
    ensures stopped { result ≡ 10 → StopOrientations vertices ends.now key.now height first from.now
        budget (length counts.old / 2) (value_arrays directions.old useds.old counts.old)
        (value_arrays directions.new useds.new counts.new) place.new }

    // Otherwise the call is invalid, the input is rejected with the reason, or memory ran out.
    ensures usage { (result ≡ 2) ↔ (IsOrientCall ends.now key.now height first from.now budget
        directions.old useds.old counts.old → ⊥) }
    ensures refused { 2 < result → result < 9 → AreUnoriented vertices ends.now result
        kind.new place.new }
    ensures statuses { IsArrayStatus result }

    // After an error the arrays are as they were, unless memory ran out.
    ensures kept { 2 ≤ result → result < 9 → (directions.new ≡ directions.old)
        × (useds.new ≡ useds.old) × (counts.new ≡ counts.old) }
    ensures no_kind { (result < 3) ⊎ (9 ≤ result) → kind.new ≡ 0 }
    ensures no_place { (result < 3) ⊎ (result ≡ 9) → place.new ≡ 0 }
{
    *kind = 0;
    *place = 0;
    if !is_orient_call(
        ends, key, height, first, from, budget, directions, useds, counts,
    ) {
        return USAGE;
    }
    let asked = OrientedGraph { vertices, ends };
    let draw = Draw {
        key: key_of(key),
        height,
        first,
        from,
        budget,
    };
    match orientations(alloc, asked, draw, directions, useds, counts) {
        Ok(Outcome::Samples) => SAMPLES,
        Ok(Outcome::Exhausted) => EXHAUSTED,
        Ok(Outcome::Stopped(row)) => {
            *place = row as u64;
            STOPPED
        }
        Err(refusal) => {
            let (status, of_kind, at) = told(refusal);
            *kind = of_kind;
            *place = at;
            status
        }
    }
}
