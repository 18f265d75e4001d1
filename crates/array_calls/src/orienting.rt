//! Orientations of a graph that is given as arrays.
ghost use Rattle.std.specs.Prelude.{◌≡◌, ◌≢◌, ◌↔◌, ◌+◌, ◌*◌, ◌/◌, ◌<◌, ◌≤◌, ◌^◌, [], ◌∷◌, length, replicate, IsTrue, OnOk, IfOk, IfErr};
ghost use Rattle.pop_stacks.specs.Tables.{table_of};
ghost use Rattle.pop_stacks.specs.declared.stack_spec.StackSpec.TheVariants.{Key};
ghost use Rattle.graph_read.specs.Ends.{graph_in};
ghost use Rattle.array_calls.specs.declared.refusal.ArrayRefusal.TheVariants.{OutOfMemory};
ghost use Rattle.array_calls.specs.Refused.{HasIsolated, IsRefusal, RefusesOrientedArrays};
ghost use Rattle.array_calls.specs.Draws.{IsOutcome, stopped_at};
ghost use Rattle.array_calls.specs.Trees.{FitFrom, FitsWanted, WantsStops};
ghost use Rattle.array_calls.specs.Values.{AreSinksUnder, LeavesOrientations, LeavesValues, value_arrays};

use crate::counts::outcome_of;
use crate::draw::Draw;
use crate::outcome::Outcome;
use crate::refusal::ArrayRefusal;
use crate::row_samples::RowSamples;
use crate::value_rows::put_value_samples;
use graph_read::{Graph, graph_of_ends};
use pop_batch::Samples;
use pop_instance::{Family, Instance};
use pop_stacks::{StackSpec, Stacks, Weights};
use sink_popping::{SinkFault, sinks};
use std::alloc::{AllocError, Global};

/// A graph as arrays. Vertices count from 0.
#[derive(Clone, Copy)]
pub struct OrientedGraph<'a> {
    pub vertices: u32,
    /// The two ends of each edge.
    pub ends: &'a [u32],
}

/// The stacks of this many variables with two values under a key. No sum of weights can be too
/// large.
pub(crate) fn pair_stacks(count: u32, key: [u8; 32], height: u32) -> Result<Stacks, AllocError>
    requires few { count < 2 ^ 31 }
    requires some { 0 < height }
    requires short { height < 2 ^ 31 }
    ensures { IfOk result (λ stacks. stacks ≡ table_of (Key key) height
        (replicate count (1 ∷ 1 ∷ []))) }
{
    match Stacks::new(StackSpec::Key(key), Weights::pairs(count), height) {
        Ok(stacks) => Ok(stacks),
        Err(_) => Err(AllocError),
    }
}

// The instance of a graph's sink-free orientations. An isolated vertex is an error.
fn orientation_instance(
    alloc: Global,
    graph: &Graph,
    key: [u8; 32],
    height: u32,
) -> Result<Instance, ArrayRefusal>
    requires some { 0 < height }
    requires short { height < 2 ^ 31 }
    ensures made { IfOk result (AreSinksUnder key height graph.now) }
    ensures refused { IfErr result (IsRefusal (HasIsolated graph.now)) }
{
    let events = match sinks(alloc, graph) {
        Ok(events) => events,
        Err(SinkFault::Isolated(vertex)) => return Err(ArrayRefusal::Isolated(vertex - 1)),
        Err(SinkFault::OutOfMemory) => return Err(ArrayRefusal::OutOfMemory),
    };
    let stacks = pair_stacks(graph.edges(), key, height)?;
    match Instance::new(stacks, Family::Listed(events)) {
        Some(instance) => Ok(instance),
        None => unreachable!(),
    }
}

// Draws samples of an instance of orientations.
fn put_orientations(
    alloc: Global,
    graph: &Graph,
    instance: &Instance,
    draw: Draw,
    directions: &mut [u8],
    useds: &mut [u32],
    counts: &mut [u64],
) -> Result<Option<usize>, AllocError>
    requires sinks { AreSinksUnder draw.key draw.height graph.now instance.now }
    requires some { 0 < draw.height }
    requires last { draw.first + length counts.old / 2 ≤ 2 ^ 32 }
    requires from { FitFrom (length graph.now.edges) draw.height draw.from.now }
    requires directions { length directions.old ≡ length counts.old / 2 * length graph.now.edges }
    requires useds { FitsWanted (length graph.now.edges) (length counts.old / 2) useds.old }
    requires stops { WantsStops draw.budget (length graph.now.edges) (length counts.old / 2)
        useds.old }
    ensures leaves { IfOk result (LeavesValues instance.now (length graph.now.edges)
        draw.entry.first draw.entry.from.now draw.entry.budget (length counts.old / 2)
        (value_arrays directions.old useds.old counts.old)
        (value_arrays directions.new useds.new counts.new)) }
    ensures size { OnOk result (length counts.new ≡ length counts.old) }
{
    let samples = Samples::of(alloc, instance)?;
    put_value_samples(
        alloc,
        graph.edges(),
        &RowSamples::ByPopping(samples),
        draw.first,
        draw.from,
        draw.budget,
        directions,
        useds,
        counts,
    )
}

/// Draws sink-free orientations of the graph in arrays, as many as there are pairs of counts. They
/// are those of the samples from the first number on, and are stored in the rows of the arrays.
///
/// A row has a number for each edge. In `directions` it is 0 if the edge points from its first end
/// to its second, and otherwise 1. In `useds` it is the number of entries that were consumed. With
/// a budget the call may stop at a row, as `trees` does.
pub fn orientations(
    alloc: Global,
    asked: OrientedGraph,
    draw: Draw,
    directions: &mut [u8],
    useds: &mut [u32],
    counts: &mut [u64],
) -> Result<Outcome, ArrayRefusal>
    requires some { 0 < draw.height }
    requires short { draw.height < 2 ^ 31 }
    requires last { draw.first + length counts.old / 2 ≤ 2 ^ 32 }
    requires from { FitFrom (length asked.ends.now / 2) draw.height draw.from.now }
    requires directions { length directions.old ≡ length counts.old / 2 * (length asked.ends.now / 2) }
    requires useds { FitsWanted (length asked.ends.now / 2) (length counts.old / 2) useds.old }
    requires stops { WantsStops draw.budget (length asked.ends.now / 2) (length counts.old / 2)
        useds.old }
    ensures leaves { IfOk result (λ outcome. LeavesOrientations draw.entry.key draw.entry.height
        (graph_in asked.entry.vertices asked.entry.ends.now []) draw.entry.first
        draw.entry.from.now draw.entry.budget (length counts.old / 2)
        (value_arrays directions.old useds.old counts.old)
        (value_arrays directions.new useds.new counts.new) (stopped_at outcome)) }
    ensures outcome { IfOk result (IsOutcome counts.new) }
    ensures size { OnOk result (length counts.new ≡ length counts.old) }
    ensures refused { IfErr result (IsRefusal
        (RefusesOrientedArrays asked.entry.vertices asked.entry.ends.now)) }
    // After an error, except out of memory, the arrays are as they were.
    ensures kept { IfErr result (λ refusal. refusal ≢ OutOfMemory
        → (directions.new ≡ directions.old) × (useds.new ≡ useds.old)
        × (counts.new ≡ counts.old)) }
{
    let graph = graph_of_ends(alloc, asked.vertices, asked.ends, &[])?;
    let instance = orientation_instance(alloc, &graph, draw.key, draw.height)?;
    let stopped = put_orientations(alloc, &graph, &instance, draw, directions, useds, counts)?;
    Ok(outcome_of(stopped, counts))
}
