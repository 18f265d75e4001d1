//! The instance of the trees of a graph.
ghost use Rattle.std.specs.Prelude.{◌≡◌, ◌<◌, ◌^◌, length, IfOk, IfErr, OnOk};
ghost use Rattle.graph_read.specs.Graphs.{IsVertex};
ghost use Rattle.graph_read.specs.Paths.{IsConnected};
ghost use Rattle.cycle_popping.specs.Trees.{heads_of_tree, weights_of_tree};
ghost use Rattle.pop_model.specs.Families.Family.{Cycles};
ghost use Rattle.pop_model.specs.Instances.{FamilyFits};
ghost use Rattle.array_calls.specs.Refused.{HasCutOff, HasHeavyRow, IsRefusal, RefusesTrees};
ghost use Rattle.array_calls.specs.Trees.{trees_under};
ghost use Rattle.pop_stacks.specs.Tables.{table_of};
ghost use Rattle.pop_stacks.specs.declared.stack_spec.StackSpec.TheVariants.{Key};

use crate::refusal::ArrayRefusal;
use cycle_popping::{arrows_of, weights_of};
use graph_read::{OtherEnds, vertex_of};
use pop_instance::{Arrows, Family, Instance};
use pop_stacks::{StackFault, StackSpec, Stacks, Weights};
use std::alloc::Global;

// The arrows and the weights of a graph's trees to a root. A vertex that is not connected to the
// root is an error.
fn arrows_and_weights(
    alloc: Global,
    ends: &OtherEnds,
    root: u32,
) -> Result<(Arrows, Weights), ArrayRefusal>
    requires root { IsVertex ends.now.vertices root }
    ensures connected { OnOk result (IsConnected ends.now root) }
    ensures arrows { IfOk result (λ parts. parts.0 ≡ heads_of_tree ends.now root) }
    ensures weights { IfOk result (λ parts. parts.1 ≡ weights_of_tree ends.now root) }
    ensures refused { IfErr result (IsRefusal (HasCutOff ends.now root)) }
{
    if let Some(vertex) = ends.first_cut_off(alloc, root)? {
        return Err(ArrayRefusal::CutOff(vertex - 1));
    }
    let weights = weights_of(alloc, ends, root)?;
    let arrows = arrows_of(alloc, ends, root)?;
    Ok((arrows, weights))
}

// The stacks of these weights under a key, or the vertex with too large a sum of weights.
fn stacks_of(
    weights: Weights,
    root: u32,
    key: [u8; 32],
    height: u32,
) -> Result<Stacks, ArrayRefusal>
    requires some { 0 < height }
    requires short { height < 2 ^ 31 }
    requires few { length weights < 2 ^ 31 }
    ensures made { IfOk result (λ stacks. stacks ≡ table_of (Key key) height weights) }
    ensures refused { IfErr result (IsRefusal (HasHeavyRow weights root)) }
{
    match Stacks::new(StackSpec::Key(key), weights, height) {
        Ok(stacks) => Ok(stacks),
        Err(StackFault::WeightSum(v)) => Err(ArrayRefusal::TooHeavy(vertex_of(root, v) - 1)),
        Err(_) => Err(ArrayRefusal::OutOfMemory),
    }
}

// The instance of arrows over stacks.
fn of_arrows(stacks: Stacks, arrows: Arrows) -> Instance
    requires fits { FamilyFits stacks (Cycles arrows) }
    ensures { result ≡ record { stacks = stacks; family = Cycles arrows } }
{
    match Instance::new(stacks, Family::Cycles(arrows)) {
        Some(instance) => instance,
        None => unreachable!(),
    }
}

/// The instance of the trees of a graph to a root, under a key and a height.
pub fn tree_instance(
    alloc: Global,
    ends: &OtherEnds,
    root: u32,
    key: [u8; 32],
    height: u32,
) -> Result<Instance, ArrayRefusal>
    requires root { IsVertex ends.now.vertices root }
    requires some { 0 < height }
    requires short { height < 2 ^ 31 }
    ensures made { IfOk result (λ i. i ≡ trees_under key height ends.now root) }
    ensures refused { IfErr result (IsRefusal (RefusesTrees ends.now root)) }
{
    // Read for its contract, which bounds the number of vertices.
    let _vertices = ends.graph().vertices();
    let (arrows, weights) = arrows_and_weights(alloc, ends, root)?;
    let stacks = stacks_of(weights, root, key, height)?;
    Ok(of_arrows(stacks, arrows))
}
