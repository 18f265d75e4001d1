//! Makes what is run from a formula, a graph or a grid, or rejects it.
ghost use Rattle.std.specs.Prelude.{◌≡◌, false, None, ◌<◌, ◌≤◌, ◌^◌, length, OnOk, IfOk, IfErr};
ghost use Rattle.pop_model.specs.Families.Family.{Listed, Cycles};
ghost use Rattle.pop_model.specs.Instances.{FamilyFits};
ghost use Rattle.pop_model.specs.Extremal.{IsExtremal};
ghost use Rattle.pop_stacks.specs.Faults.{IsSound};
ghost use Rattle.pop_instance.specs.Events.{FitVariables};
ghost use Rattle.dimacs_read.specs.Cnf.{first_empty};
ghost use Rattle.graph_read.specs.Graphs.{IsVertex};
ghost use Rattle.graph_read.specs.Paths.{IsConnected};
ghost use Rattle.cycle_popping.specs.Trees.{heads_of_tree, weights_of_tree};
ghost use Rattle.pop_print.specs.Ends.{AreFactsOf};
ghost use Rattle.growing_instances.specs.Growing.{MayIndex};
ghost use Rattle.job_subjects.specs.Refusals.{IsRefusal};
ghost use Rattle.job_subjects.specs.StackFaults.{AreFew, AreTooMany, RefusesStacks};
ghost use Rattle.job_subjects.specs.Subjects.{AreAssignments, AreOrientations, AreArrows, AreGridArrows};
ghost use Rattle.job_subjects.specs.Made.{IsInstanceOf, IsMadeOf};
ghost use Rattle.job_subjects.specs.Refused.{AreClashed, HasCutOff, RefusesFormula, RefusesOrienting, RefusesTree, RefusesGrid};

use crate::instances::{of_arrows, of_events};
use crate::origin::StackOrigin;
use crate::refusal::Refusal;
use cycle_popping::{arrows_of, grid_arrows, grid_weights, weights_of};
use dimacs_read::Formula;
use extremal_check::{Verdict, check};
use graph_read::{Graph, OtherEnds};
use growing_instances::{GrowingInstance, GrowingStacks};
use pop_instance::{Arrows, Events, Index};
use pop_print::Facts;
use pop_stacks::Weights;
use sink_popping::indexed_sinks;
use std::alloc::Global;

// The largest number of variables of all samples of a batch together. It is bounded since the
// whole output of a batch is made before its first byte is written.
const MAX_VARIABLES: u64 = 1 << 25;

// Rejects a batch if its samples have more variables than a batch may have. There is no batch if
// `asked` is None.
fn refuse_too_many(asked: Option<u32>, variables: u32) -> Result<(), Refusal>
    ensures few { OnOk result (AreFew asked variables) }
    ensures many { IfErr result (AreTooMany asked variables) }
{
    match asked {
        Some(count) if u64::from(count) * u64::from(variables) > MAX_VARIABLES => {
            Err(Refusal::TooMany(count))
        }
        _ => Ok(()),
    }
}

// The stacks with these weights, or the error. The facts name a variable with a fault, and `asked`
// is the number of samples of a batch.
fn stacks_of(
    origin: StackOrigin,
    asked: Option<u32>,
    facts: &Facts,
    variables: u32,
    weights: Weights,
) -> Result<GrowingStacks, Refusal>
    requires few { variables < 2 ^ 31 }
    requires count { variables ≡ length weights }
    ensures made { IfOk result (λ stacks. stacks ≡ record { origin = origin; weights = weights }) }
    ensures sound { OnOk result (IsSound origin weights) }
    ensures few { OnOk result (AreFew asked (length weights)) }
    ensures refused { IfErr result (IsRefusal (RefusesStacks facts.now origin weights asked)) }
{
    refuse_too_many(asked, variables)?;
    origin.stacks(facts, weights)
}

/// What a command runs, and the facts that its output needs.
#[derive(Drop)]
pub struct Made {
    pub facts: Facts,
    pub instance: GrowingInstance,
}

/// Rejects events if two of them clash, unless that is allowed. They are checked by their index,
/// which is returned; if clashes are allowed, none is built.
pub fn refuse_clash(
    alloc: Global,
    may_clash: bool,
    variables: u32,
    events: &Events,
) -> Result<Option<Index>, Refusal>
    requires { FitVariables variables events.now }
    ensures index { IfOk result (MayIndex (Listed events.now)) }
    ensures extremal { may_clash ≡ false → OnOk result (IsExtremal (Listed events.now)) }
    ensures clash { IfErr result
        (IsRefusal (λ r. (may_clash ≡ false) × AreClashed events.now r)) }
{
    if may_clash {
        return Ok(None);
    }
    let index = Index::build(alloc, events, variables)?;
    match check(alloc, events, &index)? {
        Verdict::Clash(number, other) => Err(Refusal::Clashes(number, other)),
        Verdict::Extremal => Ok(Some(index)),
    }
}

/// Makes the instance of the events of a formula. Clashes are allowed only if the flag says so,
/// and the number of samples is for a batch.
pub fn make_formula(
    alloc: Global,
    origin: StackOrigin,
    count: Option<u32>,
    may_clash: bool,
    formula: &Formula,
) -> Result<Made, Refusal>
    requires filled { first_empty formula.now ≡ None }
    ensures made { IfOk result (λ made.
        IsMadeOf (AreAssignments may_clash formula.now) origin count made.facts made.instance) }
    ensures told { IfOk result (λ made. AreFactsOf made.facts made.instance) }
    ensures refused { IfErr result
        (IsRefusal (RefusesFormula may_clash origin count formula.now)) }
{
    let variables = formula.variables();
    let facts = Facts::Formula(variables);
    let stacks = stacks_of(origin, count, &facts, variables, Weights::pairs(variables))?;
    let events = formula.events(alloc)?;
    let index = refuse_clash(alloc, may_clash, variables, &events)?;
    let instance = of_events(variables, stacks, events, index);
    Ok(Made { facts, instance })
}

/// Makes the instance of the sinks of a graph's orientations. The number of samples is for a
/// batch.
pub fn make_orientation(
    alloc: Global,
    origin: StackOrigin,
    count: Option<u32>,
    graph: Graph,
) -> Result<Made, Refusal>
    ensures made { IfOk result (λ made.
        IsMadeOf (AreOrientations graph) origin count made.facts made.instance) }
    ensures told { IfOk result (λ made. AreFactsOf made.facts made.instance) }
    ensures refused { IfErr result (IsRefusal (RefusesOrienting origin count graph)) }
{
    let (events, index) = indexed_sinks(alloc, &graph)?;
    let edges = graph.edges();
    let facts = Facts::Orient(graph);
    let stacks = stacks_of(origin, count, &facts, edges, Weights::pairs(edges))?;
    let instance = of_events(edges, stacks, events, Some(index));
    Ok(Made { facts, instance })
}

// Makes the instance of the cycles of arrows with these weights, with these facts.
fn make_cycles(
    origin: StackOrigin,
    count: Option<u32>,
    facts: Facts,
    weights: Weights,
    arrows: Arrows,
) -> Result<Made, Refusal>
    requires few { length weights < 2 ^ 31 }
    requires fits { FamilyFits (record { origin = origin; weights = weights }) (Cycles arrows) }
    ensures made { IfOk result (λ made. IsInstanceOf origin count
        (record { facts = facts; weights = weights; family = Cycles arrows })
        made.facts made.instance) }
    ensures refused { IfErr result (IsRefusal (RefusesStacks facts origin weights count)) }
{
    let stacks = stacks_of(origin, count, &facts, arrows.count(), weights)?;
    let instance = of_arrows(stacks, arrows);
    Ok(Made { facts, instance })
}

// The arrows of a graph's trees to a root, and their weights. A vertex that is not connected to
// the root is an error. Both are made from the other ends of the edges, which are dropped
// afterwards.
fn arrows_and_weights(alloc: Global, graph: &Graph, root: u32) -> Result<(Arrows, Weights), Refusal>
    requires root { IsVertex graph.now.vertices root }
    ensures connected { OnOk result (IsConnected graph.now root) }
    ensures arrows { IfOk result (λ parts. parts.0 ≡ heads_of_tree graph.now root) }
    ensures weights { IfOk result (λ parts. parts.1 ≡ weights_of_tree graph.now root) }
    ensures refused { IfErr result (IsRefusal (HasCutOff graph.now root)) }
{
    let ends = OtherEnds::of(alloc, graph)?;
    if let Some(vertex) = ends.first_cut_off(alloc, root)? {
        return Err(Refusal::CutOff(vertex));
    }
    // The temporary memory for the weights is freed before the arrows are made. Both together
    // would need more memory.
    let weights = weights_of(alloc, &ends, root)?;
    let arrows = arrows_of(alloc, &ends, root)?;
    Ok((arrows, weights))
}

/// Makes the instance of the cycles of arrows of a graph's trees with this root, from 1. The
/// number of samples is for a batch.
pub fn make_tree(
    alloc: Global,
    origin: StackOrigin,
    count: Option<u32>,
    root: u32,
    graph: Graph,
) -> Result<Made, Refusal>
    requires root { 1 ≤ root }
    ensures made { IfOk result (λ made.
        IsMadeOf (AreArrows root graph) origin count made.facts made.instance) }
    ensures told { IfOk result (λ made. AreFactsOf made.facts made.instance) }
    ensures refused { IfErr result (IsRefusal (RefusesTree origin count root graph)) }
{
    // This also shows that there are few vertices, so that each has a name.
    if root > graph.vertices() {
        return Err(Refusal::NoRoot(root));
    }
    let (arrows, weights) = arrows_and_weights(alloc, &graph, root)?;
    make_cycles(origin, count, Facts::Tree(graph, root), weights, arrows)
}

/// Makes the instance of the cycles of arrows of the grid with this many rows and columns, from 1
/// to 2048. The root is vertex 1. The graph is not made: arrows and weights are computed from the
/// side.
pub fn make_grid(
    alloc: Global,
    origin: StackOrigin,
    count: Option<u32>,
    side: u32,
) -> Result<Made, Refusal>
    requires side { (1 ≤ side) × (side ≤ 2048) }
    ensures made { IfOk result (λ made.
        IsMadeOf (AreGridArrows side) origin count made.facts made.instance) }
    ensures told { IfOk result (λ made. AreFactsOf made.facts made.instance) }
    ensures refused { IfErr result (IsRefusal (RefusesGrid origin count side)) }
{
    let arrows = grid_arrows(alloc, side)?;
    let weights = grid_weights(alloc, side)?;
    make_cycles(origin, count, Facts::Made(side), weights, arrows)
}
