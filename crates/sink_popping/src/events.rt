ghost use Rattle.std.specs.Prelude.{ℕ, length, IfOk, IfErr, OnOk};
ghost use Rattle.graph_read.specs.Graphs.{IsVertex};
ghost use Rattle.pop_instance.specs.Events.{FitVariables};
ghost use Rattle.sink_popping.specs.Sinks.{AreSinksOf, IsIsolated, IsSinkFault};
ghost use Rattle.sink_popping.specs.SinkCubes.{AreLoopMarks, ComesOfVertex};

use crate::SinkFault;
use crate::loops::loop_marks;
use crate::sink_cubes::sink_cube;
use graph_read::{Graph, Incidence};
use pop_instance::{Cube, Events};
use std::alloc::Global;

/// The events of the graph, each under the number of its vertex, from 1. The cube of vertex w has
/// each edge at w, with the value for which the edge points to w. Edge i, from 0, is variable i;
/// value 0 points from u to v, and 1 from v to u. A vertex with a self-loop is never a sink, and
/// has no event. Time and memory are linear in vertices and edges.
///
/// # Errors
///
/// `Isolated` with the lowest vertex that has no edges, exactly if there is one. A self-loop is an
/// edge of its vertex.
pub fn sinks(alloc: Global, graph: &Graph) -> Result<Events, SinkFault>
    ensures sinks { IfOk result (AreSinksOf graph.now) }
    ensures fit { IfOk result (FitVariables (length graph.now.edges)) }
    ensures touched { OnOk result ((w : ℕ) → IsIsolated graph.now w → ⊥) }
    ensures fault { IfErr result (IsSinkFault graph.now) }
{
    let incidence = Incidence::of(alloc, graph)?;
    sinks_of(alloc, &incidence)
}

/// The events of a graph that is given with its incidence. The events and the errors are those of
/// `sinks`.
pub(crate) fn sinks_of(alloc: Global, incidence: &Incidence) -> Result<Events, SinkFault>
    ensures sinks { IfOk result (AreSinksOf incidence.now) }
    ensures fit { IfOk result (FitVariables (length incidence.now.edges)) }
    ensures touched { OnOk result ((w : ℕ) → IsIsolated incidence.now w → ⊥) }
    ensures fault { IfErr result (IsSinkFault incidence.now) }
{
    let graph = incidence.graph();
    let loops = loop_marks(alloc, graph)?;
    let mut rows = Vec::with_capacity(alloc, graph.vertices() as usize)?;
    for w in 1..graph.vertices() + 1 {
        if let Some(cube) = sink_at(alloc, incidence, &loops, w)? {
            rows.push((w, cube))?;
        }
    }
    Ok(Events::of(rows))
}

// The event of a vertex, or None if it has a self-loop.
fn sink_at(
    alloc: Global,
    incidence: &Incidence,
    loops: &[bool],
    w: u32,
) -> Result<Option<Cube>, SinkFault>
    requires vertex { IsVertex incidence.now.vertices w }
    requires loops { AreLoopMarks incidence.now loops.now }
    ensures { ComesOfVertex incidence.now w result }
{
    if loops[w as usize] {
        return Ok(None);
    }
    if incidence.at(w).is_empty() {
        return Err(SinkFault::Isolated(w));
    }
    Ok(Some(sink_cube(alloc, incidence, w)?))
}
