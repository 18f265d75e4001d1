ghost use Rattle.std.specs.Prelude.{◌≡◌, ◌<◌, ◌++◌, [], ◌∷◌, ℕ, length, IfOk, IfErr, OnOk};
ghost use Rattle.pop_instance.specs.Events.{FitVariables};
ghost use Rattle.pop_instance.specs.Index.{IsIndex};
ghost use Rattle.sink_popping.specs.Sinks.{AreSinksOf, IsIsolated, IsSinkFault};
ghost use Rattle.sink_popping.specs.SinkPlaces.{places_at};

use crate::SinkFault;
use crate::events::sinks_of;
use crate::places::Places;
use graph_read::{Edge, Graph, Incidence};
use pop_instance::{Events, Index};
use pop_rows::RowList;
use std::alloc::{AllocError, Global};

/// The events of the graph, those of `sinks`, with their index: for each edge the places of the
/// events of its ends. Time and memory are linear in vertices and edges. The incidence that the
/// events are made from is dropped after the index is made, so that neither leaves a gap in
/// memory.
///
/// # Errors
///
/// Those of `sinks`.
pub fn indexed_sinks(alloc: Global, graph: &Graph) -> Result<(Events, Index), SinkFault>
    ensures sinks { IfOk result (λ parts. AreSinksOf graph.now parts.0) }
    ensures fit { IfOk result (λ parts. FitVariables (length graph.now.edges) parts.0) }
    ensures index { IfOk result (λ parts. IsIndex parts.0 parts.1) }
    ensures count { IfOk result (λ parts. length parts.1 ≡ length graph.now.edges) }
    ensures touched { OnOk result ((w : ℕ) → IsIsolated graph.now w → ⊥) }
    ensures fault { IfErr result (IsSinkFault graph.now) }
{
    let incidence = Incidence::of(alloc, graph)?;
    let events = sinks_of(alloc, &incidence)?;
    let index = sink_index(alloc, graph, &events)?;
    Ok((events, index))
}

// The index of the events of the graph. It is made edge by edge, so that its rows are written in
// order.
fn sink_index(alloc: Global, graph: &Graph, events: &Events) -> Result<Index, AllocError>
    requires sinks { AreSinksOf graph.now events.now }
    ensures index { IfOk result (IsIndex events.now) }
    ensures count { IfOk result (λ index. length index ≡ length graph.now.edges) }
{
    let places = Places::of_events(alloc, events, graph.vertices())?;
    let count = graph.edges() as usize;
    let mut rows = RowList::with_room(alloc, count, 2 * count)?;
    for i in 0..graph.edges() {
        push_places(&mut rows, &places, graph.edge(i))?;
    }
    Ok(Index::of(rows))
}

// Adds the row of an edge: the places of the events of its ends.
fn push_places(rows: &mut RowList, places: &Places, edge: Edge) -> Result<(), AllocError>
    requires from { edge.u < length places.now }
    requires to { edge.v < length places.now }
    ensures { OnOk result (rows.new ≡ rows.old ++ places_at places.now edge ∷ []) }
{
    // The places of events rise with their vertices.
    let first = places.at(edge.u.min(edge.v));
    let second = places.at(edge.u.max(edge.v));
    match (first, second) {
        (Some(first), Some(second)) => rows.push_row(&[first, second]),
        (Some(place), None) | (None, Some(place)) => rows.push_row(&[place]),
        (None, None) => rows.push_row(&[]),
    }
}
