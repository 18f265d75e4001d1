ghost use Rattle.std.specs.Prelude.{◌≡◌, ◌+◌, ◌<◌, ◌≤◌, None, length, slice_index_or, All, IfOk, IsTrue, ℕ};
ghost use Rattle.pop_instance.specs.Events.{event_number};
ghost use Rattle.sink_popping.specs.SinkPlaces.{ArePlaces};

use pop_instance::Events;
use std::alloc::{AllocError, Global};
use std::marker::Model;

// The two ways of storing the places.
#[derive(Drop)]
enum KeptPlaces {
    // Each of this many vertices has an event. That of vertex w is at place w - 1, so no list is
    // stored.
    Each(u32),
    // By vertex. Vertices count from 1, so the first item is unused.
    Listed(Vec<Option<u32>>),
}

/// The place of the event of each vertex. Contracts see a list with an unused first item, since
/// vertices count from 1.
#[derive(Drop)]
pub struct Places {
    kept: KeptPlaces,
}

impl Model for Places {
    ghost use Rattle.std.specs.Prelude.{ℕ, List, Option};
    ghost use Rattle.sink_popping.specs.KeptPlaces.{places_kept};

    ghost Value = { List (Option ℕ) };

    ghost view = { λ a. places_kept a.kept };
}

impl Places {
    /// The places of the events of this many vertices. If each vertex has an event, no list is
    /// stored: its items would be read in no order, which is slow.
    pub fn of_events(alloc: Global, events: &Events, vertices: u32) -> Result<Places, AllocError>
        requires { All (λ r. r.0 ≤ vertices) events.now }
        ensures count { IfOk result (λ places. length places ≡ vertices + 1) }
        ensures places { IfOk result (ArePlaces events.now (length events.now)) }
    {
        let kept = if have_all(events, vertices) {
            KeptPlaces::Each(vertices)
        } else {
            KeptPlaces::Listed(listed(alloc, events, vertices)?)
        };
        Ok(Places { kept })
    }

    /// The place of the event of a vertex, if it has one.
    #[inline]
    pub fn at(&self, vertex: u32) -> Option<u32>
        requires { vertex < length self.now }
        ensures { result ≡ slice_index_or self.now vertex None }
    {
        match &self.kept {
            KeptPlaces::Each(_) => vertex.checked_sub(1),
            KeptPlaces::Listed(places) => places[vertex as usize],
        }
    }
}

// Whether each of this many vertices has an event.
fn have_all(events: &Events, vertices: u32) -> bool
    ensures count { IsTrue result → length events.now ≡ vertices }
    ensures numbers { IsTrue result
        → (place : ℕ) → place < vertices → event_number events.now place ≡ place + 1 }
{
    if events.count() != vertices {
        return false;
    }
    for place in 0..vertices {
        if events.number(place) != place + 1 {
            return false;
        }
    }
    true
}

// The places, stored as a list.
fn listed(alloc: Global, events: &Events, vertices: u32) -> Result<Vec<Option<u32>>, AllocError>
    requires { All (λ r. r.0 ≤ vertices) events.now }
    ensures count { IfOk result (λ places. length places.items ≡ vertices + 1) }
    ensures places { IfOk result (λ places.
        ArePlaces events.now (length events.now) places.items) }
{
    let mut places = vec![in alloc; None; vertices as usize + 1]?;
    for place in 0..events.count() {
        places[events.number(place) as usize] = Some(place);
    }
    Ok(places)
}
