ghost use Rattle.std.specs.Prelude.{◌≡◌, ◌<◌, length, All, IfOk};
ghost use Rattle.pop_model.specs.Popping.{NamesBelow};
ghost use Rattle.pop_instance.specs.Events.{cube_at};
ghost use Rattle.prs_rounds.specs.Values.{shows, shown_among};

use pop_instance::{Cube, Events};
use rayon::prelude::*;
use std::alloc::{AllocError, Global};
use std::thread::Threads;

/// Whether each variable of the cube has the value that the cube demands.
pub(crate) fn is_shown(values: &[u32], cube: &Cube) -> bool
    requires known { NamesBelow cube.now (length values.now) }
    ensures { result ≡ shows values.now cube.now }
{
    for i in 0..cube.len() {
        let (v, x) = cube.pair(i);
        if values[v as usize] != x {
            return false;
        }
    }
    true
}

/// The places, among these and in their order, of the events that occur with these values. Events
/// are judged in parallel if there are many.
pub(crate) fn occurring<R: Threads + Sync>(
    rt: &R,
    alloc: Global,
    events: &Events,
    values: &[u32],
    places: &[u32],
) -> Result<Vec<u32>, AllocError>
    requires known { All (λ u. u < length events.now) places.now }
    requires fits { All (λ r. NamesBelow r.1 (length values.now)) events.now }
    ensures { IfOk result (λ found.
        found.items ≡ shown_among values.now events.now places.now) }
{
    places
        .par_iter()
        .copied()
        .filter(
            |place: &u32| -> bool
                requires { (place.now < length events.now)
                    × All (λ r. NamesBelow r.1 (length values.now)) events.now }
                ensures { result ≡ shows values.entry.now (cube_at events.entry.now place.now) }
            { is_shown(values, events.cube(*place)) },
        )
        .collect(rt, alloc)
}
