ghost use Rattle.std.specs.Prelude.{◌≡◌, ◌<◌, ◌++◌, ◌∷◌, [], length, slice_get, Some, IfOk, OnOk, OnErr, map};
ghost use Rattle.std.specs.List.Sorted.{IsPermutation, IsNonDecreasingBy};
ghost use Rattle.confluence_core.specs.Stuck.{event_of};

use crate::Units;
use pop_instance::Cube;
use std::alloc::{AllocError, Global};
use std::marker::Model;

/// A list of events, each under its unit.
#[derive(Drop)]
pub struct Stuck {
    events: Vec<(u32, Cube)>,
}

impl Model for Stuck {
    ghost use Rattle.std.specs.Prelude.{List};
    ghost use Rattle.pop_model.specs.Families.{Event};
    ghost use Rattle.confluence_core.specs.Stuck.{events_of};

    ghost Value = { List Event };

    ghost view = { λ a. events_of a.events.items };
}

impl Stuck {
    /// A list without events. It allocates nothing.
    pub fn new(alloc: Global) -> Stuck
        ensures { result ≡ [] }
    {
        Stuck {
            events: Vec::new(alloc),
        }
    }

    /// The number of events.
    pub fn len(&self) -> u64
        ensures { result ≡ length self.now }
    {
        self.events.len() as u64
    }

    /// The unit and the cube of event i. Events count from 0.
    pub fn at(&self, i: u64) -> (u32, &Cube)
        requires known { i < length self.now }
        ensures { slice_get self.now i ≡ Some (event_of (result.0, result.1.now)) }
    {
        let (unit, cube) = &self.events[i as usize];
        (*unit, cube)
    }

    /// The units of the events, in their order.
    pub fn units(&self, alloc: Global) -> Result<Units, AllocError>
        ensures { IfOk result (λ units. units ≡ map (λ e. e.unit) self.now) }
    {
        let mut units = Units::new(alloc);
        for i in 0..self.len() {
            units.push(self.at(i).0)?;
        }
        Ok(units)
    }

    /// Adds an event at the end.
    pub fn push(&mut self, unit: u32, cube: Cube) -> Result<(), AllocError>
        ensures pushed { OnOk result (self.new ≡ self.old ++ event_of (unit, cube) ∷ []) }
        ensures kept { OnErr result (self.new ≡ self.old) }
    {
        self.events.push((unit, cube))?;
        Ok(())
    }

    // Sorts the events by their units.
    pub(crate) fn sort(&mut self)
        ensures permutation { IsPermutation self.old self.new }
        ensures sorted { IsNonDecreasingBy (λ e. e.unit) self.new }
    {
        self.events.sort_unstable_by_key(|event| event.0);
    }
}
