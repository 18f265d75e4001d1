ghost use Rattle.std.specs.Prelude.{◌≡◌, ◌<◌, ◌^◌, ◌↔◌, IsTrue, IfOk};
ghost use Rattle.pop_model.specs.Stacks.{variables_of, domain_of};
ghost use Rattle.pop_model.specs.Families.Family.{Listed as ListedEvents, Cycles as CyclesOfHeads};
ghost use Rattle.pop_model.specs.Families.{IsFamily, units_of};
ghost use Rattle.pop_model.specs.Instances.{FamilyFits, FitsStacks};

use crate::cycle::is_cycle;
use crate::{Arrows, Cube, Events};
use pop_stacks::Stacks;
use std::alloc::{AllocError, Global};

/// A family of events. Each event has a unit, which identifies it.
#[derive(Drop)]
pub enum Family {
    /// A list of events. The unit of an event is its place.
    Listed(Events),
    /// The cycles of arrows. The unit of a cycle is its lowest variable.
    Cycles(Arrows),
}

impl Family {
    ghost use Rattle.pop_instance.specs.Family.{family_of, HasEvent};

    /// A copy of this family. Its time and memory are linear in the size of the family.
    pub fn copy(&self, alloc: Global) -> Result<Family, AllocError>
        ensures { IfOk result (λ family. family_of family ≡ family_of self.now) }
    {
        Ok(match self {
            Family::Listed(events) => Family::Listed(events.copy(alloc)?),
            Family::Cycles(arrows) => Family::Cycles(arrows.copy(alloc)?),
        })
    }

    /// The number of units, at most 2^31 - 1: the number of places or of variables.
    pub fn units(&self) -> u32
        ensures units { result ≡ units_of (family_of self.now) }
        ensures family { IsFamily (family_of self.now) }
        ensures short { result < 2 ^ 31 }
    {
        match self {
            Family::Listed(events) => events.count(),
            Family::Cycles(arrows) => arrows.count(),
        }
    }

    /// Whether the family fits the stacks. Listed events must name variables and values that the
    /// stacks have; arrows must have one slot for each value of each variable of the stacks.
    pub fn fits(&self, stacks: &Stacks) -> bool
        ensures { IsTrue result ↔ FamilyFits stacks.now (family_of self.now) }
    {
        match self {
            Family::Listed(events) => fit(stacks, events),
            Family::Cycles(arrows) => fit_slots(stacks, arrows),
        }
    }

    /// Whether the cube is that of an event. In a listed family every event is compared; in a
    /// cycle family the arrows are followed once around.
    pub fn is_event(&self, cube: &Cube) -> bool
        ensures { IsTrue result ↔ HasEvent (family_of self.now) cube.now }
    {
        match self {
            Family::Listed(events) => events.has(cube),
            Family::Cycles(arrows) => is_cycle(arrows, cube),
        }
    }
}

// Whether a variable exists and has this value.
fn fits_pair(stacks: &Stacks, v: u32, x: u32) -> bool
    ensures { IsTrue result ↔ ((v < variables_of stacks.now) × (x < domain_of stacks.now v)) }
{
    v < stacks.count() && x < stacks.domain(v)
}

// Whether the cube names variables and values that the stacks have.
fn fits_cube(stacks: &Stacks, cube: &Cube) -> bool
    ensures { IsTrue result ↔ FitsStacks stacks.now cube.now }
{
    for i in 0..cube.len() {
        let (v, x) = cube.pair(i);
        if !fits_pair(stacks, v, x) {
            return false;
        }
    }
    true
}

// Whether each cube names variables and values that the stacks have.
fn fit(stacks: &Stacks, events: &Events) -> bool
    ensures { IsTrue result ↔ FamilyFits stacks.now (ListedEvents events.now) }
{
    for place in 0..events.count() {
        if !fits_cube(stacks, events.cube(place)) {
            return false;
        }
    }
    true
}

// Whether there are as many variables as the stacks have, each with one slot for each of its
// values.
fn fit_slots(stacks: &Stacks, arrows: &Arrows) -> bool
    ensures { IsTrue result ↔ FamilyFits stacks.now (CyclesOfHeads arrows.now) }
{
    let count = arrows.count();
    if count != stacks.count() {
        return false;
    }
    for v in 0..count {
        if arrows.slots(v) != stacks.domain(v) {
            return false;
        }
    }
    true
}
