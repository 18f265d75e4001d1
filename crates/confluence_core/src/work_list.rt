ghost use Rattle.std.specs.Prelude.{◌≡◌, ◌<◌, ◌∷◌, [], length, OnOk, IfOk, MatchOption, All, Contains, ℕ, slice_index_or};
ghost use Rattle.pop_model.specs.Popping.{NamesBelow};
ghost use Rattle.confluence_core.specs.WorkList.{Gains, Gives, GainsSharing};

use crate::Units;
use pop_instance::{Cube, Index};
use std::alloc::{AllocError, Global};
use std::marker::Model;

/// The units that still have to be judged. Each is in the list at most once.
#[derive(Drop)]
pub struct WorkList {
    waiting: Vec<u32>,
    // For each unit whether it is in the list.
    marks: Vec<bool>,
}

impl Model for WorkList {
    ghost use Rattle.std.specs.Prelude.{length};
    ghost use Rattle.confluence_core.specs.WorkList.{Waiting, AreMarked};

    ghost Value = { Waiting };

    ghost view = { λ a. record { units = length a.marks.items; list = a.waiting.items } };

    ghost invariant = { λ a. AreMarked a.waiting.items a.marks.items };
}

impl WorkList {
    /// An empty list for this many units.
    pub fn new(alloc: Global, units: u32) -> Result<WorkList, AllocError>
        ensures { IfOk result (λ work. work ≡ record { units = units; list = [] }) }
    {
        Ok(WorkList {
            waiting: Vec::new(alloc),
            marks: vec![in alloc; false; units as usize]?,
        })
    }

    /// A list for this many units, with these units in it.
    pub fn of(alloc: Global, units: u32, waiting: &[u32]) -> Result<WorkList, AllocError>
        requires known { All (λ u. u < units) waiting.now }
        ensures units { IfOk result (λ work. work.units ≡ units) }
        ensures waits { IfOk result (λ work. All (Contains work.list) waiting.now) }
    {
        let mut work = WorkList::new(alloc, units)?;
        work.add_all(waiting)?;
        Ok(work)
    }

    /// Removes a unit from the list and returns it.
    pub fn take(&mut self) -> Option<u32>
        ensures { MatchOption result
            ((self.old.list ≡ []) × (self.new ≡ self.old)) (Gives self.old self.new) }
    {
        let unit = self.waiting.pop()?;
        self.marks[unit as usize] = false;
        Some(unit)
    }

    /// Adds a unit to the list, unless it is there already.
    pub fn add(&mut self, unit: u32) -> Result<(), AllocError>
        requires known { unit < self.old.units }
        ensures { OnOk result (Gains self.old self.new (unit ∷ [])) }
    {
        if self.marks[unit as usize] {
            return Ok(());
        }
        self.waiting.push(unit)?;
        self.marks[unit as usize] = true;
        Ok(())
    }

    /// Adds units to the list.
    pub fn add_all(&mut self, units: &[u32]) -> Result<(), AllocError>
        requires known { All (λ u. u < self.old.units) units.now }
        ensures { OnOk result (Gains self.old self.new units.now) }
    {
        for unit in units {
            self.add(*unit)?;
        }
        Ok(())
    }

    /// Adds the units of all events that share a variable with the cube.
    pub fn add_sharing(&mut self, index: &Index, cube: &Cube) -> Result<(), AllocError>
        requires known { NamesBelow cube.now (length index.now) }
        requires units { (v : ℕ) → v < length index.now
            → All (λ u. u < self.old.units) (slice_index_or index.now v []) }
        ensures { OnOk result (GainsSharing self.old self.new index.now cube.now) }
    {
        for i in 0..cube.len() {
            let (v, _) = cube.pair(i);
            self.add_all(index.at(v))?;
        }
        Ok(())
    }

    /// The units in the list. It allocates nothing.
    pub fn into_units(self) -> Units
        ensures units { result ≡ self.list }
        ensures known { All (λ u. u < self.units) result }
    {
        let WorkList { waiting, marks: _ } = self;
        Units::of(waiting)
    }
}
