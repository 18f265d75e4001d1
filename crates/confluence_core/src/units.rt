ghost use Rattle.std.specs.Prelude.{◌≡◌, ◌<◌, ◌++◌, ◌∷◌, [], length, slice_get, Some, IfOk, OnOk, OnErr, IsTrue, ◌↔◌};
ghost use Rattle.std.specs.List.{range_with_len};

use std::alloc::{AllocError, Global};
use std::marker::Model;

/// A list of units. Units count from 0.
#[derive(Drop)]
pub struct Units {
    units: Vec<u32>,
}

impl Model for Units {
    ghost use Rattle.std.specs.Prelude.{ℕ, List};

    ghost Value = { List ℕ };

    ghost view = { λ a. a.units.items };
}

impl Units {
    /// A list without units. It allocates nothing.
    pub fn new(alloc: Global) -> Units
        ensures { result ≡ [] }
    {
        Units {
            units: Vec::new(alloc),
        }
    }

    /// All units below a count, rising.
    pub fn all(alloc: Global, count: u32) -> Result<Units, AllocError>
        ensures { IfOk result (λ units. units ≡ range_with_len 0 count) }
    {
        let mut units = Units::new(alloc);
        for unit in 0..count {
            units.push(unit)?;
        }
        Ok(units)
    }

    /// A list of these units. It allocates nothing.
    pub fn of(units: Vec<u32>) -> Units
        ensures { result ≡ units.items }
    {
        Units { units }
    }

    /// The number of units.
    pub fn len(&self) -> u64
        ensures { result ≡ length self.now }
    {
        self.units.len() as u64
    }

    /// Whether there is no unit.
    pub fn is_empty(&self) -> bool
        ensures { IsTrue result ↔ (self.now ≡ []) }
    {
        self.units.is_empty()
    }

    /// The unit at place i of the list, counted from 0.
    pub fn at(&self, i: u64) -> u32
        requires known { i < length self.now }
        ensures { slice_get self.now i ≡ Some result }
    {
        self.units[i as usize]
    }

    // The units as a slice.
    pub(crate) fn as_slice(&self) -> &[u32]
        ensures { result.now ≡ self.now }
    {
        &self.units
    }

    /// Adds a unit at the end.
    pub fn push(&mut self, unit: u32) -> Result<(), AllocError>
        ensures pushed { OnOk result (self.new ≡ self.old ++ unit ∷ []) }
        ensures kept { OnErr result (self.new ≡ self.old) }
    {
        self.units.push(unit)?;
        Ok(())
    }
}
