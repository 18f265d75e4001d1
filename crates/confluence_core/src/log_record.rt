ghost use Rattle.std.specs.Prelude.{◌≡◌, ◌<◌, length, slice_get, Some, IfOk};
ghost use Rattle.pop_model.specs.Popping.{NamesBelow};
ghost use Rattle.pop_model.specs.Logs.{entries_at};
ghost use Rattle.confluence_core.specs.Records.{record_at};

use pop_instance::{Cube, Cursors};
use std::alloc::{AllocError, Global};
use std::marker::Model;

/// A record of a pop: an event under its unit, and for each of its variables the entry that the
/// pop used.
#[derive(Drop)]
pub struct Record {
    unit: u32,
    cube: Cube,
    entries: Vec<u32>,
}

impl Model for Record {
    ghost use Rattle.std.specs.Prelude.{◌≡◌, length};
    ghost use Rattle.pop_model.specs.Logs.{LogRecord};

    ghost Value = { LogRecord };

    ghost view = { λ a. record {
      event = record { unit = a.unit; cube = a.cube };
      entries = a.entries.items;
    } };

    ghost invariant = { λ a. length a.entries.items ≡ length a.cube };
}

impl Record {
    /// The record of an event and its entries, one for each pair of the cube in its order.
    pub fn new(unit: u32, cube: Cube, entries: Vec<u32>) -> Record
        requires each { length entries.items ≡ length cube }
        ensures { result ≡ record {
          event = record { unit = unit; cube = cube };
          entries = entries.items;
        } }
    {
        Record {
            unit,
            cube,
            entries,
        }
    }

    /// The record of an event that is popped at these cursors, which are the entries that it uses.
    pub fn of(alloc: Global, unit: u32, cube: Cube, cursors: &Cursors) -> Result<Record, AllocError>
        requires known { NamesBelow cube (length cursors.now) }
        ensures { IfOk result (λ popped. popped ≡ record_at unit cube cursors.now) }
    {
        let entries = entries_of(alloc, &cube, cursors)?;
        Ok(Record::new(unit, cube, entries))
    }

    /// The record of an event that is popped at these cursors, with a copy of the event's cube.
    pub fn at(
        alloc: Global,
        unit: u32,
        cube: &Cube,
        cursors: &Cursors,
    ) -> Result<Record, AllocError>
        requires known { NamesBelow cube.now (length cursors.now) }
        ensures { IfOk result (λ popped. popped ≡ record_at unit cube.now cursors.now) }
    {
        Record::of(alloc, unit, cube.copy(alloc)?, cursors)
    }

    /// A copy of this record.
    pub fn copy(&self, alloc: Global) -> Result<Record, AllocError>
        ensures { IfOk result (λ copy. copy ≡ self.now) }
    {
        let entries = Vec::from_slice(alloc, &self.entries)?;
        Ok(Record::new(self.unit, self.cube.copy(alloc)?, entries))
    }

    /// The unit of the event.
    pub fn unit(&self) -> u32
        ensures { result ≡ self.now.event.unit }
    {
        self.unit
    }

    /// The cube of the event. It has as many pairs as the record has entries.
    pub fn cube(&self) -> &Cube
        ensures cube { result.now ≡ self.now.event.cube }
        ensures each { length self.now.entries ≡ length self.now.event.cube }
    {
        &self.cube
    }

    /// The entry that was used for the variable of pair i. Pairs count from 0.
    pub fn entry(&self, i: u32) -> u32
        requires known { i < length self.now.event.cube }
        ensures { slice_get self.now.entries i ≡ Some result }
    {
        self.entries[i as usize]
    }
}

// The entries of a cube's variables at these cursors.
fn entries_of(alloc: Global, cube: &Cube, cursors: &Cursors) -> Result<Vec<u32>, AllocError>
    requires known { NamesBelow cube.now (length cursors.now) }
    ensures { IfOk result (λ entries. entries.items ≡ entries_at cursors.now cube.now) }
{
    let mut entries = Vec::with_capacity(alloc, cube.len() as usize)?;
    for i in 0..cube.len() {
        let (v, _) = cube.pair(i);
        entries.push(cursors.get(v))?;
    }
    Ok(entries)
}
