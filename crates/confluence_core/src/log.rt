ghost use Rattle.std.specs.Prelude.{◌≡◌, ◌<◌, ◌++◌, ◌∷◌, [], length, slice_get, Some, OnOk, OnErr};

use crate::Record;
use std::alloc::{AllocError, Global};
use std::marker::Model;

/// A list of records, in the order of their pops.
#[derive(Drop)]
pub struct Log {
    records: Vec<Record>,
}

impl Model for Log {
    ghost use Rattle.std.specs.Prelude.{List};
    ghost use Rattle.pop_model.specs.Logs.{LogRecord};

    ghost Value = { List LogRecord };

    ghost view = { λ a. a.records.items };
}

impl Log {
    /// A log without records. It allocates nothing.
    pub fn new(alloc: Global) -> Log
        ensures { result ≡ [] }
    {
        Log {
            records: Vec::new(alloc),
        }
    }

    /// The log of these records, in their order. It allocates nothing.
    pub fn of(records: Vec<Record>) -> Log
        ensures { result ≡ records.items }
    {
        Log { records }
    }

    /// The number of records.
    pub fn len(&self) -> u64
        ensures { result ≡ length self.now }
    {
        self.records.len() as u64
    }

    /// The record at place i of the log, counted from 0.
    pub fn at(&self, i: u64) -> &Record
        requires known { i < length self.now }
        ensures { slice_get self.now i ≡ Some result.now }
    {
        &self.records[i as usize]
    }

    /// Adds a record at the end.
    pub fn push(&mut self, popped: Record) -> Result<(), AllocError>
        ensures pushed { OnOk result (self.new ≡ self.old ++ popped ∷ []) }
        ensures kept { OnErr result (self.new ≡ self.old) }
    {
        self.records.push(popped)?;
        Ok(())
    }

    /// Adds the records of another log at the end, in their order.
    pub fn append(&mut self, other: Log) -> Result<(), AllocError>
        ensures appended { OnOk result (self.new ≡ self.old ++ other) }
        ensures kept { OnErr result (self.new ≡ self.old) }
    {
        let Log { mut records } = other;
        self.records.append(&mut records)
    }
}
