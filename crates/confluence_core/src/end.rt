use crate::Stuck;
use pop_instance::{Cursors, Values};

/// The end of a run.
#[derive(Drop)]
pub struct End {
    /// The cursors at the end.
    pub cursors: Cursors,
    /// The number of pops.
    pub pops: u64,
    /// Every event that occurs at the cursors, by rising unit.
    pub stuck: Stuck,
    /// For each variable the value at its cursor.
    pub values: Values,
}
