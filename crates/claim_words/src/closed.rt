use confluence_core::{Tickets, Units};
use pop_instance::Cursors;

/// The final state of a board.
#[derive(Drop)]
pub struct Closed {
    /// The cursors. The log leads to them from the board's start.
    pub cursors: Cursors,
    /// The number of pops.
    pub pops: u64,
    /// The tickets from 0 up to, but without, `pops`, in any order, if a log is kept.
    pub log: Option<Tickets>,
    /// The units at which events may still be poppable, rising. They are exactly the marked units
    /// of a listed family, or the variables of a cycle family that are not settled.
    pub suspects: Units,
}
