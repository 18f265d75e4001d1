use crate::Seen;
use confluence_core::Log;
use pop_instance::Cursors;

/// A run from zeros, up to where it was stopped or ended.
#[derive(Drop)]
pub struct Part {
    /// The cursors at that point.
    pub cursors: Cursors,
    /// The log of its pops.
    pub log: Log,
    /// The state at the cursors.
    pub seen: Seen,
}
