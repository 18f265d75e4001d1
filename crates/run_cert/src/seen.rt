use crate::Look;
use confluence_core::Stuck;

/// The state of a run at its cursors.
#[derive(Drop)]
pub struct Seen {
    pub look: Look,
    /// Every event that occurs, by rising unit.
    pub stuck: Stuck,
}
