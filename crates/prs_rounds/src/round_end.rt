use confluence_core::Stuck;
use pop_instance::Cursors;

/// The end of a run by rounds.
#[derive(Drop)]
pub struct RoundEnd {
    /// The cursors after the last round.
    pub cursors: Cursors,
    /// The number of rounds.
    pub rounds: u64,
    /// Every event that occurs at the cursors, by rising unit. It is empty if the run is finished.
    pub stuck: Stuck,
    /// For each variable the value at its cursor.
    pub values: Vec<u32>,
    /// The lowest variable of the resampling set that is at its last entry, counted from 0, if the
    /// run is exhausted.
    pub short: Option<u32>,
}
