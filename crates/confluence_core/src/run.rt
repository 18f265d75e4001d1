use crate::{End, Log};

/// The result of a run.
#[derive(Drop)]
pub struct Run {
    pub end: End,
    /// The log of the run's pops, if it is kept.
    pub log: Option<Log>,
}
