use confluence_core::End;

/// One part of the run of a sample.
#[derive(Drop)]
pub struct Part {
    /// The state at the end of this part: the number of its pops, and the events that occur there.
    pub at: End,
    /// Whether the run was stopped before its end: some event is poppable there.
    pub is_open: bool,
}
