/// The state of a run at its cursors.
#[derive(Clone, Copy, Debug, PartialEq, Eq)]
pub enum Look {
    /// No event occurs.
    Finished,
    /// Some event occurs, and none is poppable.
    Exhausted,
    /// Some event is poppable.
    Open,
}
