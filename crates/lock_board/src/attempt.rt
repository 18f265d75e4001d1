/// The result of an attempt at a unit.
#[derive(Clone, Copy, Debug, PartialEq, Eq)]
pub enum Attempt {
    /// The event was poppable, and was popped.
    Popped,
    /// There is no event: the listed event does not occur, or the arrows lead to the root.
    Absent,
    /// The event occurs, and one of its variables is at its last entry.
    Stuck,
    OutOfMemory,
}
