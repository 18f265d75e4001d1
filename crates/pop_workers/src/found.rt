/// The result of a worker's search at a unit.
#[derive(Clone, Copy)]
pub(crate) enum Found {
    /// An event was popped, and more may be poppable there.
    Popped,
    /// No event of the unit is poppable. For a walk, no poppable cycle can be reached from its
    /// start.
    Done,
    /// A variable was claimed by another pass.
    Met,
    /// Out of memory.
    NoMemory,
}
