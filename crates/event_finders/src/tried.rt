/// The result of a try. Variables, cursors and tickets count from 0.
#[derive(Clone, Copy, Debug, PartialEq, Eq)]
pub enum Tried {
    /// An event was popped, with this ticket. If a walk popped several cycles, it is the ticket of
    /// the last.
    Popped(u64),
    /// There is nothing to pop. The result is a variable that shows this, and its cursor. For a
    /// unit, the variable was claimed and has another value than the event demands. For a walk, it
    /// is the start, and is settled.
    Cleared(u32, u32),
    /// The event occurs and cannot be popped. The result is its lowest variable that is at its
    /// last entry, and the cursor.
    Stuck(u32, u32),
    /// A claim failed. The result is the variable and its word: bit 63 is set, and bits 0 to 31
    /// are the cursor. A pass that is the only one never gets it.
    Busy(u32, u64),
    /// The unit had no mark.
    Idle,
    /// Out of memory.
    OutOfMemory,
}
