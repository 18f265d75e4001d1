// The result of claiming one variable of an event.
pub(crate) enum VariableLook {
    // It has the event's value, at this cursor. It is held.
    Fits(u32),
    // It has another value, at this cursor. It is held.
    Differs(u32),
    // It is busy; this is its word.
    Busy(u64),
}
