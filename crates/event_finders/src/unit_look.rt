// The result of claiming an event's variables in their order. Places count pairs of the event,
// from 0.
pub(crate) enum UnitLook {
    // All are held, and the event is poppable.
    Poppable,
    // All are held, and the event occurs. The result is the lowest variable at its last entry, and
    // its cursor.
    AtLast(u32, u32),
    // Place, variable and cursor of the first pair with another value. The variable is held, and
    // so are those before it.
    Differs(u32, u32, u32),
    // Place, variable and word of the first pair with a variable that is busy. The variables
    // before it are held.
    Busy(u32, u32, u64),
}
