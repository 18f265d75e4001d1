//! Theorems about the event of a unit. The contract of each function states one.
ghost use Rattle.lock_board.specs.Laws.{AbsentExactly, OneEvent};

/// An attempt finds no event at a unit exactly if no event that belongs to the unit occurs.
pub fn absent_exactly()
    ensures { AbsentExactly }
{}

/// At most one event belongs to a unit.
pub fn one_event()
    ensures { OneEvent }
{}
