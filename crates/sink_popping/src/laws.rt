//! The theorem about the events of sinks. The contract of the function states it.
ghost use Rattle.sink_popping.specs.Laws.{SinksExtremal};

/// Two different events that share an edge demand different directions of it.
pub fn sinks_extremal()
    ensures { SinksExtremal }
{}
