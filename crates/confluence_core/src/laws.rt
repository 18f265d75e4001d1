//! Theorems about popping on extremal instances. The contract of each function states one.
ghost use Rattle.confluence_core.specs.Laws.{Diamond, UniqueEnd, EqualRecords, ExhaustedExactly, TallerLegal, RaisedExtends, StretchesJoin, ReachedRaised};

/// Suppose that two different events are poppable together. Then they share no variable, each
/// remains poppable after the pop of the other, and both orders lead to the same cursors.
pub fn diamond()
    ensures { Diamond }
{}

/// Two legal logs from the same cursors to an end lead to the same cursors and have the same
/// length.
pub fn unique_end()
    ensures { UniqueEnd }
{}

/// Two legal logs from the same cursors to an end have the same records, each equally often.
pub fn equal_records()
    ensures { EqualRecords }
{}

/// Some event occurs at an end exactly if no legal log leads to cursors at which none occurs.
pub fn exhausted_exactly()
    ensures { ExhaustedExactly }
{}

/// A legal log stays legal if each stack has the same entries and possibly more. So it also stays
/// legal if the stacks are raised.
pub fn taller_legal()
    ensures legal { TallerLegal }
    ensures raised { RaisedExtends }
{}

/// Two stretches of a run are one stretch if the second begins at the end of the first. The state
/// of a run is also a state of the run over raised stacks, with the events that occur there as its
/// suspects.
pub fn stretches_join()
    ensures joined { StretchesJoin }
    ensures raised { ReachedRaised }
{}
