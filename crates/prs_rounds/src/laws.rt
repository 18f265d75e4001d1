//! Theorems about resampling sets and rounds. The contract of each function states one.
ghost use Rattle.prs_rounds.specs.Laws.{GoesOn, OneRoundsEnd, ResampledClosed, ResampledOccur, RoundsEndLikeFirst, StopsOnTheWay};

/// The resampling set contains the events that occur. A listed event that shares a variable with
/// an event of the set is in the set or is excluded. An excluded event demands another value than
/// the current one of a shared variable, so it does not occur.
pub fn resampled_closed()
    ensures { ResampledClosed }
{}

/// A run by rounds has at most one result.
pub fn one_rounds_end()
    ensures { OneRoundsEnd }
{}

/// On an extremal instance the resampling set is the set of events that occur. Rounds of listed
/// events are exhausted exactly if the one-thread run is. If they finish, their cursors are those
/// at its end.
pub fn rounds_extremal()
    ensures set { ResampledOccur }
    ensures ends { RoundsEndLikeFirst }
{}

/// Runs by rounds that stop and continue reach the end of the whole run, however often they stop.
pub fn goes_on()
    ensures stops { StopsOnTheWay }
    ensures ends { GoesOn }
{}
