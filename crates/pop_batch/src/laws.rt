//! Theorems about batches and about runs that are stopped. The contract of each function states
//! one.
ghost use Rattle.pop_batch.specs.Laws.{OneBatch, OnePartEnd, StopsKeepEnd};

/// The first n samples of an extremal instance have at most one list of ends, however they are
/// divided among threads.
pub fn one_batch()
    ensures { OneBatch }
{}

/// A sample of an extremal instance has at most one end from given cursors.
pub fn one_part_end()
    ensures { OnePartEnd }
{}

/// The run of a sample of an extremal instance may be stopped anywhere and continued from there.
/// It reaches the end of the run that is not stopped. The numbers of pops of all parts sum to that
/// of this run.
pub fn stops_keep_end()
    ensures { StopsKeepEnd }
{}
