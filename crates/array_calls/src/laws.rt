//! Theorems on calls that are stopped and continued. Each is the contract of a function.
ghost use Rattle.array_calls.specs.Laws.{RoundRowGoesOn, TreeRowGoesOn, ValueRowGoesOn};

/// A call for trees may continue from the row of cursors at which another call stopped. It reaches
/// the row of the run that was not stopped, and the pops of both calls sum to those of that run.
pub fn tree_row_goes_on()
    ensures { TreeRowGoesOn }
{}

/// The theorem of `tree_row_goes_on` holds for a call for values of an extremal instance.
pub fn value_row_goes_on()
    ensures { ValueRowGoesOn }
{}

/// The theorem of `tree_row_goes_on` holds for a call for values by rounds, of any listed events,
/// with rounds in place of pops.
pub fn round_row_goes_on()
    ensures { RoundRowGoesOn }
{}
