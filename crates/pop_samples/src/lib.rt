//! The exact distribution of popping. Of all stacks of given heights, as many have runs that end
//! with one sample as with another. Their weights are in the ratio of the samples' weights. No
//! code runs: the theorems are the contracts of functions with an empty body.
#![tactic(auto)]

mod laws;

pub use laws::{
    entry_shares, exact_samples, exact_samples_at, exchanged_ends, exchanged_samples,
    finishes_exactly, finishes_first, listed_samples, listed_samples_at, numbered_entries,
    reached_samples, same_pops,
};
