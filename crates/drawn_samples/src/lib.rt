//! The distribution of samples. Consider all tables of numbers with runs that end with a sample.
//! The fraction of them that end with a sample of some set is the fraction of that set among all
//! samples, weighted by shares. No code runs: the theorems are the contracts of functions with an
//! empty body.
#![tactic(auto)]

mod laws;

pub use laws::{
    drawn_by_logs, drawn_rounds, drawn_rounds_by, drawn_samples, drawn_samples_at, grown_runs,
    independent_of_logs, keyed_mixed, keyed_wanted_rounds, keyed_wanted_runs, may_end,
    mixed_rounds, mixed_runs, retried_rounds, retried_runs, round_statistics, run_numbers,
    run_statistics, taller_rounds, taller_runs, wanted_rounds, wanted_runs,
};
