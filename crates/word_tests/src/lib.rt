//! Tests of command-line arguments, of certificates, and of runs that are stopped, by public calls
//! of `pop_words` and `run_cert`. They are in a crate above these, so that these crates are not
//! proved once more with their tests.
#![tactic(auto)]

#[cfg(test)]
mod certificates;
#[cfg(test)]
mod words;
