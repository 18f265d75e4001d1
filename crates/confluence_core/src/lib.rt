//! Runs on one thread, their logs, and the theorems about popping.
//!
//! Contracts see units as a list of numbers, stuck events as a list of events, and records and
//! logs as in the definitions.
#![tactic(auto)]

mod closed_walks;
mod current_arrows;
mod cycle_runs;
mod cycle_search;
mod end;
mod indexed;
mod keep;
pub mod laws;
mod listed_runs;
mod listed_search;
mod log;
mod log_record;
mod looks;
mod loops;
mod one_thread;
mod reached;
mod run;
mod steps;
mod stuck;
mod ticketed;
mod tickets;
mod units;
mod walk;
mod walked;
mod work_list;

pub use closed_walks::closed_walk;
pub use current_arrows::CurrentArrows;
pub use end::End;
pub use indexed::{Indexed, IndexedEvents, IndexedFamily};
pub use keep::Keep;
pub use log::Log;
pub use log_record::Record;
pub use looks::{first_poppable, occurring};
pub use loops::cube_of;
pub use one_thread::{run_first, run_from, run_from_zeros};
pub use reached::Reached;
pub use run::Run;
pub use stuck::Stuck;
pub use ticketed::Ticketed;
pub use tickets::Tickets;
pub use units::Units;
