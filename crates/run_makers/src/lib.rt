//! The makers of runs, for instances with stacks that may grow: several threads, by closures, or
//! the calling thread alone.
#![tactic(auto)]

mod alone;
mod by;
mod crew;
mod maker;
mod on_threads;
mod opening;
mod stages;
mod stretch;

pub use alone::Alone;
pub use by::By;
pub use crew::Crew;
pub use maker::Maker;
pub use on_threads::{lock_of, makers_of, run_in_stages};
pub use opening::Opening;
pub use stages::Stages;
pub use stretch::Stretch;
