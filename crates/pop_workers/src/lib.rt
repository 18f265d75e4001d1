//! Workers that share a board of pops, on threads of their own, to the end of the one-thread run.
//! The board is a book under a lock, or words that they claim. Stacks may grow on the way.
#![tactic(auto)]

mod attempts;
mod book_work;
mod claimed;
mod found;
mod gate;
mod growing;
mod jobs;
mod lock;
mod lock_by;
mod locked;
mod makers;
mod no_lock;
mod opening;
mod rounding;
mod searching;
mod shared;
mod tools;
mod turns;
mod words;
mod workers;
mod working;

pub use book_work::BookWork;
pub use claimed::sample_claimed;
pub use confluence_core::Run as Outcome;
pub use gate::{Gate, NoGate};
pub use growing::{sample_grown, sample_in_stages};
pub use lock::Lock;
pub use lock_by::LockBy;
pub use locked::{sample_locked, work_locked};
pub use makers::Makers;
pub use no_lock::NoLock;
pub use opening::zeros_of;
pub use words::work_claimed;
pub use workers::Workers;
