//! A board of lock-free words. Passes claim variables on it and pop events, in the threads of the
//! callers. No call waits.
//!
//! Contracts see a board as its instance and its start, and a pass as the parts of its view. The
//! rule that holds between any two steps of any passes is in `specs/Machine.antt`.
#![tactic(auto)]

mod board;
mod claim;
mod claiming;
mod closed;
mod closing;
mod held;
mod kept_log;
mod layout;
mod logging;
mod marking;
mod opening;
mod pass;
mod plays;
mod popping;
mod splitting;
mod starts;
mod steps;
mod view;

pub use board::Board;
pub use claim::Claim;
pub use closed::Closed;
pub use opening::Opening;
pub use pass::Pass;
pub use view::View;
