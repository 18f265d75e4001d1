//! Instances for tests, given by tables: the entries of variables with two values each, listed
//! events and arrows. Also chains of events, pseudo-random numbers, and checks of cursors. A table
//! that does not describe an instance fails the test.
#![tactic(auto)]

mod chains;
mod cursors;
mod events;
mod given;
mod instances;
mod numbers;

pub use chains::chain;
pub use cursors::{are_cursors_alike, has_cursors};
pub use events::{EventRow, cube, event_rows, family};
pub use given::{keyed, rows, stacks};
pub use instances::{arrows, cycles, listed, over};
pub use numbers::below;
