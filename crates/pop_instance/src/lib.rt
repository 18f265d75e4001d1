//! Cubes, families of events, instances and cursors.
//!
//! Contracts see a cube as its pairs, events as numbered cubes, and arrows as the heads of each
//! variable's slots. They see an instance as stacks with a family, an index as the places of each
//! variable, and cursors as a list of numbers.
#![tactic(auto)]

mod arrows;
mod cube;
mod cursors;
mod cycle;
mod events;
mod family;
mod index;
mod instance;
mod kept_heads;
mod pairs;
mod shifted_rows;
mod values;

pub use arrows::Arrows;
pub use cube::Cube;
pub use cursors::Cursors;
pub use events::Events;
pub use family::Family;
pub use index::Index;
pub use instance::Instance;
pub use values::Values;
