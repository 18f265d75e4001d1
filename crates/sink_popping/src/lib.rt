//! The events of sink-free orientations. Each edge is a variable, and its value is its direction.
//! Each vertex that can be a sink is an event. Contracts see the events as numbered cubes.
#![tactic(auto)]

mod events;
mod index;
pub mod laws;
mod loops;
mod places;
mod sink_cubes;
mod sink_fault;

pub use events::sinks;
pub use index::indexed_sinks;
pub use sink_fault::SinkFault;
