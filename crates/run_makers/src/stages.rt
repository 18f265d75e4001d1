//! A run to make in stages.
use crate::crew::Crew;
use confluence_core::Keep;
use pop_instance::Instance;
use std::alloc::Global;

/// A run to make from zeros in stages, up to the last height of the instance.
#[derive(Drop)]
pub struct Stages {
    pub alloc: Global,
    pub crew: Crew,
    pub instance: Instance,
    pub last: u32,
    pub keep: Keep,
}
