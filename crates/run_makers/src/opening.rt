//! A run to make from zeros.
use crate::crew::Crew;
use confluence_core::Keep;
use growing_instances::GrowingInstance;
use std::alloc::Global;

/// A run to make from zeros to an end at the instance's last height.
#[derive(Drop)]
pub struct Opening {
    pub alloc: Global,
    pub crew: Crew,
    pub growing: GrowingInstance,
    pub keep: Keep,
}
