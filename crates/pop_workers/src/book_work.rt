use confluence_core::Reached;
use pop_instance::Instance;
use std::alloc::Global;

/// Work for workers that share a book: a number of them, and the state of a run of an instance,
/// from which they go on.
#[derive(Drop)]
pub struct BookWork<'t> {
    pub alloc: Global,
    pub workers: u32,
    pub instance: &'t Instance,
    pub reached: &'t Reached,
}
