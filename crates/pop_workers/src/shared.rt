use pop_instance::{Index, Instance};
use std::alloc::Global;
use worker_hints::{Other, Range};

/// What all workers on a board of claim words share.
#[derive(Drop)]
pub(crate) struct Shared<'s, 'x, W: Range> {
    pub alloc: Global,
    pub instance: &'s Instance,
    /// For each variable the events that name it, if the family is listed.
    pub index: &'x Option<Index>,
    /// The deques of all workers, by their numbers.
    pub all: Vec<Other<W>>,
}
