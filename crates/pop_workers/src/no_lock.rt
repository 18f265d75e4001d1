use crate::book_work::BookWork;
use crate::lock::Lock;
use crate::opening::opening_from;
use confluence_core::Reached;
use std::alloc::AllocError;

/// The lock of callers that have none. Nobody waits for it, and no worker pops under it: the
/// calling thread then makes the whole run.
#[derive(Drop)]
pub struct NoLock;

impl Lock for NoLock {
    ghost fits = { λ _. Unit {0} };

    fn work(&self, work: BookWork) -> Result<Reached, AllocError> {
        let keep = work.reached.keep();
        opening_from(work.alloc, work.instance, &work.reached.cursors, keep)
    }
}
