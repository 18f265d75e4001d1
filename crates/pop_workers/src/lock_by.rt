use crate::book_work::BookWork;
use crate::lock::Lock;
use confluence_core::Reached;
use std::alloc::AllocError;

/// A lock by a closure on `work_locked`. The closure has a runtime that may wait, and a gate. So
/// the calls that take the lock need no such runtime of their own.
#[derive(Drop)]
pub struct LockBy<'a, A> {
    pub work: &'a A,
}

impl<'a, A: Fn(BookWork) -> Result<Reached, AllocError>> Lock for LockBy<'a, A> {
    ghost use Rattle.std.specs.Prelude.{IfOk};
    ghost use Rattle.pop_workers.specs.Locks.{MayWork, IsWorkOf};

    // The closure may be called, and keeps the contract.
    ghost fits = { λ by. ((w : _) → MayWork w → A.pre by.work.now w)
        × ((w r : _) → A.post by.work.now w r → IfOk r (IsWorkOf w)) };

    fn work(&self, work: BookWork) -> Result<Reached, AllocError> {
        (self.work)(work)
    }
}
