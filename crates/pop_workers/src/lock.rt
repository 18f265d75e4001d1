ghost use Rattle.std.specs.Prelude.{IfOk};
ghost use Rattle.pop_workers.specs.Locks.{MayWork, IsWorkOf};

use crate::book_work::BookWork;
use confluence_core::Reached;
use std::alloc::AllocError;

/// A lock, under which workers share a book of pops. Whoever has one may wait for it. A call that
/// takes an `Option` of it waits for no lock if it gets None, or one that does not wait.
pub trait Lock {
    // What must be known of a lock before it is called.
    ghost fits: { Self → Type 0 };

    /// The stretch that the workers add to the run. The error is returned only if memory ran out.
    fn work(&self, work: BookWork) -> Result<Reached, AllocError>
        requires fits { fits self.now }
        requires may { MayWork work }
        ensures { IfOk result (IsWorkOf work.entry) };
}
