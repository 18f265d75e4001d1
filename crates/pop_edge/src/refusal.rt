ghost use Rattle.std.specs.Prelude.{◌≡◌};
ghost use Rattle.pop_edge.specs.declared.refusal.ReadRefusal.TheVariants.{OutOfMemory, ReadFault};

use crate::Failed;
use std::alloc::{AllocError, AllocFailed};
use thiserror::Error;

/// Why an input was rejected: the first error in the order of the input. Lines and clauses count
/// from 1.
#[derive(Clone, Copy, Debug, PartialEq, Eq, Error)]
pub enum ReadRefusal {
    /// A line that the grammar does not allow, and the code of what is wrong in it.
    #[error("line {0} is malformed, code {1}")]
    Malformed(u64, u32),
    /// The number of clauses that the header declares, and how many there are. It is reported only
    /// after every line was read.
    #[error("{0} clauses are declared, and there are {1}")]
    Count(u32, u32),
    /// The lowest number of a clause without literals. It is reported last.
    #[error("clause {0} is empty")]
    EmptyClause(u32),
    /// The kind of a limit, and the line that exceeds it. Kinds: 1 bytes of the input, 2 variables
    /// or vertices, 3 clauses, 4 literals, 5 edges.
    #[error("limit {0} is passed in line {1}")]
    Limit(u32, u64),
    /// The source failed.
    #[error("the source failed")]
    ReadFault,
    #[error("out of memory")]
    OutOfMemory,
}

impl From<AllocError> for ReadRefusal {
    ghost from_gives = { λ _ e. e ≡ OutOfMemory };

    fn from(_e: AllocError) -> ReadRefusal {
        ReadRefusal::OutOfMemory
    }
}

impl<T: Drop> From<AllocFailed<T>> for ReadRefusal {
    ghost from_gives = { λ _ e. e ≡ OutOfMemory };

    fn from(_e: AllocFailed<T>) -> ReadRefusal {
        ReadRefusal::OutOfMemory
    }
}

impl From<Failed> for ReadRefusal {
    ghost from_gives = { λ _ e. e ≡ ReadFault };

    fn from(_e: Failed) -> ReadRefusal {
        ReadRefusal::ReadFault
    }
}
