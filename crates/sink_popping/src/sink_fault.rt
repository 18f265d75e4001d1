use std::alloc::{AllocError, AllocFailed};
use thiserror::Error;

/// Why a graph has no events of sinks.
#[derive(Clone, Copy, Debug, PartialEq, Eq, Error)]
pub enum SinkFault {
    /// The lowest vertex without edges, from 1. It is a sink in every orientation.
    #[error("vertex {0} is isolated")]
    Isolated(u32),
    #[error("out of memory")]
    OutOfMemory,
}

impl From<AllocError> for SinkFault {
    ghost use Rattle.std.specs.Prelude.{◌≡◌};
    ghost use Rattle.sink_popping.specs.declared.sink_fault.SinkFault.TheVariants.{OutOfMemory};

    ghost from_gives = { λ _ fault. fault ≡ OutOfMemory };

    fn from(_error: AllocError) -> SinkFault {
        SinkFault::OutOfMemory
    }
}

impl<T: Drop> From<AllocFailed<T>> for SinkFault {
    ghost use Rattle.std.specs.Prelude.{◌≡◌};
    ghost use Rattle.sink_popping.specs.declared.sink_fault.SinkFault.TheVariants.{OutOfMemory};

    ghost from_gives = { λ _ fault. fault ≡ OutOfMemory };

    fn from(_error: AllocFailed<T>) -> SinkFault {
        SinkFault::OutOfMemory
    }
}
