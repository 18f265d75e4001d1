//! Why arrays have no samples.
use graph_read::EndsFault;
use std::alloc::AllocError;

/// Why arrays have no samples. Vertices count from 0.
#[derive(Clone, Copy, Debug, PartialEq, Eq)]
pub enum ArrayRefusal {
    /// The arrays are not a graph.
    NoGraph(EndsFault),
    /// The root is not a vertex.
    NoRoot,
    /// The lowest vertex that is not connected to the root.
    CutOff(u32),
    /// The lowest vertex with too large a sum of weights.
    TooHeavy(u32),
    /// The lowest vertex without edges.
    Isolated(u32),
    /// Out of memory.
    OutOfMemory,
}

impl From<AllocError> for ArrayRefusal {
    ghost use Rattle.std.specs.Prelude.{◌≡◌};
    ghost use Rattle.array_calls.specs.declared.refusal.ArrayRefusal.TheVariants.{OutOfMemory};

    ghost from_gives = { λ _ refusal. refusal ≡ OutOfMemory };

    fn from(_: AllocError) -> Self {
        ArrayRefusal::OutOfMemory
    }
}

impl From<EndsFault> for ArrayRefusal {
    ghost use Rattle.std.specs.Prelude.{◌≡◌};
    ghost use Rattle.array_calls.specs.Refused.{ungraphed};

    ghost from_gives = { λ fault refusal. refusal ≡ ungraphed fault };

    fn from(fault: EndsFault) -> Self {
        match fault {
            EndsFault::OutOfMemory => ArrayRefusal::OutOfMemory,
            fault => ArrayRefusal::NoGraph(fault),
        }
    }
}
