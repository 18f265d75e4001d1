// How threads that share a run are synchronised.

/// The board: what keeps the pops of several threads apart.
#[derive(Clone, Copy, Debug, PartialEq, Eq)]
pub enum BoardKind {
    /// A log of the pops under one lock.
    Lock,
    /// Lock-free claims, with one machine word for each variable.
    Words,
}
