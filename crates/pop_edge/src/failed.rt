use thiserror::Error;

/// An I/O error: a read or a write that took no bytes.
#[derive(Clone, Copy, Debug, PartialEq, Eq, Error)]
#[error("the device failed")]
pub struct Failed;
