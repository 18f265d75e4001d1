//! The result of a command.

/// A status, and the whole output that belongs to it.
#[derive(Drop)]
pub struct Answer {
    pub status: u8,
    pub text: Vec<u8>,
}
