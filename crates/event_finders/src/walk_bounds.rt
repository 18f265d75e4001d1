/// The bounds of a walk that may pop several cycles.
#[derive(Clone, Copy)]
pub struct WalkBounds {
    /// The variable at its start, counted from 0.
    pub start: u32,
    /// The largest number of cycles that it pops, at least 1.
    pub pops: u64,
}
