/// The result of a call that fills rows.
#[derive(Clone, Copy, Debug, PartialEq, Eq)]
pub enum Outcome {
    /// Each row is at its end, and no event occurs in any.
    Samples,
    /// Each row is at its end, and events occur in some row: stacks have no more entries.
    Exhausted,
    /// The budget was spent before the end of this row. Rows before it are at their ends.
    Stopped(usize),
}
