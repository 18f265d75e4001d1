/// The result of a call for the next line.
#[derive(Clone, Copy, Debug, PartialEq, Eq)]
pub enum Next {
    /// There is another line.
    Line,
    /// There is none: every line was returned, and the source is at its end.
    End,
}
