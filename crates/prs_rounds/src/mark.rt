/// The state of an event in the search for the resampling set.
#[derive(Clone, Copy, PartialEq, Eq)]
pub(crate) enum Mark {
    /// It was not judged yet.
    Free,
    /// It is in the set.
    Joined,
    /// It was judged and is not in the set.
    Excluded,
}
