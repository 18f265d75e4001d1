use crate::row_end::RowEnd;

/// The part of a sample's run that was made for a row.
#[derive(Drop)]
pub(crate) struct RowPart {
    /// The state after the part, with the pops of this part and the events that occur there.
    pub at: RowEnd,
    /// Whether the run was stopped there. Otherwise it is at its end.
    pub is_open: bool,
}
