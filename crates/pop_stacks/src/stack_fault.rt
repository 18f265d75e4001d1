use thiserror::Error;

/// Why stacks cannot be made: the first fault in the order of these variants, at its lowest place.
/// Variables and entries count from 0.
#[derive(Clone, Copy, Debug, PartialEq, Eq, Error)]
pub enum StackFault {
    /// The number of rows that were given, and the number of variables.
    #[error("{0} rows for {1} variables")]
    RowCount(u32, u32),
    /// The lowest variable whose row has no entry.
    #[error("the row of variable {0} has no entry")]
    EmptyRow(u32),
    /// The lowest variable with an entry that is not below the number of its weights, and the
    /// first such entry.
    #[error("entry {1} of variable {0} is no value of it")]
    ValueTooLarge(u32, u32),
    /// The lowest variable with weights that sum to more than 2^32 - 1.
    #[error("the weights of variable {0} pass 32 bits")]
    WeightSum(u32),
    /// Out of memory. `Stacks::new` uses the memory that it is passed, and never returns this.
    #[error("out of memory")]
    OutOfMemory,
}
