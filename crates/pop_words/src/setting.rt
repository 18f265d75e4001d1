// What the values of options set in a job.
use crate::{BoardKind, Reports};
use pop_stacks::StackSpec;

/// A value that was read, and the field that it sets.
#[derive(Drop)]
pub enum Setting {
    Stacks(StackSpec),
    Height(u32),
    Grow(u32),
    Count(u32),
    Pops(u32),
    Workers(u32),
    Board(BoardKind),
    Log(bool),
    Root(u32),
    Witness((u32, u32)),
    Reports(Reports),
    Size(u32),
}
