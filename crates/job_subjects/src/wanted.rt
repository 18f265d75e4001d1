//! What is to be made of an input.
use crate::origin::StackOrigin;
use pop_words::Command;

/// What is to be made of an input: what a command samples, over stacks from this source. The root
/// is used only for a tree of a graph, and the side only for a grid.
#[derive(Drop)]
pub struct Wanted {
    /// The command: one that samples.
    pub command: Command,
    /// The source of the stack entries.
    pub origin: StackOrigin,
    /// The requested number of samples of a batch, or None if there is no batch.
    pub count: Option<u32>,
    /// The root, which must be a vertex; vertices count from 1.
    pub root: u32,
    /// The number of rows, and of columns, of the grid, from 1 to 2048.
    pub side: u32,
}
