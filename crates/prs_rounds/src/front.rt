use pop_instance::Cursors;
use pop_stacks::Stacks;

/// The front of a run: the entry of each variable at its cursor.
#[derive(Clone, Copy)]
pub(crate) struct Front<'a> {
    pub stacks: &'a Stacks,
    pub cursors: &'a Cursors,
}
