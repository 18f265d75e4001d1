ghost use Rattle.std.specs.Prelude.{◌≡◌, ◌<◌, [], IfOk, OnOk, length, replicate};
ghost use Rattle.pop_model.specs.Runs.{IsEnd, IsStuckList};
ghost use Rattle.pop_stacks.specs.Readers.{Belongs};
ghost use Rattle.confluence_core.specs.CycleTables.{cycles, AreCursors};
ghost use Rattle.confluence_core.specs.Walks.{HasRoom, IsSettled};
ghost use Rattle.confluence_core.specs.LoopErasedWalks.{Stands, StaySettled};
ghost use Rattle.confluence_core.specs.Steps.{RunsOn};

use crate::current_arrows::CurrentArrows;
use crate::loops::mark_all;
use crate::steps::SETTLED;
use crate::walked::Walked;
use pop_stacks::Reader;
use std::alloc::{AllocError, Global};

/// A loop-erased walk along current arrows (Wilson 1996; Propp and Wilson 1998), which pops the
/// cycles that it closes.
#[derive(Drop)]
pub(crate) struct Walk<'a> {
    pub current: CurrentArrows<'a>,
    /// The state of the run after the walks so far.
    pub walked: Walked,
    /// `SETTLED` for each settled variable. For each variable on the path it is its place there
    /// plus 1. Any other mark has no meaning.
    pub marks: Vec<u32>,
    /// The first `depth` places are the path.
    pub path: Vec<u32>,
    pub depth: usize,
    /// The variable that the path leads to.
    pub at: u32,
}

impl<'a> Walk<'a> {
    /// No walk yet: no variable is settled.
    pub fn new(
        alloc: Global,
        current: CurrentArrows<'a>,
        walked: Walked,
    ) -> Result<Walk<'a>, AllocError>
        requires cursors { AreCursors current walked.cursors }
        requires none_stuck { walked.stuck ≡ [] }
        requires room { HasRoom current walked }
        ensures stands { IfOk result Stands }
        ensures current { IfOk result (λ walk. walk.current ≡ current.entry) }
        ensures walked { IfOk result (λ walk. walk.walked ≡ walked) }
    {
        let count = current.count() as usize;
        let (marks, path) = zeros_twice(alloc, count)?;
        Ok(Walk {
            current,
            walked,
            marks,
            path,
            depth: 0,
            at: 0,
        })
    }

    // Walks from a variable until it is settled, and settles all variables that were met.
    fn settle(&mut self, alloc: Global, reader: &mut Reader, start: u32) -> Result<(), AllocError>
        requires stands { Stands self.old }
        requires known { start < length self.old.current.heads }
        requires belongs { Belongs self.old.current.stacks reader.old }
        ensures stands { OnOk result (Stands self.new) }
        ensures runs { OnOk result (RunsOn self.old.current self.old.walked self.new.walked) }
        ensures settled { OnOk result (IsSettled self.new.marks.items start) }
        ensures stay { OnOk result (StaySettled self.old self.new) }
        ensures current { OnOk result (self.new.current ≡ self.old.current) }
        ensures reader { reader.new ≡ reader.old }
    {
        if self.marks[start as usize] == SETTLED {
            return Ok(());
        }
        self.depth = 0;
        self.at = start;
        'walk: while self.advance(alloc, reader)? {}
        mark_all(&mut self.marks, &self.path[..self.depth + 1], SETTLED);
        Ok(())
    }
}

// Two lists of `count` zeros.
fn zeros_twice(alloc: Global, count: usize) -> Result<(Vec<u32>, Vec<u32>), AllocError>
    ensures first { IfOk result (λ both. both.0.items ≡ replicate count 0) }
    ensures second { IfOk result (λ both. both.1.items ≡ replicate count 0) }
{
    let first = vec![in alloc; 0; count]?;
    let second = vec![in alloc; 0; count]?;
    Ok((first, second))
}

/// The state of the run after walks from each variable in turn, until no cycle can be popped or
/// the limit is reached. The cycles that occur then are listed. At each variable the walks read as
/// many entries as they pop cycles there, and one more. So the time is linear in the variables,
/// their used entries and, except for a logarithm, the variables of stuck cycles.
pub(crate) fn left_by_walks(
    alloc: Global,
    current: CurrentArrows,
    reader: &mut Reader,
    walked: Walked,
) -> Result<Walked, AllocError>
    requires cursors { AreCursors current walked.cursors }
    requires none_stuck { walked.stuck ≡ [] }
    requires room { HasRoom current walked }
    requires belongs { Belongs current.stacks reader.old }
    ensures runs { IfOk result (RunsOn current.entry walked) }
    ensures cursors { IfOk result (λ left. AreCursors current.entry left.cursors) }
    ensures end { IfOk result (λ left. left.pops < left.limit
        → IsEnd (cycles current.entry) left.cursors) }
    ensures room { IfOk result (HasRoom current.entry) }
    ensures stuck_list { IfOk result (λ left.
        IsStuckList (cycles current.entry) left.cursors left.stuck) }
    ensures reader { reader.new ≡ reader.old }
{
    let mut walk = Walk::new(alloc, current, walked)?;
    for v in 0..walk.current.count() {
        walk.settle(alloc, reader, v)?;
    }
    let mut left = walk.walked;
    left.stuck.sort();
    Ok(left)
}
