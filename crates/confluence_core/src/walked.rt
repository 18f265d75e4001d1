ghost use Rattle.std.specs.Prelude.{◌≡◌, ◌<◌, ◌+◌, ◌-◌, ◌^◌, ◌↔◌, ℕ, List, length, All, IsTrue, IfOk, OnOk};
ghost use Rattle.pop_stacks.specs.Readers.{Belongs};
ghost use Rattle.confluence_core.specs.CycleTables.{AreCursors};
ghost use Rattle.confluence_core.specs.Loops.{AreMembers, HaveNext, IsCubeOf};
ghost use Rattle.confluence_core.specs.Steps.{with_record, with_stuck, Closed};

use crate::current_arrows::CurrentArrows;
use crate::loops::{cube_of, have_next, raise};
use crate::{Log, Record, Stuck};
use pop_instance::Cursors;
use pop_stacks::Reader;
use std::alloc::{AllocError, Global};

/// The state of a run after some walks.
#[derive(Drop)]
pub(crate) struct Walked {
    pub cursors: Cursors,
    pub pops: u64,
    /// The walks stop popping when the number of pops reaches this limit.
    pub limit: u64,
    /// The log of the pops, if it is kept.
    pub log: Option<Log>,
    /// The cycles that were found stuck.
    pub stuck: Stuck,
}

impl Walked {
    // Adds the record of the pop of these variables' cycle, if the log is kept.
    fn keep_record(
        &mut self,
        alloc: Global,
        current: &CurrentArrows,
        reader: &mut Reader,
        members: &[u32],
    ) -> Result<(), AllocError>
        requires members { AreMembers current.now members.now }
        requires cursors { AreCursors current.now self.old.cursors }
        requires short { length members.now < 2 ^ 31 }
        requires belongs { Belongs current.now.stacks reader.old }
        ensures kept { OnOk result ((e : List (ℕ × ℕ))
            → IsCubeOf current.now self.old.cursors members.now e
            → self.new ≡ with_record self.old e) }
        ensures others { self.new ≡ record self.old { log = self.new.log } }
        ensures reader { reader.new ≡ reader.old }
    {
        if let Some(log) = &mut self.log {
            let cube = cube_of(alloc, current, reader, &self.cursors, members)?;
            let (unit, _) = cube.pair(0);
            log.push(Record::of(alloc, unit, cube, &self.cursors)?)?;
        }
        Ok(())
    }

    // Notes the cycle of these variables as stuck. This is rare, so it is not inlined into the
    // loop of walks.
    #[inline(never)]
    fn note(
        &mut self,
        alloc: Global,
        current: &CurrentArrows,
        reader: &mut Reader,
        members: &[u32],
    ) -> Result<(), AllocError>
        requires members { AreMembers current.now members.now }
        requires cursors { AreCursors current.now self.old.cursors }
        requires short { length members.now < 2 ^ 31 }
        requires belongs { Belongs current.now.stacks reader.old }
        ensures noted { OnOk result ((e : List (ℕ × ℕ))
            → IsCubeOf current.now self.old.cursors members.now e
            → self.new ≡ with_stuck self.old e) }
        ensures reader { reader.new ≡ reader.old }
    {
        let cube = cube_of(alloc, current, reader, &self.cursors, members)?;
        let (unit, _) = cube.pair(0);
        self.stuck.push(unit, cube)?;
        Ok(())
    }

    /// Pops the cycle of these variables. If one of them is at its last entry or the limit is
    /// reached, it notes the cycle instead. Returns whether it was popped.
    pub fn pop_or_note(
        &mut self,
        alloc: Global,
        current: &CurrentArrows,
        reader: &mut Reader,
        members: &[u32],
    ) -> Result<bool, AllocError>
        requires members { AreMembers current.now members.now }
        requires cursors { AreCursors current.now self.old.cursors }
        requires short { length members.now < 2 ^ 31 }
        requires room { self.old.pops < 2 ^ 64 - 1 }
        requires belongs { Belongs current.now.stacks reader.old }
        ensures closed { IfOk result (Closed current.now self.old self.new members.now) }
        ensures reader { reader.new ≡ reader.old }
    {
        if !is_to_pop(current, self, members) {
            self.note(alloc, current, reader, members)?;
            return Ok(false);
        }
        let _count = current.count();
        self.keep_record(alloc, current, reader, members)?;
        raise(&mut self.cursors, members);
        self.pops += 1;
        Ok(true)
    }
}

// Whether the cycle of these variables can be popped: each has an entry after its cursor, and the
// limit is not reached.
fn is_to_pop(current: &CurrentArrows, walked: &Walked, members: &[u32]) -> bool
    requires known { All (λ v. v < length current.now.heads) members.now }
    requires cursors { AreCursors current.now walked.now.cursors }
    ensures { IsTrue result ↔ ((walked.now.pops < walked.now.limit)
        × HaveNext current.now walked.now.cursors members.now) }
{
    walked.pops < walked.limit && have_next(current, &walked.cursors, members)
}
