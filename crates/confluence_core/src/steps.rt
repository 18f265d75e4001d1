ghost use Rattle.std.specs.Prelude.{◌≡◌, ◌<◌, length, IfOk, OnOk, ◌+◌};
ghost use Rattle.pop_stacks.specs.Readers.{Belongs};
ghost use Rattle.confluence_core.specs.Walks.{IsPlaceOf};
ghost use Rattle.confluence_core.specs.LoopErasedWalks.{StaySettled, IsSized, HasPath, Walks};
ghost use Rattle.confluence_core.specs.Steps.{LeadsTo, Extends, RunsOn, Advances};

use crate::walk::Walk;
use pop_stacks::Reader;
use std::alloc::{AllocError, Global};

/// The mark of a settled variable. The mark of a variable on the path is its place there plus 1.
/// Any other mark has no meaning: a variable that was popped off the path keeps its mark.
pub(crate) const SETTLED: u32 = u32::MAX;

// The head of the arrow of the last variable of a path.
enum Step {
    // It is this variable, which the walk has not met.
    On(u32),
    // It is at this place of the path.
    Back(usize),
    // It is the root or a settled variable.
    Rests,
}

impl<'a> Walk<'a> {
    // The place of a variable on the path, or None if it is not there. The variable is there only
    // if it is found at the place that its mark gives.
    fn place_of(&self, variable: u32) -> Option<usize>
        requires sized { IsSized self.now }
        requires trail { HasPath self.now (self.now.depth + 1) }
        requires known { variable < length self.now.current.heads }
        ensures { IsPlaceOf self.now.path.items (self.now.depth + 1) variable result }
    {
        let mark = self.marks[variable as usize] as usize;
        if mark == 0 || mark - 1 > self.depth {
            return None;
        }
        let place = mark - 1;
        if self.path[place] != variable {
            return None;
        }
        Some(place)
    }

    // Adds the variable that the path leads to, and follows its arrow.
    fn extend(&mut self, reader: &mut Reader) -> Step
        requires walks { Walks self.old }
        requires belongs { Belongs self.old.current.stacks reader.old }
        ensures leads { LeadsTo self.new result }
        ensures extends { Extends self.old self.new }
        ensures reader { reader.new ≡ reader.old }
    {
        // Read only once: for all that the compiler knows, the writes might change them.
        let (at, depth) = (self.at, self.depth);
        self.path[depth] = at;
        self.marks[at as usize] = depth as u32 + 1;
        // By the entry, since `head` would remain a call of its own at each step.
        let entry = self.walked.cursors.get(at);
        let Some(w) = self.current.head_at(reader, at, entry) else {
            return Step::Rests;
        };
        let mark = self.marks[w as usize];
        if mark == SETTLED {
            return Step::Rests;
        }
        match self.place_of(w) {
            Some(place) => Step::Back(place),
            None => Step::On(w),
        }
    }

    /// Makes one step of a walk, and returns whether the walk continues. A cycle that closes is
    /// popped, and the walk continues from the variable that closed it. A cycle that cannot be
    /// popped ends the walk.
    pub fn advance(&mut self, alloc: Global, reader: &mut Reader) -> Result<bool, AllocError>
        requires walks { Walks self.old }
        requires belongs { Belongs self.old.current.stacks reader.old }
        ensures next { IfOk result (Advances self.old self.new) }
        ensures runs { OnOk result (RunsOn self.old.current self.old.walked self.new.walked) }
        ensures settled { OnOk result (StaySettled self.old self.new) }
        ensures current { OnOk result (self.new.current ≡ self.old.current) }
        ensures reader { reader.new ≡ reader.old }
    {
        match self.extend(reader) {
            Step::On(variable) => {
                self.depth += 1;
                self.at = variable;
                Ok(true)
            }
            Step::Rests => Ok(false),
            Step::Back(place) => {
                let members = &self.path[place..self.depth + 1];
                let is_popped = self
                    .walked
                    .pop_or_note(alloc, &self.current, reader, members)?;
                if !is_popped {
                    return Ok(false);
                }
                self.at = self.path[place];
                self.depth = place;
                Ok(true)
            }
        }
    }
}
