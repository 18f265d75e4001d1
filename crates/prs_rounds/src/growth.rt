ghost use Rattle.std.specs.Prelude.{◌≡◌, ◌≢◌, ◌<◌, ◌≤◌, ◌+◌, ◌↔◌, ℕ, List, true, [], length, slice_index, slice_index_or, All, Contains, IsTrue, IfOk, OnOk, false};
ghost use Rattle.prs_rounds.specs.declared.mark.Mark.TheVariants.{Free};
ghost use Rattle.pop_model.specs.Stacks.{StackTable};
ghost use Rattle.pop_model.specs.Popping.{NamesBelow, names};
ghost use Rattle.pop_model.specs.Families.Family.{Listed as ListedEvents};
ghost use Rattle.pop_instance.specs.Events.{cube_at};
ghost use Rattle.pop_instance.specs.Index.{IsIndex};

use crate::mark::Mark;
use pop_instance::{Cube, Events, Index};
use std::alloc::{AllocError, Global};

/// The search for the resampling set: a set of events that grows step by step. Events are given by
/// their places, which count from 0.
#[derive(Drop)]
pub(crate) struct Growth {
    /// The mark of each event.
    pub marks: Vec<Mark>,
    /// The events that are not free, each once.
    pub looked: Vec<u32>,
    /// The events that joined in this step. Their variables are not covered yet.
    pub fresh: Vec<u32>,
    /// For each variable whether an event of the set names it. The fresh events do not count.
    pub covered: Vec<bool>,
    /// The variables that are covered, each once.
    pub variables: Vec<u32>,
}

impl Growth {
    ghost use Rattle.prs_rounds.specs.Growth.{AreListed, mark_of, is_covered, IsMarked, Meets, MeetsOther, Judges, AreJudged, CoversOne, CoversMore, IsNamedBy, IsBlank, AreJoined, Begins, uncovered, is_joined};
    ghost use Rattle.prs_rounds.specs.Grown.{StartsAt, IsGrown};
    ghost use Rattle.prs_rounds.specs.declared.mark.Mark.TheVariants.{Free, Joined, Excluded};

    // Whether a variable is covered and has another value than this.
    fn is_other(&self, values: &[u32], v: u32, x: u32) -> bool
        requires known { v < length values.now }
        requires covered { length self.now.covered.items ≡ length values.now }
        ensures { IsTrue result
            ↔ ((is_covered self.now v ≡ true) × (slice_index values.now v ≢ x)) }
    {
        self.covered[v as usize] && values[v as usize] != x
    }

    // Whether the cube names a covered variable and demands another value of it than it has.
    fn meets_other(&self, values: &[u32], cube: &Cube) -> bool
        requires known { NamesBelow cube.now (length values.now) }
        requires covered { length self.now.covered.items ≡ length values.now }
        ensures { IsTrue result ↔ MeetsOther values.now self.now cube.now }
    {
        for i in 0..cube.len() {
            let (v, x) = cube.pair(i);
            if self.is_other(values, v, x) {
                return true;
            }
        }
        false
    }

    // Marks an event as excluded.
    fn exclude(&mut self, u: u32) -> Result<(), AllocError>
        requires known { u < length self.old.marks.items }
        ensures { OnOk result (IsMarked u Excluded self.old self.new) }
    {
        self.looked.push(u)?;
        self.marks[u as usize] = Mark::Excluded;
        Ok(())
    }

    // Adds an event to the set.
    fn join(&mut self, u: u32) -> Result<(), AllocError>
        requires known { u < length self.old.marks.items }
        ensures { OnOk result (IsMarked u Joined self.old self.new) }
    {
        self.looked.push(u)?;
        self.fresh.push(u)?;
        self.marks[u as usize] = Mark::Joined;
        Ok(())
    }

    // Judges an event of a covered variable, if it is free: it joins the set or is excluded.
    fn judge(&mut self, events: &Events, values: &[u32], u: u32) -> Result<(), AllocError>
        requires known { u < length events.now }
        requires fits { All (λ r. NamesBelow r.1 (length values.now)) events.now }
        requires listed { AreListed (length events.now) (length values.now) self.old }
        requires meets { Meets self.old (cube_at events.now u) }
        ensures judges { OnOk result (Judges events.now values.now self.old self.new) }
        ensures judged { OnOk result (mark_of self.new u ≢ Free) }
        ensures listed { OnOk result (AreListed (length events.now) (length values.now) self.new) }
    {
        match self.marks[u as usize] {
            Mark::Joined | Mark::Excluded => Ok(()),
            Mark::Free => {
                if self.meets_other(values, events.cube(u)) {
                    self.exclude(u)
                } else {
                    self.join(u)
                }
            }
        }
    }

    // Judges the events of a row of the index.
    fn judge_row(&mut self, events: &Events, values: &[u32], row: &[u32]) -> Result<(), AllocError>
        requires known { All (λ u. u < length events.now) row.now }
        requires fits { All (λ r. NamesBelow r.1 (length values.now)) events.now }
        requires listed { AreListed (length events.now) (length values.now) self.old }
        requires meets { All (λ u. Meets self.old (cube_at events.now u)) row.now }
        ensures judges { OnOk result (Judges events.now values.now self.old self.new) }
        ensures judged { OnOk result (AreJudged self.new row.now) }
        ensures listed { OnOk result (AreListed (length events.now) (length values.now) self.new) }
    {
        for u in row {
            self.judge(events, values, *u)?;
        }
        Ok(())
    }

    // One step: judges the events of the variables from place `from` on. The variables of events
    // that join are covered only after the step, so that each event is judged by the set before
    // the step.
    fn judge_rows(
        &mut self,
        events: &Events,
        index: &Index,
        values: &[u32],
        from: usize,
    ) -> Result<(), AllocError>
        requires index { IsIndex events.now index.now }
        requires count { length index.now ≡ length values.now }
        requires listed { AreListed (length events.now) (length values.now) self.old }
        ensures judges { OnOk result (Judges events.now values.now self.old self.new) }
        ensures judged { OnOk result ((k : ℕ) → from ≤ k → k < length self.old.variables.items
            → AreJudged self.new
            (slice_index_or index.now (slice_index self.old.variables.items k) [])) }
        ensures listed { OnOk result (AreListed (length events.now) (length values.now) self.new) }
    {
        for k in from..self.variables.len() {
            let v = self.variables[k];
            self.judge_row(events, values, index.at(v))?;
        }
        Ok(())
    }

    // Covers a variable, unless it is covered already.
    fn cover_variable(&mut self, v: u32) -> Result<(), AllocError>
        requires known { v < length self.old.covered.items }
        ensures { OnOk result (CoversOne v self.old self.new) }
    {
        if self.covered[v as usize] {
            return Ok(());
        }
        self.variables.push(v)?;
        self.covered[v as usize] = true;
        Ok(())
    }

    // Covers the variables of a cube.
    fn cover(&mut self, cube: &Cube) -> Result<(), AllocError>
        requires known { NamesBelow cube.now (length self.old.covered.items) }
        ensures covers { OnOk result (CoversMore (λ v. names cube.now v ≡ true) self.old self.new) }
        ensures fresh { OnOk result (self.new.fresh ≡ self.old.fresh) }
        ensures listed { OnOk result ((n count : ℕ)
            → AreListed n count self.old → AreListed n count self.new) }
    {
        for i in 0..cube.len() {
            let (v, _) = cube.pair(i);
            self.cover_variable(v)?;
        }
        Ok(())
    }

    // Covers the variables of the fresh events. No event is fresh after that.
    fn cover_fresh(&mut self, events: &Events) -> Result<(), AllocError>
        requires fits { All (λ r. NamesBelow r.1 (length self.old.covered.items)) events.now }
        requires listed { AreListed (length events.now) (length self.old.covered.items) self.old }
        ensures covers { OnOk result
            (CoversMore (IsNamedBy events.now self.old.fresh.items) self.old self.new) }
        ensures listed { OnOk result
            (AreListed (length events.now) (length self.old.covered.items) self.new) }
        ensures none { OnOk result (self.new.fresh.items ≡ []) }
    {
        while let Some(u) = self.fresh.pop() {
            self.cover(events.cube(u))?;
        }
        Ok(())
    }

    /// A search without marked events.
    pub(crate) fn blank(alloc: Global, events: u32, variables: u32) -> Result<Growth, AllocError>
        ensures { IfOk result (IsBlank events variables) }
    {
        Ok(Growth {
            marks: vec![in alloc; Mark::Free; events as usize]?,
            looked: Vec::new(alloc),
            fresh: Vec::new(alloc),
            covered: vec![in alloc; false; variables as usize]?,
            variables: Vec::new(alloc),
        })
    }

    // Adds the events of these places, which are the first of the set, and covers their variables.
    fn begin(&mut self, events: &Events, places: &[u32]) -> Result<(), AllocError>
        requires fits { All (λ r. NamesBelow r.1 (length self.old.covered.items)) events.now }
        requires known { All (λ u. u < length events.now) places.now }
        requires blank { IsBlank (length events.now) (length self.old.covered.items) self.old }
        ensures begins { OnOk result (Begins events.now places.now self.new) }
        ensures listed { OnOk result
            (AreListed (length events.now) (length self.old.covered.items) self.new) }
        ensures none { OnOk result (self.new.fresh.items ≡ []) }
        ensures size { OnOk result
            (uncovered self.new + length self.new.variables.items ≡ length self.old.covered.items) }
    {
        self.join_all(events, places)?;
        self.cover_fresh(events)
    }

    // Adds the events of these places to the set.
    fn join_all(&mut self, events: &Events, places: &[u32]) -> Result<(), AllocError>
        requires known { All (λ u. u < length events.now) places.now }
        requires blank { IsBlank (length events.now) (length self.old.covered.items) self.old }
        ensures joined { OnOk result (AreJoined places.now self.new) }
        ensures listed { OnOk result
            (AreListed (length events.now) (length self.old.covered.items) self.new) }
        ensures covered { OnOk result (self.new.covered ≡ self.old.covered) }
        ensures variables { OnOk result (self.new.variables ≡ self.old.variables) }
    {
        for u in places {
            if let Mark::Free = self.marks[*u as usize] {
                self.join(*u)?;
            }
        }
        Ok(())
    }

    /// Finds the resampling set. The search starts from the events that occur, which have these
    /// places. The row of each covered variable is read once. So the time is linear in the pairs
    /// of the events that name a variable of the set.
    pub(crate) fn grow(
        &mut self,
        events: &Events,
        index: &Index,
        values: &[u32],
        places: &[u32],
    ) -> Result<(), AllocError>
        requires index { IsIndex events.now index.now }
        requires count { length index.now ≡ length values.now }
        requires fits { All (λ r. NamesBelow r.1 (length values.now)) events.now }
        requires known { All (λ u. u < length events.now) places.now }
        requires blank { IsBlank (length events.now) (length values.now) self.old }
        ensures grown { OnOk result ((s : StackTable) (c : List ℕ)
            → StartsAt s events.now c values.now places.now
            → IsGrown (record { stacks = s; family = ListedEvents events.now })
            events.now c self.new) }
        ensures listed { OnOk result (AreListed (length events.now) (length values.now) self.new) }
        ensures none { OnOk result (self.new.fresh.items ≡ []) }
    {
        self.begin(events, places)?;
        let mut spread = 0;
        'steps: while spread < self.variables.len() {
            let end = self.variables.len();
            self.judge_rows(events, index, values, spread)?;
            self.cover_fresh(events)?;
            spread = end;
        }
        Ok(())
    }

    /// Whether an event is in the set.
    pub(crate) fn has_joined(&self, u: u32) -> bool
        requires known { u < length self.now.marks.items }
        ensures { result ≡ is_joined (mark_of self.now u) }
    {
        match self.marks[u as usize] {
            Mark::Joined => true,
            Mark::Free | Mark::Excluded => false,
        }
    }

    /// Clears all marks and variables, in time linear in their number.
    pub(crate) fn clear(&mut self)
        requires none { self.old.fresh.items ≡ [] }
        requires listed { AreListed (length self.old.marks.items) (length self.old.covered.items)
            self.old }
        ensures { IsBlank (length self.old.marks.items) (length self.old.covered.items) self.new }
    {
        free_all(&mut self.marks, &self.looked);
        uncover_all(&mut self.covered, &self.variables);
        self.looked.clear();
        self.variables.clear();
    }
}

// Frees the events of these places, which must be all that are not free.
fn free_all(marks: &mut [Mark], places: &[u32])
    requires known { All (λ u. u < length marks.old) places.now }
    requires all { (u : ℕ) → slice_index_or marks.old u Free ≢ Free → Contains places.now u }
    ensures len { length marks.new ≡ length marks.old }
    ensures free { (u : ℕ) → slice_index_or marks.new u Free ≡ Free }
{
    for u in places {
        marks[*u as usize] = Mark::Free;
    }
}

// Clears the flags of these variables, which must be all that are set.
fn uncover_all(covered: &mut [bool], variables: &[u32])
    requires known { All (λ v. v < length covered.old) variables.now }
    requires all { (v : ℕ) → slice_index_or covered.old v false ≡ true → Contains variables.now v }
    ensures len { length covered.new ≡ length covered.old }
    ensures none { (v : ℕ) → slice_index_or covered.new v false ≡ false }
{
    for v in variables {
        covered[*v as usize] = false;
    }
}
