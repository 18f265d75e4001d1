//! Single atomic steps, each on one word of a board, by the seat of a pass.
ghost use Rattle.std.specs.Prelude.{◌≡◌, ◌≤◌, ◌<◌, false, length};
ghost use Rattle.claim_words.specs.Words.{cursor_in};
ghost use Rattle.claim_words.specs.Maps.{In, times, look};
ghost use Rattle.claim_words.specs.Openings.{is_listed};
ghost use Rattle.claim_words.specs.Steps.{Drawn, drawn_by, advanced_by, released_by, settled_by, taken_by, marked_by, cleared_by};
ghost use Rattle.claim_words.specs.Conditions.{CanPop, IsDue, MaySettle, RulesOut};
ghost use Rattle.claim_words.specs.Tells.{ClaimTells, SoleTells, SoleKnows, SoleTakes, SoleFinds};

use crate::layout::{CLAIMED, MARKED, SETTLED, TICKETS, UNCLAIMED, mark_of, word_of};
use crate::plays::{
    AdvanceStep, Chosen, ClaimStep, ClearStep, Cleared, MarkStep, ReleaseStep, SettleStep,
    TakeStep, TicketStep,
};
use crate::{Board, View};
use atomic_table::Seat;
use pop_instance::Cube;

impl<'i> Board<'i> {
    ghost use Rattle.claim_words.specs.Passes.{
      IsSeat,
      count_of,
      marks_of,
      instance_of,
      opening_of,
    };

    // Sets the claimed bit of a variable, and returns its word before.
    pub(crate) fn claim_step(&self, seat: &mut Seat<(), View>, v: u32) -> u64
        requires seat { IsSeat self.now seat.old }
        requires known { v < count_of self.now }
        requires clear { length seat.old.me.0.due ≡ 0 }
        ensures seat { IsSeat self.now seat.new × (seat.new.me.1 ≡ seat.old.me.1) }
        ensures tells { ClaimTells seat.old.me.0 v result seat.new.me.0 }
        ensures vector { SoleTells seat.old.me.0 v result }
        ensures sole { SoleKnows seat.new.me.0 }
    {
        self.table
            .shared
            .fetch_or::<ClaimStep>(seat, word_of(v), CLAIMED)
    }

    // Clears the claimed bit of a variable that the pass holds.
    pub(crate) fn release_step(&self, seat: &mut Seat<(), View>, v: u32)
        requires seat { IsSeat self.now seat.old }
        requires known { v < count_of self.now }
        requires held { times v seat.old.me.0.held ≡ 1 }
        requires clear { length seat.old.me.0.due ≡ 0 }
        ensures seat { IsSeat self.now seat.new × (seat.new.me.1 ≡ seat.old.me.1) }
        ensures view { seat.new.me.0 ≡ released_by seat.old.me.0 v }
    {
        self.table
            .shared
            .fetch_and::<ReleaseStep>(seat, word_of(v), UNCLAIMED);
    }

    // Draws a ticket for an event.
    pub(crate) fn ticket_step<W: Chosen>(
        &self,
        seat: &mut Seat<(), View>,
        unit: u32,
        cube: &Cube,
    ) -> u64
        requires seat { IsSeat self.now seat.old }
        requires clear { length seat.old.me.0.due ≡ 0 }
        requires poppable { CanPop (instance_of self.now) seat.old.me.0 unit cube.now }
        requires event { (unit ≡ W.unit) × (cube.now ≡ W.cube) }
        ensures seat { IsSeat self.now seat.new × (seat.new.me.1 ≡ seat.old.me.1) }
        ensures view { seat.new.me.0 ≡ drawn_by seat.old.me.0 unit cube.now result }
        ensures newer { (q : Drawn) → In q seat.old.me.0.mine → q.0 < result }
        ensures sole { SoleKnows seat.new.me.0 }
        ensures due { IsDue (count_of self.now) seat.new.me.0 cube.now }
    {
        let _len = cube.len();
        self.table
            .shared
            .fetch_add::<TicketStep<W>>(seat, TICKETS, 1)
    }

    // Advances a variable with an advance that is due, and returns its word before.
    pub(crate) fn advance_step(&self, seat: &mut Seat<(), View>, v: u32) -> u64
        requires seat { IsSeat self.now seat.old }
        requires known { v < count_of self.now }
        requires due { times v seat.old.me.0.due ≡ 1 }
        ensures seat { IsSeat self.now seat.new × (seat.new.me.1 ≡ seat.old.me.1) }
        ensures view { seat.new.me.0 ≡ advanced_by seat.old.me.0 v }
        ensures cursor { cursor_in result ≡ look v seat.old.me.0.held }
    {
        self.table
            .shared
            .fetch_add::<AdvanceStep>(seat, word_of(v), 1)
    }

    // Sets the settled bit of a variable that the pass holds.
    pub(crate) fn settle_step(&self, seat: &mut Seat<(), View>, v: u32)
        requires seat { IsSeat self.now seat.old }
        requires known { v < count_of self.now }
        requires held { times v seat.old.me.0.held ≡ 1 }
        requires clear { length seat.old.me.0.due ≡ 0 }
        requires cycles { is_listed (instance_of self.now).family ≡ false }
        requires may { MaySettle (opening_of self.now) seat.old.me.0 v }
        ensures seat { IsSeat self.now seat.new × (seat.new.me.1 ≡ seat.old.me.1) }
        ensures view { seat.new.me.0 ≡ settled_by seat.old.me.0 v }
        ensures sole { SoleKnows seat.new.me.0 }
    {
        self.table
            .shared
            .fetch_or::<SettleStep>(seat, word_of(v), SETTLED);
    }

    // Clears the mark of a unit, and returns what it was.
    pub(crate) fn take_step(&self, seat: &mut Seat<(), View>, unit: u32) -> u64
        requires seat { IsSeat self.now seat.old }
        requires listed { unit < marks_of self.now }
        ensures seat { IsSeat self.now seat.new × (seat.new.me.1 ≡ seat.old.me.1) }
        ensures view { seat.new.me.0 ≡ taken_by seat.old.me.0 unit result }
        ensures bit { result ≤ 1 }
        ensures takes { SoleTakes seat.old.me.0 unit result }
        ensures finds { SoleFinds seat.old.me.0 unit result }
        ensures sole { SoleKnows seat.new.me.0 }
    {
        let at = mark_of(self.count, unit);
        self.table.shared.swap::<TakeStep>(seat, at, 0)
    }

    // Sets the mark of a unit, and returns what it was.
    pub(crate) fn mark_step(&self, seat: &mut Seat<(), View>, unit: u32) -> u64
        requires seat { IsSeat self.now seat.old }
        requires listed { unit < marks_of self.now }
        ensures seat { IsSeat self.now seat.new × (seat.new.me.1 ≡ seat.old.me.1) }
        ensures view { seat.new.me.0 ≡ marked_by seat.old.me.0 unit result }
        ensures bit { result ≤ 1 }
        ensures finds { SoleFinds seat.old.me.0 unit result }
    {
        let at = mark_of(self.count, unit);
        self.table.shared.fetch_or::<MarkStep>(seat, at, MARKED)
    }

    // Reads the word of a variable that the pass holds, which rules out the event of a unit.
    pub(crate) fn clear_step<W: Cleared>(&self, seat: &mut Seat<(), View>, unit: u32, v: u32)
        requires seat { IsSeat self.now seat.old }
        requires unit { unit ≡ W.unit }
        requires taken { In unit seat.old.me.0.taken }
        requires known { v < count_of self.now }
        requires held { times v seat.old.me.0.held ≡ 1 }
        requires clear { length seat.old.me.0.due ≡ 0 }
        requires out { RulesOut (instance_of self.now) seat.old.me.0.held unit v }
        ensures seat { IsSeat self.now seat.new × (seat.new.me.1 ≡ seat.old.me.1) }
        ensures view { seat.new.me.0 ≡ cleared_by seat.old.me.0 unit }
    {
        self.table.shared.load::<ClearStep<W>>(seat, word_of(v));
    }
}
