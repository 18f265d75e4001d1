//! The rule of a board's table, and what each kind of step shows the pass that makes it.
ghost use Rattle.std.specs.Prelude.{◌≡◌, ◌≤◌, ℕ, List, []};
ghost use Rattle.claim_words.specs.Words.{variable_at, unit_at};
ghost use Rattle.claim_words.specs.Openings.{count_in};
ghost use Rattle.claim_words.specs.Steps.{fresh, released_by, cut_left, cut_right, cleared_by};
ghost use Rattle.claim_words.specs.Machine.{Sound};
ghost use Rattle.claim_words.specs.Plays.{ClaimTold, TicketTold, AdvanceTold, SettleTold, TakeTold, MarkTold};
ghost use Rattle.claim_words.specs.Starts.{IsCounted};

use crate::{Opening, View};
use atomic_table::{Join, Play, Split, TableRule};
use std::marker::{Brand, PhantomData};

// The rule of the table.
pub struct Machine;

impl TableRule<(), View, Opening> for Machine {
    ghost holds = { Sound };

    ghost first = { fresh };
}

// A step that claims a variable.
pub struct ClaimStep;

impl Play<(), View> for ClaimStep {
    ghost then = { λ st m r n. ClaimTold m (variable_at st.word) r n };
}

// A step that releases a variable.
pub struct ReleaseStep;

impl Play<(), View> for ReleaseStep {
    ghost then = { λ st m r n. n ≡ (released_by m.0 (variable_at st.word), m.1) };
}

// The event that a ticket is for, chosen by the caller.
pub trait Chosen {
    ghost unit: { ℕ };

    ghost cube: { List (ℕ × ℕ) };
}

impl Chosen for Brand {
    ghost unit = { 0 };

    ghost cube = { [] };
}

// A step that draws a ticket for an event.
pub struct TicketStep<W> {
    marker: PhantomData<W>,
}

impl<W: Chosen> Play<(), View> for TicketStep<W> {
    ghost then = { λ st m r n. TicketTold m W.unit W.cube r n };
}

// A step that advances a variable.
pub struct AdvanceStep;

impl Play<(), View> for AdvanceStep {
    ghost then = { λ st m r n. AdvanceTold m (variable_at st.word) r n };
}

// A step that settles a variable.
pub struct SettleStep;

impl Play<(), View> for SettleStep {
    ghost then = { λ st m r n. SettleTold m (variable_at st.word) r n };
}

// A step that takes a mark.
pub struct TakeStep;

impl Play<(), View> for TakeStep {
    ghost then = { λ st m r n. TakeTold m (unit_at (count_in m.0.opening) st.word) r n };
}

// A step that sets a mark.
pub struct MarkStep;

impl Play<(), View> for MarkStep {
    ghost then = { λ st m r n. MarkTold m (unit_at (count_in m.0.opening) st.word) r n };
}

// The unit that is cleared, chosen by the caller.
pub trait Cleared {
    ghost unit: { ℕ };
}

impl Cleared for Brand {
    ghost unit = { 0 };
}

// A step that reads a variable which rules out the event of a unit.
pub struct ClearStep<W> {
    marker: PhantomData<W>,
}

impl<W: Cleared> Play<(), View> for ClearStep<W> {
    ghost then = { λ st m r n. n ≡ (cleared_by m.0 W.unit, m.1) };
}

// The share that a split gives away, chosen by the caller.
pub trait Portion {
    ghost part: { ℕ };
}

impl Portion for Brand {
    ghost part = { 0 };
}

// A step that splits a pass.
pub struct Cut<W> {
    marker: PhantomData<W>,
}

impl<W: Portion> Split<View> for Cut<W> {
    ghost left = { λ d. cut_left d W.part };

    ghost right = { λ d. cut_right d W.part };
}

// A step that joins two passes.
pub struct Unite;

impl Join<View> for Unite {
    ghost use Rattle.claim_words.specs.Steps.{united, spent};

    ghost both = { united };

    ghost spent = { spent };
}

// What the rule says of every pass.
pub struct ShareStep;

impl Play<(), View> for ShareStep {
    ghost then = { λ st m r n. (n ≡ m) × (m.0.share ≤ 64) };
}

// What the rule says of the start.
pub struct StartStep;

impl Play<(), View> for StartStep {
    ghost then = { λ st m r n. (n ≡ m) × IsCounted m.0 };
}
