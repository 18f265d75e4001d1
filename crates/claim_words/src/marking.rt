//! Steps that take, set and clear the marks of units.
ghost use Rattle.std.specs.Prelude.{◌≡◌, ◌<◌};
ghost use Rattle.claim_words.specs.Maps.{In};
ghost use Rattle.claim_words.specs.Steps.{cleared_by};
ghost use Rattle.claim_words.specs.Conditions.{RulesOut};
ghost use Rattle.claim_words.specs.Tells.{SoleKnows};

use crate::layout::MARKED;
use crate::{Board, Pass};
use std::marker::Brand;

impl<'i> Board<'i> {
    ghost use Rattle.claim_words.specs.Passes.{
      IsOf,
      Holds,
      SameRoom,
      view,
      marks_of,
      instance_of,
    };
    ghost use Rattle.claim_words.specs.Answers.{Takes, Marks};

    /// Takes the mark of a unit of a listed family, in one atomic step, and returns whether it was
    /// set. It allocates nothing. Units count from 0. After it takes a mark, a pass looks at the
    /// unit's event. Then it pops the event, clears the unit, or marks it again.
    pub fn take(&self, pass: &mut Pass, unit: u32) -> bool
        requires pass { IsOf self.now pass.old }
        requires listed { unit < marks_of self.now }
        ensures pass { IsOf self.now pass.new }
        ensures step { Takes (view pass.old) unit (view pass.new) result }
        ensures sole { SoleKnows (view pass.new) }
        ensures room { SameRoom pass.old pass.new }
    {
        self.take_step(&mut pass.seat, unit) == MARKED
    }

    /// Sets the mark of a unit of a listed family, in one atomic step, and records this in the
    /// changes of the pass. It allocates nothing.
    pub fn mark(&self, pass: &mut Pass, unit: u32)
        requires pass { IsOf self.now pass.old }
        requires listed { unit < marks_of self.now }
        ensures pass { IsOf self.now pass.new }
        ensures step { Marks (view pass.old) unit (view pass.new) }
        ensures room { SameRoom pass.old pass.new }
    {
        self.mark_step(&mut pass.seat, unit);
    }

    /// Resolves a unit that was taken, in one atomic step. A variable that the pass holds must
    /// rule its event out: it has another value, or it is at its last entry. It allocates nothing.
    pub fn clear(&self, pass: &mut Pass, unit: u32, v: u32)
        requires pass { IsOf self.now pass.old }
        requires taken { In unit (view pass.old).taken }
        requires held { Holds pass.old v }
        requires out { RulesOut (instance_of self.now) (view pass.old).held unit v }
        ensures pass { IsOf self.now pass.new }
        ensures step { view pass.new ≡ cleared_by (view pass.old) unit }
        ensures room { SameRoom pass.old pass.new }
    {
        self.clear_step::<Brand>(&mut pass.seat, unit, v);
    }
}
