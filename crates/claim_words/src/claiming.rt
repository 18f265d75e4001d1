//! Steps that claim, release and settle variables.
ghost use Rattle.std.specs.Prelude.{◌≡◌, ◌+◌, ◌<◌, ◌≤◌, false};
ghost use Rattle.claim_words.specs.Openings.{is_listed};
ghost use Rattle.claim_words.specs.Steps.{released_by, settled_by};
ghost use Rattle.claim_words.specs.Conditions.{MaySettle};
ghost use Rattle.claim_words.specs.Tells.{SoleKnows};

use crate::held::let_go;
use crate::layout::{CLAIMED, SETTLED, cursor_of};
use crate::{Board, Claim, Pass};

impl<'i> Board<'i> {
    ghost use Rattle.claim_words.specs.Passes.{
      IsOf,
      Holds,
      view,
      spare,
      log_spare,
      count_of,
      instance_of,
      opening_of,
    };
    ghost use Rattle.claim_words.specs.Answers.{Claims, Spends};

    /// Claims a variable in one atomic step. It allocates nothing. Variables count from 0. The
    /// pass must have room for a claim (`reserve`). If the pass holds the variable already, the
    /// result is `Busy` too.
    pub fn try_claim(&self, pass: &mut Pass, v: u32) -> Claim
        requires pass { IsOf self.now pass.old }
        requires known { v < count_of self.now }
        requires room { 1 ≤ spare pass.old }
        ensures pass { IsOf self.now pass.new }
        ensures step { Claims (view pass.old) v (view pass.new) result }
        ensures sole { SoleKnows (view pass.new) }
        ensures spare { Spends (spare pass.old) (spare pass.new) result }
        ensures log_spare { log_spare pass.new ≡ log_spare pass.old }
    {
        let found = self.claim_step(&mut pass.seat, v);
        if found >= CLAIMED + SETTLED {
            return Claim::Settled(cursor_of(found));
        }
        if found >= CLAIMED {
            return Claim::Busy(found);
        }
        pass.held.push_reserved(v);
        Claim::Mine(cursor_of(found))
    }

    /// Releases a variable that the pass holds, in one atomic step. It allocates nothing.
    pub fn release(&self, pass: &mut Pass, v: u32)
        requires pass { IsOf self.now pass.old }
        requires held { Holds pass.old v }
        ensures pass { IsOf self.now pass.new }
        ensures step { view pass.new ≡ released_by (view pass.old) v }
        ensures spare { spare pass.new ≡ spare pass.old + 1 }
        ensures log_spare { log_spare pass.new ≡ log_spare pass.old }
    {
        self.release_step(&mut pass.seat, v);
        let_go(&mut pass.held, v);
    }

    /// Settles a variable of a cycle family that the pass holds, in one atomic step. It allocates
    /// nothing. The variable must be at its last entry, or its arrow must lead to the root or to a
    /// variable known to be settled. No pass can claim it again.
    pub fn settle(&self, pass: &mut Pass, v: u32)
        requires pass { IsOf self.now pass.old }
        requires held { Holds pass.old v }
        requires cycles { is_listed (instance_of self.now).family ≡ false }
        requires may { MaySettle (opening_of self.now) (view pass.old) v }
        ensures pass { IsOf self.now pass.new }
        ensures step { view pass.new ≡ settled_by (view pass.old) v }
        ensures sole { SoleKnows (view pass.new) }
        ensures spare { spare pass.new ≡ spare pass.old + 1 }
        ensures log_spare { log_spare pass.new ≡ log_spare pass.old }
    {
        self.settle_step(&mut pass.seat, v);
        let_go(&mut pass.held, v);
    }
}
