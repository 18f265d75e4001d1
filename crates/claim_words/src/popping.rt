//! Pops of events: one ticket, and one advance for each variable.
ghost use Rattle.std.specs.Prelude.{◌≡◌, ◌+◌, ◌<◌, length, IfSome};
ghost use Rattle.claim_words.specs.Maps.{In};
ghost use Rattle.claim_words.specs.Steps.{Drawn, popped_by, raised_by};
ghost use Rattle.claim_words.specs.Conditions.{CanPop, IsDue};
ghost use Rattle.claim_words.specs.Machine.{uses_held};
ghost use Rattle.claim_words.specs.Tells.{SoleKnows};
ghost use Rattle.claim_words.specs.KeptLogs.{HasRoom, Adds};

use crate::kept_log::KeptLog;
use crate::layout::cursor_of;
use crate::logging::{add_use, seal};
use crate::{Board, Pass, View};
use atomic_table::Seat;
use pop_instance::Cube;
use std::marker::Brand;

impl<'i> Board<'i> {
    ghost use Rattle.claim_words.specs.Passes.{
      IsOf,
      IsSeat,
      view,
      spare,
      log_spare,
      count_of,
      instance_of,
    };

    /// Pops an event of the family, and returns its ticket, which counts from 0 over all passes.
    /// The pass must hold the event's variables, and the event must be poppable at their cursors.
    /// It makes one atomic step for the ticket and one for each variable, and allocates nothing.
    /// If a log is kept, the pass must have room for as many pairs as the event has (`reserve`).
    pub fn pop(&self, pass: &mut Pass, unit: u32, cube: &Cube) -> u64
        requires pass { IsOf self.now pass.old }
        requires poppable { CanPop (instance_of self.now) (view pass.old) unit cube.now }
        requires room { HasRoom pass.old.log (length cube.now) }
        ensures pass { IsOf self.now pass.new }
        ensures step { view pass.new ≡ popped_by (view pass.old) unit cube.now result }
        ensures newer { (q : Drawn) → In q (view pass.old).mine → q.0 < result }
        ensures sole { SoleKnows (view pass.new) }
        ensures spare { spare pass.new ≡ spare pass.old }
        ensures log_spare { IfSome pass.old.log
            (λ l. log_spare pass.new + length cube.now ≡ l.spare) }
    {
        let ticket = self.ticket_step::<Brand>(&mut pass.seat, unit, cube);
        self.advance_all(&mut pass.seat, &mut pass.log, cube);
        seal(&mut pass.log, ticket, unit, cube.len());
        ticket
    }

    // Advances the variables of a popped event, and logs the entries that it used.
    fn advance_all(&self, seat: &mut Seat<(), View>, log: &mut Option<KeptLog>, cube: &Cube)
        requires seat { IsSeat self.now seat.old }
        requires due { IsDue (count_of self.now) seat.old.me.0 cube.now }
        requires room { HasRoom log.old (length cube.now) }
        ensures seat { IsSeat self.now seat.new × (seat.new.me.1 ≡ seat.old.me.1) }
        ensures view { seat.new.me.0 ≡ raised_by seat.old.me.0 cube.now }
        ensures log { Adds log.old log.new (uses_held cube.now seat.old.me.0.held) }
    {
        for i in 0..cube.len() {
            let (v, x) = cube.pair(i);
            let found = self.advance_step(seat, v);
            add_use(log, v, x, cursor_of(found));
        }
    }
}
