//! Splits passes, and joins them again.
ghost use Rattle.std.specs.Prelude.{◌≡◌, ◌<◌, ◌≤◌, length, false, IsOk, OnOk, IfErr};
ghost use Rattle.confluence_core.specs.Kept.{keeps_log};
ghost use Rattle.claim_words.specs.Steps.{cut_left, cut_right, united};

use crate::logging::{first_log, unite};
use crate::plays::{Cut, Portion, ShareStep, Unite};
use crate::{Board, Pass, View};
use atomic_table::Seat;
use std::alloc::AllocError;
use std::marker::Brand;

impl<'i> Board<'i> {
    ghost use Rattle.claim_words.specs.Passes.{
      IsOf,
      IsIdle,
      IsSeat,
      SameRoom,
      view,
      spare,
      log_spare,
      keep_of,
    };

    /// Gives a part of the pass's share to a new pass, which is idle and has no room yet. The part
    /// must be at least 1 and less than the pass has. It allocates nothing.
    pub fn split(&self, pass: &mut Pass, share: u32) -> Pass
        requires pass { IsOf self.now pass.old }
        requires share { (1 ≤ share) × (share < (view pass.old).share) }
        ensures pass { IsOf self.now pass.new }
        ensures made { IsOf self.now result }
        ensures step { view pass.new ≡ cut_left (view pass.old) share }
        ensures made_step { view result ≡ cut_right (view pass.old) share }
        ensures room { SameRoom pass.old pass.new }
        ensures made_room { (spare result ≡ 0) × (log_spare result ≡ 0) }
    {
        let seat = self.cut::<Brand>(&mut pass.seat, share);
        pass.share -= share;
        Pass {
            seat,
            held: Vec::new(self.alloc),
            share,
            log: first_log(self.alloc, self.keep),
        }
    }

    // Splits a seat by the chosen share.
    fn cut<W: Portion>(&self, seat: &mut Seat<(), View>, share: u32) -> Seat<(), View>
        requires seat { IsSeat self.now seat.old }
        requires share { (1 ≤ share) × (share < seat.old.me.0.share) × (share ≡ W.part) }
        ensures seat { IsSeat self.now seat.new × (seat.new.me.1 ≡ seat.old.me.1) }
        ensures view { seat.new.me.0 ≡ cut_left seat.old.me.0 share }
        ensures made { IsSeat self.now result × (length result.me.1 ≡ 0) }
        ensures made_view { result.me.0 ≡ cut_right seat.old.me.0 share }
    {
        self.table.shared.split_seat::<Cut<W>>(seat)
    }

    /// Joins another pass of this board, which is idle and ends. It allocates only if a log is
    /// kept. If memory runs out, the other pass is returned unchanged; this cannot happen if no
    /// log is kept.
    pub fn rejoin(&self, pass: &mut Pass, other: Pass) -> Result<(), (Pass, AllocError)>
        requires pass { IsOf self.now pass.old }
        requires other { IsOf self.now other }
        requires idle { IsIdle other }
        ensures pass { IsOf self.now pass.new }
        ensures step { OnOk result (view pass.new ≡ united (view pass.old) (view other)) }
        ensures room { SameRoom pass.old pass.new }
        ensures kept { IfErr result (λ e. (view pass.new ≡ view pass.old) × (e.0 ≡ other)) }
        ensures granted { keeps_log (keep_of self.now) ≡ false → IsOk result }
    {
        let Pass {
            seat,
            held,
            share,
            log,
        } = other;
        if let Err((log, failed)) = unite(&mut pass.log, log) {
            let other = Pass {
                seat,
                held,
                share,
                log,
            };
            return Err((other, failed));
        }
        drop(held);
        let both = pass.share + share;
        self.table.shared.join_seat::<Unite>(&mut pass.seat, seat);
        // No run reaches this, since the shares of all passes sum to 64.
        if both > 64 {
            self.table.shared.load::<ShareStep>(&mut pass.seat, 0);
            unreachable!();
        }
        pass.share = both;
        Ok(())
    }
}
