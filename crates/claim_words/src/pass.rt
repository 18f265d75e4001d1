ghost use Rattle.std.specs.Prelude.{◌≡◌, ◌≤◌, length};
ghost use Rattle.pop_model.specs.Popping.{variables};
ghost use Rattle.claim_words.specs.Maps.{many_from};
ghost use Rattle.claim_words.specs.Openings.{count_in};
ghost use Rattle.claim_words.specs.KeptLogs.{HasTickets, HasTickets-prop};

use crate::View;
use crate::kept_log::KeptLog;
use atomic_table::Seat;

/// The right to make steps on the words of one board. Each thread has a pass of its own.
/// `Board::split` makes a second one, and `Board::rejoin` joins it to the first again. A pass that
/// is dropped keeps what it holds, and its share, so its board cannot be closed.
#[derive(Drop)]
pub struct Pass {
    pub(crate) seat: Seat<(), View>,
    // The variables that it holds, in the order of its claims.
    pub(crate) held: Vec<u32>,
    pub(crate) share: u32,
    // The tickets, if a log is kept.
    pub(crate) log: Option<KeptLog>,
    ghost tied: { held.items ≡ variables seat.me.0.held },
    // Each variable is below the count of the board.
    ghost near: { many_from (count_in seat.me.0.opening) held.items ≡ 0 },
    ghost counted: { share ≡ seat.me.0.share },
    ghost few: { share ≤ 64 },
    ghost slotless: { length seat.me.1 ≡ 0 },
    // Between calls no advance is due.
    ghost clear: { length seat.me.0.due ≡ 0 },
    ghost logged: { HasTickets log seat.me.0.mine } by { HasTickets-prop log seat.me.0.mine },
}

impl Pass {
    ghost use Rattle.claim_words.specs.Passes.{view};

    /// How many of the 64 shares of its board it has. A pass with all of them is the only one.
    pub fn share(&self) -> u32
        ensures { result ≡ (view self.now).share }
    {
        self.share
    }
}
