//! The threads that share the pops of a run.
ghost use Rattle.std.specs.Prelude.{◌≡◌, ◌<◌, ◌≤◌, ◌↔◌, IsTrue};
ghost use Rattle.pop_words.specs.declared.board_kind.BoardKind.TheVariants.{Words};

use pop_words::BoardKind;
use std::marker::Model;

/// A number of workers, from 1 to 64, and the board that they share. Contracts see both.
#[derive(Clone, Copy, Debug, PartialEq, Eq)]
pub struct Crew {
    workers: u32,
    board: BoardKind,
}

impl Model for Crew {
    ghost use Rattle.std.specs.Prelude.{ℕ, ◌<◌, ◌≤◌};
    ghost use Rattle.pop_words.specs.declared.board_kind.BoardKind.{BoardKind};

    ghost Value = { ℕ × BoardKind };

    ghost view = { λ a. (a.workers, a.board) };

    ghost inverse = { λ seen. record { workers = seen.0; board = seen.1 } };

    ghost invariant = { λ a. (0 < a.workers) × (a.workers ≤ 64) };
}

impl Crew {
    /// A crew of this many workers on this board.
    pub fn new(workers: u32, board: BoardKind) -> Crew
        requires one { 0 < workers }
        requires few { workers ≤ 64 }
        ensures { result ≡ (workers, board) }
    {
        Crew { workers, board }
    }

    /// The number of workers.
    pub fn workers(self) -> u32
        ensures are { result ≡ self.0 }
        ensures one { 0 < result }
        ensures few { result ≤ 64 }
    {
        self.workers
    }

    /// Whether they claim words of a board. Otherwise they share a book under a lock.
    pub fn claims(self) -> bool
        ensures { IsTrue result ↔ (self.1 ≡ Words) }
    {
        self.board == BoardKind::Words
    }
}
