ghost use Rattle.std.specs.Prelude.{ℕ, List, Option};
ghost use Rattle.std.specs.Borrow.{ftrue};
ghost use Rattle.std.specs.Coded.{coded_option};
ghost use Rattle.pop_model.specs.Logs.{LogRecord};
ghost use Rattle.claim_words.specs.Codes.{mine_coded};
ghost use Rattle.claim_words.specs.declared.opening.Opening.{Opening};
ghost use Rattle.claim_words.specs.contracts.opening.Opening.{the_row};

use std::marker::Model;

/// What a pass has, knows and owes. It exists only for contracts: no value of it is made.
pub struct View {
    // The board's instance and start. It is None in the view of a pass that has ended.
    pub ghost opening: { Option Opening } by { coded_option the_row.coded },
    // How many of the 64 shares of the board it has.
    pub ghost share: { ℕ },
    // How many splits and joins it has made.
    pub ghost moves: { ℕ },
    // What it has claimed and holds: variables and cursors, in the order of its claims.
    pub ghost held: { List (ℕ × ℕ) },
    // The cursors that its claims found, unless busy, and those found by passes that it joined. A
    // later claim of a variable finds at least the variable's cursor here.
    pub ghost found: { List (ℕ × ℕ) },
    // What its claims and takes found, in order: the index of each word, and the word.
    pub ghost seen: { List (ℕ × ℕ) },
    // What it knows to be settled: variables and cursors.
    pub ghost settled: { List (ℕ × ℕ) },
    // The units with marks that it took and has not resolved.
    pub ghost taken: { List ℕ },
    // The units that it must still mark.
    pub ghost owed: { List ℕ },
    // What its takes and marks did, in order, and those of passes that it joined: the unit, the
    // mark before, and the mark after.
    pub ghost changes: { List (ℕ × ℕ × ℕ) },
    // The pairs of a popped event with an advance that is due. Between calls there are none.
    pub ghost due: { List (ℕ × ℕ) },
    // The tickets that it drew or took over, each with its record.
    pub ghost mine: { List (ℕ × LogRecord) } by { mine_coded },
}

impl Model for View {
    ghost also_owns = { λ _. ftrue };
}
