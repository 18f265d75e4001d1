ghost use Rattle.std.specs.Prelude.{◌≡◌, length};

use crate::plays::StartStep;
use crate::{Board, Pass};

impl<'i> Board<'i> {
    ghost use Rattle.claim_words.specs.Passes.{
      IsOf,
      SameRoom,
      view,
      count_of,
      opening_of,
    };

    /// Reads a word without changing it, which proves to the caller that the board started from a
    /// cursor for each variable. It allocates nothing.
    pub fn look_at_start(&self, pass: &mut Pass)
        requires pass { IsOf self.now pass.old }
        ensures count { length (opening_of self.now).start.value ≡ count_of self.now }
        ensures pass { IsOf self.now pass.new }
        ensures view { view pass.new ≡ view pass.old }
        ensures room { SameRoom pass.old pass.new }
    {
        self.table.shared.load::<StartStep>(&mut pass.seat, 0);
    }
}
