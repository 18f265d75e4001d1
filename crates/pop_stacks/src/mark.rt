// A mark says in one machine word which entries of a variable its line keeps. It is the number of
// blocks that were read; those in the group of the last block are kept.
ghost use Rattle.std.specs.Prelude.{◌≡◌};
ghost use Rattle.pop_stacks.specs.KeptValues.{place_in};

use crate::refill::{BLOCK, BLOCKS, GROUP};

/// No entry is kept.
pub const NOTHING: u32 = 0;

/// The place of entry k in a line with this mark, if it is kept.
#[inline]
pub fn place_of(mark: u32, k: u32) -> Option<u32>
    ensures { result ≡ place_in mark k }
{
    if k / BLOCK < mark && (mark - 1) / BLOCKS == k / GROUP {
        return Some(k % GROUP);
    }
    None
}
