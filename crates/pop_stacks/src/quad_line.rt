ghost use Rattle.std.specs.Prelude.{◌≡◌, ◌<◌, ◌≤◌, ◌+◌, ◌^◌, ℕ, slice_get, slice_index};
ghost use Rattle.std.specs.Option.{option_and_then};
ghost use Rattle.pop_stacks.specs.KeptValues.{AreBelow, IsBehind, kept_in, two_bits_at, quad_in};

use crate::mark::{NOTHING, place_of};
use crate::refill::{BLOCK, BLOCKS};

/// Values of entries of a variable with at most four values, two bits each.
#[derive(Clone, Copy)]
pub struct QuadLine {
    /// Which entries are kept.
    pub mark: u32,
    /// The values of each block of the group, with the block's first entry in the lowest bits.
    pub blocks: [u16; 4],
}

/// A line that keeps no entries.
pub const EMPTY: QuadLine = QuadLine {
    mark: NOTHING,
    blocks: [0; 4],
};

// The values of a block, from place `at` on, packed two bits each. They are below 4.
fn quads<const N: usize>(values: &[u8; N], at: usize) -> u16
    requires place { at + 8 ≤ N }
    requires below { AreBelow 4 N values.now }
    ensures { (i : ℕ) → i < 8 → two_bits_at result i ≡ slice_index values.now (at + i) }
{
    let mut bits: u16 = 0;
    for i in 0..8 {
        bits = 4 * bits + values[at + 7 - i] as u16;
    }
    bits
}

impl QuadLine {
    /// A line with this mark and the values of a group, which are below 4.
    pub fn of(mark: u32, values: &[u8; 32]) -> QuadLine
        requires { AreBelow 4 32 values.now }
        ensures mark { result.mark ≡ mark }
        ensures values { (i : ℕ) → i < 32 → quad_in result.blocks i ≡ slice_index values.now i }
    {
        QuadLine {
            mark,
            blocks: [
                quads(values, 0),
                quads(values, 8),
                quads(values, 16),
                quads(values, 24),
            ],
        }
    }

    /// The value of entry k of variable v, if its line keeps it.
    #[inline]
    pub fn value_in(lines: &[QuadLine], v: u32, k: u32) -> Option<u32>
        ensures { result ≡
            option_and_then (λ l. kept_in l.mark (quad_in l.blocks) k) (slice_get lines.now v) }
    {
        let line = lines.get(v as usize)?;
        let place = place_of(line.mark, k)?;
        let values = line.blocks[(place / BLOCK % BLOCKS) as usize];
        Some(((values >> (2 * (place % BLOCK))) % 4) as u32)
    }

    /// The line with the values of a block added after those that it keeps. The values are below
    /// 4.
    #[inline]
    pub fn with(self, block: u32, values: &[u8; 8]) -> QuadLine
        requires small { block < 2 ^ 28 }
        requires below { AreBelow 4 8 values.now }
        ensures mark { result.mark ≡ block + 1 }
        ensures values { IsBehind block (quad_in self.blocks) values.now (quad_in result.blocks) }
    {
        let mut blocks = self.blocks;
        blocks[(block % BLOCKS) as usize] = quads(values, 0);
        QuadLine {
            mark: block + 1,
            blocks,
        }
    }
}
