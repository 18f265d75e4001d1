ghost use Rattle.std.specs.Prelude.{◌≡◌, ◌<◌, ◌+◌, ◌^◌, slice_get};
ghost use Rattle.std.specs.Int.{bit_at};
ghost use Rattle.std.specs.Option.{option_and_then};
ghost use Rattle.pop_stacks.specs.KeptValues.{AreBelow, IsBehind, kept_in};

use crate::bit_planes::{behind, plane};
use crate::mark::{NOTHING, place_of};
use crate::refill::{BLOCK, BLOCKS};

/// Values of entries of a variable with at most two values, one bit each.
#[derive(Clone, Copy)]
pub struct BitLine {
    /// Which entries are kept.
    pub mark: u32,
    /// The value at the first place is the lowest bit.
    pub bits: u32,
}

/// A line that keeps no entries.
pub const EMPTY: BitLine = BitLine {
    mark: NOTHING,
    bits: 0,
};

impl BitLine {
    /// The value of entry k of variable v, if its line keeps it.
    #[inline]
    pub fn value_in(lines: &[BitLine], v: u32, k: u32) -> Option<u32>
        ensures { result ≡
            option_and_then (λ l. kept_in l.mark (bit_at l.bits) k) (slice_get lines.now v) }
    {
        let line = lines.get(v as usize)?;
        let place = place_of(line.mark, k)?;
        Some((line.bits >> place) & 1)
    }

    /// The line with the values of a block added after those that it keeps. The values are below
    /// 2.
    #[inline]
    pub fn with(self, block: u32, values: &[u8; 8]) -> BitLine
        requires small { block < 2 ^ 28 }
        requires below { AreBelow 2 8 values.now }
        ensures mark { result.mark ≡ block + 1 }
        ensures values { IsBehind block (bit_at self.bits) values.now (bit_at result.bits) }
    {
        let more = plane(values, 0);
        let bits = behind(self.bits, BLOCK * (block % BLOCKS), more);
        BitLine {
            mark: block + 1,
            bits,
        }
    }
}
