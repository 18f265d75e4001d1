ghost use Rattle.std.specs.Prelude.{◌≡◌, ◌<◌, ◌≤◌, ◌+◌, ◌^◌, ℕ, slice_get, slice_index};
ghost use Rattle.std.specs.Option.{option_and_then};
ghost use Rattle.pop_stacks.specs.KeptValues.{IsBehind, kept_in};

use crate::mark::{NOTHING, place_of};
use crate::refill::{BLOCK, BLOCKS};

/// Values of entries of a variable, one byte each.
#[derive(Clone, Copy)]
pub struct ByteLine {
    /// Which entries are kept.
    pub mark: u32,
    pub values: [u8; 32],
}

/// A line that keeps no entries.
pub const EMPTY: ByteLine = ByteLine {
    mark: NOTHING,
    values: [0; 32],
};

impl ByteLine {
    /// A line with this mark and these values at its first places.
    pub fn of<const N: usize>(mark: u32, first: &[u8; N]) -> ByteLine
        requires { N ≤ 32 }
        ensures mark { result.mark ≡ mark }
        ensures values { (i : ℕ) → i < N → slice_index result.values i ≡ slice_index first.now i }
    {
        let mut values = [0; 32];
        for i in 0..N {
            values[i] = first[i];
        }
        ByteLine { mark, values }
    }

    /// The value of entry k of variable v, if its line keeps it.
    #[inline]
    pub fn value_in(lines: &[ByteLine], v: u32, k: u32) -> Option<u32>
        ensures { result ≡
            option_and_then (λ l. kept_in l.mark (slice_index l.values) k) (slice_get lines.now v) }
    {
        let line = lines.get(v as usize)?;
        let place = place_of(line.mark, k)?;
        Some(line.values[place as usize] as u32)
    }

    /// The line with the values of a block added after those that it keeps.
    #[inline]
    pub fn with(self, block: u32, values: &[u8; 8]) -> ByteLine
        requires small { block < 2 ^ 28 }
        ensures mark { result.mark ≡ block + 1 }
        ensures values { IsBehind block (slice_index self.values) values.now
            (slice_index result.values) }
    {
        let place = (BLOCK * (block % BLOCKS)) as usize;
        let mut all = self.values;
        for i in 0..8 {
            all[place + i] = values[i];
        }
        ByteLine {
            mark: block + 1,
            values: all,
        }
    }
}
