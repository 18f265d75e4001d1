ghost use Rattle.std.specs.Prelude.{◌≡◌, ◌<◌, ◌≤◌, ◌+◌, ◌-◌, ◌*◌, ◌^◌, ℕ, length, slice_index};
ghost use Rattle.pop_model.specs.Stacks.{weighted, scaled};
ghost use Rattle.pop_stacks.specs.Draws.{differences, RisesFrom};

/// The first place of a sum above m, by binary search: a variable may have a million values.
pub fn first_above(sums: &[u32], m: u32) -> usize
    requires some { 0 < length sums.now }
    requires rising { RisesFrom 0 sums.now }
    requires above { m < slice_index sums.now (length sums.now - 1) }
    ensures within { result < length sums.now }
    ensures above { m < slice_index sums.now result }
    ensures least { (k : ℕ) → k < result → slice_index sums.now k ≤ m }
{
    let mut low = 0;
    let mut high = sums.len() - 1;
    while low < high {
        let middle = low + (high - low) / 2;
        if sums[middle] <= m {
            low = middle + 1;
        } else {
            high = middle;
        }
    }
    low
}

/// The 64-bit number of two words, scaled to a total: the top 32 bits of the 96-bit product,
/// computed by halves.
pub fn scale(low: u32, high: u32, total: u32) -> u32
    requires { 0 < total }
    ensures scaled { result ≡ scaled (low + 2 ^ 32 * high) total }
    ensures below { result < total }
{
    let carried = (low as u64 * total as u64) >> 32;
    ((high as u64 * total as u64 + carried) >> 32) as u32
}

/// The value that the number of two words, low word first, selects under the weights with these
/// running sums.
pub fn draw(sums: &[u32], low: u32, high: u32) -> u32
    requires some { 0 < length sums.now }
    requires short { length sums.now < 2 ^ 31 }
    requires rising { RisesFrom 0 sums.now }
    ensures value { result ≡ weighted (differences 0 sums.now) (low + 2 ^ 32 * high) }
    ensures within { result < length sums.now }
{
    let total = sums[sums.len() - 1];
    let m = scale(low, high, total);
    // Weights of 1 have the running sums 1, 2, 3 and so on.
    if total as usize == sums.len() {
        return m;
    }
    first_above(sums, m) as u32
}
