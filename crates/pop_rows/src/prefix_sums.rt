ghost use Rattle.std.specs.Prelude.{◌<◌, ◌^◌, ◌↔◌, ◌≡◌, sum, IsTrue};
ghost use Rattle.std.specs.Bool.{OnTrue};
ghost use Rattle.pop_rows.specs.PrefixSums.{running};

/// Replaces each number by the sum of the numbers up to it. Returns false if a sum exceeds 32
/// bits.
pub fn accumulate(row: &mut [u32]) -> bool
    ensures sums { OnTrue result (row.new ≡ running 0 row.old) }
    ensures light { IsTrue result ↔ (sum row.old < 2 ^ 32) }
{
    let mut total: u32 = 0;
    for x in row.iter_mut() {
        let Some(sum) = total.checked_add(*x) else {
            return false;
        };
        total = sum;
        *x = sum;
    }
    true
}
