ghost use Rattle.std.specs.Prelude.{◌≡◌, map, IfNone, IfSome};
ghost use Rattle.pop_model.specs.Places.{IsLeast};
ghost use Rattle.pop_rows.specs.PrefixSums.{running, IsTooHeavy, AreLight};
ghost use Rattle.pop_stacks.specs.Rows.{lists_of, AreShort};

use pop_rows::accumulate;

/// Replaces each row by its running sums. If a sum exceeds 32 bits, it returns the first row with
/// such a sum.
pub fn accumulate_rows(rows: &mut Vec<Vec<u32>>) -> Option<u32>
    requires { AreShort (lists_of rows.old.items) }
    ensures sums { IfNone result
        (lists_of rows.new.items ≡ map (running 0) (lists_of rows.old.items)) }
    ensures light { IfNone result (AreLight (lists_of rows.old.items)) }
    ensures heavy { IfSome result (IsLeast (IsTooHeavy (lists_of rows.old.items))) }
{
    for v in 0..rows.len() {
        let row = &mut rows[v];
        if !accumulate(row) {
            return Some(v as u32);
        }
    }
    None
}
