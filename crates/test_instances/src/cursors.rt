ghost use Rattle.std.specs.Prelude.{◌≡◌, length};

use pop_instance::Cursors;

/// Whether the cursors of this many variables are these.
pub fn has_cursors(cursors: &Cursors, count: u32, want: &[u32]) -> bool
    requires { count ≡ length cursors.now }
{
    if want.len() != count as usize {
        return false;
    }
    for v in 0..count {
        if cursors.get(v) != want[v as usize] {
            return false;
        }
    }
    true
}

/// Whether this many variables have the same cursors twice.
pub fn are_cursors_alike(cursors: &Cursors, others: &Cursors, count: u32) -> bool
    requires cursors { count ≡ length cursors.now }
    requires others { count ≡ length others.now }
{
    for v in 0..count {
        if cursors.get(v) != others.get(v) {
            return false;
        }
    }
    true
}
