// Parts of an array.
ghost use Rattle.std.specs.Prelude.{◌≡◌, ◌≤◌, length, slice_range};

/// The items from place `start` up to, but without, place `end`.
#[inline]
pub fn part(items: &[u32], start: u32, end: u32) -> &[u32]
    requires begun { start ≤ end }
    requires within { end ≤ length items.now }
    ensures { result.now ≡ slice_range items.now start end }
{
    &items[start as usize..end as usize]
}
