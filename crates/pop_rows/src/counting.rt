// Counts how much room each row needs.
ghost use Rattle.std.specs.Prelude.{◌≡◌, ◌<◌, ◌+◌, ◌-◌, ◌^◌, length, slice_index, slice_set};

/// Reserves room for one more number in a row: adds 1 to the room of this row. Rows count from 0.
pub fn count_at(rooms: &mut [u32], row: u32)
    requires known { row < length rooms.old }
    requires few { slice_index rooms.old row < 2 ^ 32 - 1 }
    ensures { rooms.new ≡ slice_set rooms.old row (slice_index rooms.old row + 1) }
{
    rooms[row as usize] += 1;
}
