ghost use Rattle.std.specs.Prelude.{◌≡◌, ◌<◌, ◌^◌, [], length, replicate, IfOk};
ghost use Rattle.pop_rows.specs.FlatRows.{row_at, push_at, HasRoom, AreRoomy};
ghost use Rattle.pop_rows.specs.Layout.{AreStarts};

use crate::parts::part;
use std::alloc::{AllocError, Global};
use std::marker::Model;

/// Rows of numbers in one array. Each row has room for a fixed number of them. Rows count from 0;
/// there are at most 2^32 - 1.
#[derive(Drop)]
pub struct FlatRows {
    // Row v has its numbers in `items` from starts[v] up to, but without, ends[v]. Its room ends
    // before starts[v + 1].
    starts: Vec<u32>,
    ends: Vec<u32>,
    items: Vec<u32>,
}

impl Model for FlatRows {
    ghost use Rattle.pop_rows.specs.FlatRows.{RoomyRows};
    ghost use Rattle.pop_rows.specs.Layout.{roomy_rows, AreLaidOut};

    ghost Value = { RoomyRows };

    ghost view = { λ a. roomy_rows a.starts.items a.ends.items a.items.items };

    ghost invariant = { λ a. AreLaidOut a.starts.items a.ends.items a.items.items };
}

impl FlatRows {
    /// Makes empty rows with these rooms. If the rooms sum to 2^32 or more, the result is
    /// `AllocError`.
    pub fn with_rooms(alloc: Global, rooms: Vec<u32>) -> Result<FlatRows, AllocError>
        requires { length rooms.items < 2 ^ 32 }
        ensures rooms { IfOk result (λ f. f.rooms ≡ rooms.items) }
        ensures empty { IfOk result (λ f. f.rows ≡ replicate (length rooms.items) []) }
    {
        let count = rooms.len();
        let starts = starts_of(alloc, &rooms)?;
        let items = vec![in alloc; 0; starts[count] as usize]?;
        // The array of the rooms is reused: an empty row ends at its start.
        let mut ends = rooms;
        ends.copy_from_slice(&starts[..count]);
        Ok(FlatRows {
            starts,
            ends,
            items,
        })
    }

    /// The number of rows.
    pub fn count(&self) -> u32
        ensures count { result ≡ length self.now.rows }
        ensures roomy { AreRoomy self.now }
    {
        self.ends.len() as u32
    }

    /// Adds a number at the end of a row. It allocates nothing.
    pub fn push(&mut self, row: u32, x: u32)
        requires { HasRoom self.old row }
        ensures rows { self.new.rows ≡ push_at self.old.rows row x }
        ensures rooms { self.new.rooms ≡ self.old.rooms }
    {
        let end = self.ends[row as usize];
        self.items[end as usize] = x;
        self.ends[row as usize] = end + 1;
    }

    /// The numbers of a row, in the order in which they were pushed.
    pub fn row(&self, row: u32) -> &[u32]
        requires { row < length self.now.rows }
        ensures { result.now ≡ row_at self.now.rows row }
    {
        let v = row as usize;
        part(&self.items, self.starts[v], self.ends[v])
    }
}

// The running sums of the rooms, from 0 for no room to the sum of all rooms.
fn starts_of(alloc: Global, rooms: &[u32]) -> Result<Vec<u32>, AllocError>
    requires { length rooms.now < 2 ^ 32 }
    ensures { IfOk result (λ starts. AreStarts rooms.now starts.items) }
{
    let mut starts = Vec::with_capacity(alloc, rooms.len() + 1)?;
    let mut total: u32 = 0;
    for room in rooms {
        starts.push(total)?;
        total = total.checked_add(*room).ok_or(AllocError)?;
    }
    starts.push(total)?;
    Ok(starts)
}
