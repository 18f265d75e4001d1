//! The common parts of the calls with arrays: their statuses, and the conditions of a valid call.
ghost use Rattle.std.specs.Prelude.{◌≡◌, ◌⊎◌, ◌↔◌, ◌<◌, ◌≤◌, ◌^◌, length, IsTrue};
ghost use Rattle.array_calls.specs.Trees.{FitFrom, FitsWanted, WantsStops};
ghost use Rattle.popsample_c.specs.Calls.{IsDrawn, told_as};

use array_calls::ArrayRefusal;
use graph_read::EndsFault;

// The statuses of a valid call without an error, and of an invalid call.
pub(crate) const SAMPLES: u32 = 0;

pub(crate) const EXHAUSTED: u32 = 1;

pub(crate) const USAGE: u32 = 2;

pub(crate) const STOPPED: u32 = 10;

/// The status, the kind and the place of an error.
pub(crate) fn told(refusal: ArrayRefusal) -> (u32, u64, u64)
    ensures { result ≡ told_as refusal }
{
    match refusal {
        ArrayRefusal::NoGraph(fault) => match fault {
            EndsFault::TooManyVertices => (4, 1, 0),
            EndsFault::OddEnds => (3, 2, 0),
            EndsFault::TooManyEdges => (4, 3, 0),
            EndsFault::WeightCount => (3, 4, 0),
            EndsFault::NoVertex(place) => (3, 5, place as u64),
            EndsFault::NoWeight(place) => (3, 6, place as u64),
            EndsFault::OutOfMemory => (9, 0, 0),
        },
        ArrayRefusal::NoRoot => (6, 7, 0),
        ArrayRefusal::CutOff(vertex) => (6, 8, vertex as u64),
        ArrayRefusal::TooHeavy(vertex) => (4, 9, vertex as u64),
        ArrayRefusal::Isolated(vertex) => (6, 10, vertex as u64),
        ArrayRefusal::OutOfMemory => (9, 0, 0),
    }
}

/// Whether the key has 32 bytes, the height is valid, and the numbers of this many samples have 32
/// bits.
pub(crate) fn is_drawn(key: &[u8], height: u32, first: u32, count: usize) -> bool
    ensures { IsTrue result ↔ IsDrawn key.now height first count }
{
    key.len() == 32
        && height > 0
        && height < 1 << 31
        && count <= 1 << 32
        && first as usize + count <= 1 << 32
}

/// Whether an array has this many rows of this many numbers, or none.
pub(crate) fn fits_wanted(row: usize, count: usize, numbers: &[u32]) -> bool
    requires count { count ≤ 2 ^ 32 }
    requires row { row < 2 ^ 32 }
    ensures { IsTrue result ↔ FitsWanted row count numbers.now }
{
    numbers.is_empty() || numbers.len() == count * row
}

/// Whether rows of cursors are wanted, if there is a budget.
pub(crate) fn wants_stops(budget: u64, row: usize, count: usize, useds: &[u32]) -> bool
    requires count { count ≤ 2 ^ 32 }
    requires row { row < 2 ^ 32 }
    ensures { IsTrue result ↔ WantsStops budget row count useds.now }
{
    budget == u64::MAX || useds.len() == count * row
}

/// Whether these are no cursors, or exactly one row of cursors below the height.
pub(crate) fn fit_from(row: usize, height: u32, from: &[u32]) -> bool
    ensures { IsTrue result ↔ FitFrom row height from.now }
{
    if !from.is_empty() && from.len() != row {
        return false;
    }
    for k in 0..from.len() {
        if from[k] >= height {
            return false;
        }
    }
    true
}

/// The 32 bytes of a key.
pub(crate) fn key_of(key: &[u8]) -> [u8; 32]
    requires { length key.now ≡ 32 }
    ensures { result ≡ key.now }
{
    let mut bytes = [0; 32];
    bytes.copy_from_slice(key);
    bytes
}
