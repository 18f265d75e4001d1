ghost use Rattle.std.specs.Prelude.{map};
ghost use Rattle.std.specs.Bool.{OnTrue};
ghost use Rattle.std.specs.List.Sorted.{IsStrictlyIncreasing};

use pop_instance::{Cube, Events, Family};
use std::alloc::Global;
use std::test::Fail;

/// An event, by its number and the pairs of its cube.
pub type EventRow = (u32, &'static [(u32, u32)]);

/// The cube of these pairs, at most eight.
pub fn cube(alloc: Global, pairs: &[(u32, u32)]) -> Result<Cube, Fail> {
    if pairs.len() >= 9 {
        return Err(Fail::new("too many pairs"));
    }
    let pairs = Vec::from_slice(alloc, pairs)?;
    match Cube::new(pairs) {
        Some(cube) => Ok(cube),
        None => Err(Fail::new("no cube")),
    }
}

// Whether the numbers rise.
fn are_rising(rows: &[(u32, Cube)]) -> bool
    ensures { OnTrue result (IsStrictlyIncreasing (map (λ r. r.0) rows.now)) }
{
    for i in 1..rows.len() {
        if rows[i - 1].0 >= rows[i].0 {
            return false;
        }
    }
    true
}

/// The family of these events, fewer than 9999, with rising numbers.
pub fn family(alloc: Global, rows: Vec<(u32, Cube)>) -> Result<Family, Fail> {
    if rows.len() >= 9999 || !are_rising(&rows) {
        return Err(Fail::new("too many events, or numbers that don't rise"));
    }
    Ok(Family::Listed(Events::gather(alloc, rows)?))
}

/// The rows of events with these numbers and pairs.
pub fn event_rows(alloc: Global, table: &[EventRow]) -> Result<Vec<(u32, Cube)>, Fail> {
    let mut rows = Vec::new(alloc);
    for (number, pairs) in table {
        rows.push((*number, cube(alloc, pairs)?))?;
    }
    Ok(rows)
}
