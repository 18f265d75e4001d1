ghost use Rattle.std.specs.Prelude.{◌≡◌, ◌≢◌, ◌<◌, ◌≤◌, ◌^◌, ◌↔◌, length, map, AllPairs, IsTrue, IfOk, vec_len};
ghost use Rattle.std.specs.List.Sorted.{IsStrictlyIncreasing};
ghost use Rattle.pop_model.specs.Families.{AreEvents};
ghost use Rattle.pop_instance.specs.Digests.{digest};
ghost use Rattle.pop_instance.specs.Events.{cube_at, event_number, HasCube};
ghost use Rattle.pop_instance.specs.Gathering.{KeepsFirst};

use crate::Cube;
use std::alloc::{AllocError, Global};
use std::marker::Model;

/// Different cubes under rising numbers. An event is printed by its number. Its place, which
/// counts from 0, is its unit.
#[derive(Drop)]
pub struct Events {
    rows: Vec<(u32, Cube)>,
}

impl Model for Events {
    ghost use Rattle.std.specs.Prelude.{ℕ, List, length, ◌<◌, ◌^◌};
    ghost use Rattle.pop_model.specs.Families.{AreEvents};

    ghost Value = { List (ℕ × List (ℕ × ℕ)) };

    ghost view = { λ a. a.rows.items };

    ghost invariant = { λ a. AreEvents a.rows.items × (length a.rows.items < 2 ^ 31) };
}

impl Events {
    /// The events of these rows, at most 2^31 - 1. Of equal cubes the first is kept, under its
    /// number. The time is linear in the number of pairs, plus n log n for n rows. It takes 8
    /// bytes a row of temporary memory. The rows are sorted, in place, only if two cubes are equal
    /// or have equal digests, which is rare.
    pub fn gather(alloc: Global, rows: Vec<(u32, Cube)>) -> Result<Events, AllocError>
        requires rising { IsStrictlyIncreasing (map (λ r. r.0) rows.items) }
        requires short { length rows.items < 2 ^ 31 }
        ensures { IfOk result (KeepsFirst rows.items) }
    {
        let mut rows = rows;
        drop_repeated(alloc, &mut rows)?;
        // Each length is read for its contract, which says that the row has a cube.
        for (_, cube) in &rows {
            let _len = cube.len();
        }
        Ok(Events { rows })
    }

    /// The events of these rows, at most 2^31 - 1, which must be events already. It allocates
    /// nothing.
    pub fn of(rows: Vec<(u32, Cube)>) -> Events
        requires events { AreEvents rows.items }
        requires short { length rows.items < 2 ^ 31 }
        ensures { result ≡ rows.items }
    {
        Events { rows }
    }

    /// A copy of these events.
    pub fn copy(&self, alloc: Global) -> Result<Events, AllocError>
        ensures { IfOk result (λ events. events ≡ self.now) }
    {
        Ok(Events {
            rows: copy_rows(alloc, &self.rows)?,
        })
    }

    /// The number of events, at most 2^31 - 1.
    pub fn count(&self) -> u32
        ensures count { result ≡ length self.now }
        ensures events { AreEvents self.now }
        ensures short { result < 2 ^ 31 }
    {
        self.rows.len() as u32
    }

    /// The number of the event at a place.
    pub fn number(&self, place: u32) -> u32
        requires { place < length self.now }
        ensures { result ≡ event_number self.now place }
    {
        self.rows[place as usize].0
    }

    /// The cube of the event at a place.
    pub fn cube(&self, place: u32) -> &Cube
        requires { place < length self.now }
        ensures { result.now ≡ cube_at self.now place }
    {
        &self.rows[place as usize].1
    }

    /// Whether some event has this cube. It compares every event.
    pub fn has(&self, cube: &Cube) -> bool
        ensures { IsTrue result ↔ HasCube self.now cube.now }
    {
        has_cube(&self.rows, cube)
    }
}

// A copy of these rows.
fn copy_rows(alloc: Global, rows: &[(u32, Cube)]) -> Result<Vec<(u32, Cube)>, AllocError>
    ensures { IfOk result (λ copies. copies.items ≡ rows.now) }
{
    let mut copies = Vec::with_capacity(alloc, rows.len())?;
    for place in 0..rows.len() {
        let (number, cube) = &rows[place];
        copies.push((*number, cube.copy(alloc)?))?;
    }
    Ok(copies)
}

// Whether some row has this cube.
fn has_cube(rows: &[(u32, Cube)], cube: &Cube) -> bool
    ensures { IsTrue result ↔ HasCube rows.now cube.now }
{
    for (_, other) in rows {
        // Here `eq` has the clause `same` of the method; `==` has only that of the trait.
        if other.eq(cube) {
            return true;
        }
    }
    false
}

// The digest of each row's cube.
fn digests_of(alloc: Global, rows: &[(u32, Cube)]) -> Result<Vec<u64>, AllocError>
    ensures { IfOk result (λ digests. digests.items ≡ map (λ r. digest r.1) rows.now) }
{
    let mut digests = Vec::with_capacity(alloc, rows.len())?;
    for (_, cube) in rows {
        digests.push(cube.digest())?;
    }
    Ok(digests)
}

// Whether the digests of any two rows' cubes differ. That is so if the sorted digests rise
// strictly.
fn digests_differ(alloc: Global, rows: &[(u32, Cube)]) -> Result<bool, AllocError>
    ensures { IfOk result (λ differ.
        IsTrue differ ↔ AllPairs (λ r q. digest r.1 ≢ digest q.1) rows.now) }
{
    let mut digests = digests_of(alloc, rows)?;
    digests.sort_unstable();
    Ok(digests.is_sorted_by(|digest, next| *digest < *next))
}

// Keeps the first row of each cube. Cubes with different digests are different, so usually the
// rows stay as they are.
fn drop_repeated(alloc: Global, rows: &mut Vec<(u32, Cube)>) -> Result<(), AllocError>
    requires { IsStrictlyIncreasing (map (λ r. r.0) rows.old.items) }
    ensures kept { IfOk result (λ _. KeepsFirst rows.old.items rows.new.items) }
    ensures fewer { vec_len rows.new ≤ vec_len rows.old }
{
    if !digests_differ(alloc, rows)? {
        keep_first(rows);
    }
    Ok(())
}

// Keeps the first row of each cube. The rows are sorted by cube and then by number, so rows of one
// cube are adjacent and the first comes first.
fn keep_first(rows: &mut Vec<(u32, Cube)>)
    requires { IsStrictlyIncreasing (map (λ r. r.0) rows.old.items) }
    ensures kept { KeepsFirst rows.old.items rows.new.items }
    ensures fewer { vec_len rows.new ≤ vec_len rows.old }
{
    rows.sort_unstable_by(|row, other| row.1.cmp(&other.1).then(row.0.cmp(&other.0)));
    rows.dedup_by(|row, kept| row.1 == kept.1);
    rows.sort_unstable_by_key(|row| row.0);
}
