ghost use Rattle.std.specs.Prelude.{◌≡◌, ◌<◌, length, slice_index_or, [], IfOk, All};
ghost use Rattle.pop_model.specs.Popping.{NamesBelow};
ghost use Rattle.pop_rows.specs.FlatRows.{HasRoom};
ghost use Rattle.pop_instance.specs.Index.{IsIndex, AreTallies, IsPut};
ghost use Rattle.pop_instance.specs.KeptRows.{rows_kept};

use crate::cursors::raise;
use crate::{Cube, Events};
use pop_rows::{FlatRows, RowList};
use std::alloc::{AllocError, Global};
use std::marker::Model;

// The two ways of storing the places of all variables.
#[derive(Drop)]
enum KeptRows {
    // Filled in the order of the events, with room for the places of each variable.
    Roomy(FlatRows),
    // Filled variable by variable.
    EndToEnd(RowList),
}

/// For each variable the places of the events that name it.
#[derive(Drop)]
pub struct Index {
    rows: KeptRows,
}

impl Model for Index {
    ghost use Rattle.std.specs.Prelude.{ℕ, List};
    ghost use Rattle.pop_instance.specs.KeptRows.{rows_kept};

    ghost Value = { List (List ℕ) };

    ghost view = { λ a. rows_kept a.rows };
}

impl Index {
    /// The index of the events over `count` variables. Time and memory are linear in the variables
    /// and the pairs of all cubes.
    pub fn build(alloc: Global, events: &Events, count: u32) -> Result<Index, AllocError>
        requires known { All (λ r. NamesBelow r.1 count) events.now }
        ensures index { IfOk result (IsIndex events.now) }
        ensures count { IfOk result (λ index. length index ≡ count) }
    {
        let mut rows = FlatRows::with_rooms(alloc, tally(alloc, events, count)?)?;
        for place in 0..events.count() {
            push_at_each(&mut rows, events.cube(place), place);
        }
        Ok(Index {
            rows: KeptRows::Roomy(rows),
        })
    }

    /// The index with these rows: for each variable the places of the events that name it, rising.
    /// If the rows can be made in the order of the variables, this is faster than `build`.
    pub fn of(rows: RowList) -> Index
        ensures { result ≡ rows }
    {
        Index {
            rows: KeptRows::EndToEnd(rows),
        }
    }

    /// The places of the events that name a variable, rising.
    pub fn at(&self, v: u32) -> &[u32]
        requires known { v < length self.now }
        ensures { result.now ≡ slice_index_or self.now v [] }
    {
        match &self.rows {
            KeptRows::Roomy(rows) => rows.row(v),
            KeptRows::EndToEnd(rows) => rows.row(v),
        }
    }
}

// For each variable the number of events that name it.
fn tally(alloc: Global, events: &Events, count: u32) -> Result<Vec<u32>, AllocError>
    requires known { All (λ r. NamesBelow r.1 count) events.now }
    ensures { IfOk result (λ tallies.
        AreTallies events.now (length events.now) count tallies.items) }
{
    let mut tallies = vec![in alloc; 0; count as usize]?;
    for place in 0..events.count() {
        raise(&mut tallies, events.cube(place));
    }
    Ok(tallies)
}

// Adds the place at the end of the row of each of the cube's variables.
fn push_at_each(rows: &mut FlatRows, cube: &Cube, place: u32)
    requires known { NamesBelow cube.now (length rows.old.rows) }
    requires room { All (λ p. HasRoom rows.old p.0) cube.now }
    ensures rows { IsPut cube.now place rows.old.rows rows.new.rows }
    ensures rooms { rows.new.rooms ≡ rows.old.rooms }
{
    for i in 0..cube.len() {
        let (v, _) = cube.pair(i);
        rows.push(v, place);
    }
}
