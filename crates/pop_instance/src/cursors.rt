ghost use Rattle.std.specs.Prelude.{◌≡◌, ◌<◌, ◌+◌, ◌-◌, ◌^◌, ◌↔◌, length, replicate, slice_set, IfOk, IsTrue, All};
ghost use Rattle.pop_model.specs.Stacks.{variables_of, height_of, value_at};
ghost use Rattle.pop_model.specs.Popping.{Occurs, HasNext, IsPoppable, cursor, pop, NamesBelow, AreWithin};
ghost use Rattle.pop_stacks.specs.Readers.{Belongs};

use crate::Cube;
use pop_stacks::{Reader, Stacks};
use std::alloc::{AllocError, Global};
use std::marker::Model;

/// The cursor of each variable: the number of its current entry. Variables and entries count from
/// 0.
#[derive(Drop)]
pub struct Cursors {
    entries: Vec<u32>,
}

impl Model for Cursors {
    ghost use Rattle.std.specs.Prelude.{ℕ, List};

    ghost Value = { List ℕ };

    ghost view = { λ a. a.entries.items };
}

impl Cursors {
    /// The cursors before any pop: `count` zeros.
    pub fn zeros(alloc: Global, count: u32) -> Result<Cursors, AllocError>
        ensures { IfOk result (λ cursors. cursors ≡ replicate count 0) }
    {
        Ok(Cursors {
            entries: vec![in alloc; 0; count as usize]?,
        })
    }

    /// Cursors with these entries. It allocates nothing.
    pub fn of(entries: Vec<u32>) -> Cursors
        ensures { result ≡ entries.items }
    {
        Cursors { entries }
    }

    /// A copy of these cursors.
    pub fn copy(&self, alloc: Global) -> Result<Cursors, AllocError>
        ensures { IfOk result (λ cursors. cursors ≡ self.now) }
    {
        Ok(Cursors {
            entries: Vec::from_slice(alloc, &self.entries)?,
        })
    }

    /// The number of the current entry of a variable.
    pub fn get(&self, v: u32) -> u32
        requires known { v < length self.now }
        ensures { result ≡ cursor self.now v }
    {
        self.entries[v as usize]
    }

    /// Moves the cursor of a variable on by 1.
    pub fn move_on(&mut self, v: u32)
        requires known { v < length self.old }
        requires room { cursor self.old v < 2 ^ 31 - 1 }
        ensures { self.new ≡ slice_set self.old v (cursor self.old v + 1) }
    {
        self.entries[v as usize] += 1;
    }

    /// Whether the event occurs: each variable of the cube has the cube's value at its cursor.
    pub fn occurs(&self, stacks: &Stacks, reader: &mut Reader, cube: &Cube) -> bool
        requires known { NamesBelow cube.now (length self.now) }
        requires count { variables_of stacks.now ≡ length self.now }
        requires within { AreWithin stacks.now self.now }
        requires belongs { Belongs stacks.now reader.old }
        ensures occurs { IsTrue result ↔ Occurs stacks.now self.now cube.now }
        ensures reader { reader.new ≡ reader.old }
    {
        occurs_at(&self.entries, stacks, reader, cube)
    }

    /// Whether the event can be popped: the cube occurs, and each of its variables has an entry
    /// after its cursor.
    pub fn poppable(&self, stacks: &Stacks, reader: &mut Reader, cube: &Cube) -> bool
        requires known { NamesBelow cube.now (length self.now) }
        requires count { variables_of stacks.now ≡ length self.now }
        requires within { AreWithin stacks.now self.now }
        requires belongs { Belongs stacks.now reader.old }
        ensures poppable { IsTrue result ↔ IsPoppable stacks.now self.now cube.now }
        ensures reader { reader.new ≡ reader.old }
    {
        occurs_at(&self.entries, stacks, reader, cube) && has_next_at(&self.entries, stacks, cube)
    }

    /// Pops an event: the cursor of each of its variables moves on by 1.
    pub fn pop(&mut self, cube: &Cube)
        requires known { NamesBelow cube.now (length self.old) }
        requires room { All (λ p. cursor self.old p.0 < 2 ^ 31 - 1) cube.now }
        ensures { self.new ≡ pop self.old cube.now }
    {
        raise(&mut self.entries, cube);
    }
}

// Whether a variable has this value at its cursor.
fn agrees(entries: &[u32], stacks: &Stacks, reader: &mut Reader, v: u32, x: u32) -> bool
    requires known { v < length entries.now }
    requires count { variables_of stacks.now ≡ length entries.now }
    requires within { AreWithin stacks.now entries.now }
    requires belongs { Belongs stacks.now reader.old }
    ensures agrees { IsTrue result ↔ (value_at stacks.now v (cursor entries.now v) ≡ x) }
    ensures reader { reader.new ≡ reader.old }
{
    reader.entry(stacks, v, entries[v as usize]) == x
}

// Whether each variable of the cube has the cube's value at its cursor.
fn occurs_at(entries: &[u32], stacks: &Stacks, reader: &mut Reader, cube: &Cube) -> bool
    requires known { NamesBelow cube.now (length entries.now) }
    requires count { variables_of stacks.now ≡ length entries.now }
    requires within { AreWithin stacks.now entries.now }
    requires belongs { Belongs stacks.now reader.old }
    ensures occurs { IsTrue result ↔ Occurs stacks.now entries.now cube.now }
    ensures reader { reader.new ≡ reader.old }
{
    for i in 0..cube.len() {
        let (v, x) = cube.pair(i);
        if !agrees(entries, stacks, reader, v, x) {
            return false;
        }
    }
    true
}

// Whether a variable has an entry after its cursor.
fn has_entry_behind(entries: &[u32], stacks: &Stacks, v: u32) -> bool
    requires known { v < length entries.now }
    requires count { variables_of stacks.now ≡ length entries.now }
    requires within { AreWithin stacks.now entries.now }
    ensures { IsTrue result ↔ (cursor entries.now v + 1 < height_of stacks.now v) }
{
    let height = stacks.height(v);
    entries[v as usize] + 1 < height
}

// Whether each variable of the cube has an entry after its cursor.
fn has_next_at(entries: &[u32], stacks: &Stacks, cube: &Cube) -> bool
    requires known { NamesBelow cube.now (length entries.now) }
    requires count { variables_of stacks.now ≡ length entries.now }
    requires within { AreWithin stacks.now entries.now }
    ensures { IsTrue result ↔ HasNext stacks.now entries.now cube.now }
{
    for i in 0..cube.len() {
        let (v, _) = cube.pair(i);
        if !has_entry_behind(entries, stacks, v) {
            return false;
        }
    }
    true
}

// Adds 1 to the cursor of each variable of the cube.
pub(crate) fn raise(entries: &mut [u32], cube: &Cube)
    requires known { NamesBelow cube.now (length entries.old) }
    requires room { All (λ p. cursor entries.old p.0 < 2 ^ 31 - 1) cube.now }
    ensures { entries.new ≡ pop entries.old cube.now }
{
    for i in 0..cube.len() {
        let (v, _) = cube.pair(i);
        entries[v as usize] += 1;
    }
}
