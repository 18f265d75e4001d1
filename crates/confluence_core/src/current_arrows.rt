ghost use Rattle.std.specs.Prelude.{◌≡◌, ◌<◌, ◌+◌, ◌↔◌, [], length, slice_index_or, IsTrue};
ghost use Rattle.pop_model.specs.Stacks.{height_of, value_at};
ghost use Rattle.pop_model.specs.Popping.{cursor};
ghost use Rattle.pop_model.specs.Cycles.{head_of};
ghost use Rattle.pop_model.specs.Families.Family.{Cycles as CycleEvents};
ghost use Rattle.pop_model.specs.Instances.{IsInstance, FamilyFits};
ghost use Rattle.pop_stacks.specs.Readers.{Belongs};
ghost use Rattle.confluence_core.specs.CycleTables.{cycles, current_slot, current_head, AreCursors};

use pop_instance::{Arrows, Cursors};
use pop_stacks::{Reader, Stacks};
use std::marker::Model;

/// The current arrows. Each variable has one: the value at its cursor is a slot, and the arrow
/// leads to the head of this slot. Walks read entries only here, each time by the caller's reader
/// of the stacks. Contracts see the stacks and the heads.
#[derive(Drop)]
pub struct CurrentArrows<'a> {
    stacks: &'a Stacks,
    arrows: &'a Arrows,
}

impl<'a> Model for CurrentArrows<'a> {
    ghost use Rattle.std.specs.Prelude.{◌≡◌};
    ghost use Rattle.pop_model.specs.Instances.{IsInstance};
    ghost use Rattle.confluence_core.specs.CycleTables.{CycleTable, cycles};

    ghost Value = { CycleTable };

    ghost view = { λ a. record { stacks = a.stacks.now; heads = a.arrows.now } };

    ghost invariant = { λ a. IsInstance
        (cycles (record { stacks = a.stacks.now; heads = a.arrows.now })) };
}

impl<'a> CurrentArrows<'a> {
    /// The arrows of an instance. It allocates nothing.
    pub fn of(stacks: &'a Stacks, arrows: &'a Arrows) -> CurrentArrows<'a>
        requires fits { FamilyFits stacks.now (CycleEvents arrows.now) }
        ensures { result ≡ record { stacks = stacks.now; heads = arrows.now } }
    {
        let _stacks = stacks.count();
        let _arrows = arrows.count();
        CurrentArrows { stacks, arrows }
    }

    /// The number of variables.
    pub fn count(&self) -> u32
        ensures count { result ≡ length self.now.heads }
        ensures instance { IsInstance (cycles self.now) }
    {
        self.arrows.count()
    }

    /// The slot that is entry k of a variable.
    pub fn slot_at(&self, reader: &mut Reader, v: u32, k: u32) -> u32
        requires known { v < length self.now.heads }
        requires place { k < height_of self.now.stacks v }
        requires belongs { Belongs self.now.stacks reader.old }
        ensures slot { result ≡ value_at self.now.stacks v k }
        ensures within { result < length (slice_index_or self.now.heads v []) }
        ensures reader { reader.new ≡ reader.old }
    {
        reader.entry(self.stacks, v, k)
    }

    /// The head of the arrow of a variable at entry k, or None for the root.
    pub fn head_at(&self, reader: &mut Reader, v: u32, k: u32) -> Option<u32>
        requires known { v < length self.now.heads }
        requires place { k < height_of self.now.stacks v }
        requires belongs { Belongs self.now.stacks reader.old }
        ensures head { result ≡ head_of self.now.heads v (value_at self.now.stacks v k) }
        ensures reader { reader.new ≡ reader.old }
    {
        let slot = self.slot_at(reader, v, k);
        self.arrows.head(v, slot)
    }

    /// Whether a variable has an entry after entry k.
    pub fn has_next_at(&self, v: u32, k: u32) -> bool
        requires known { v < length self.now.heads }
        requires place { k < height_of self.now.stacks v }
        ensures { IsTrue result ↔ (k + 1 < height_of self.now.stacks v) }
    {
        let height = self.stacks.height(v);
        k + 1 < height
    }

    /// The current slot of a variable.
    pub fn slot(&self, reader: &mut Reader, cursors: &Cursors, v: u32) -> u32
        requires known { v < length self.now.heads }
        requires cursors { AreCursors self.now cursors.now }
        requires belongs { Belongs self.now.stacks reader.old }
        ensures slot { result ≡ current_slot self.now cursors.now v }
        ensures within { result < length (slice_index_or self.now.heads v []) }
        ensures reader { reader.new ≡ reader.old }
    {
        let _count = self.count();
        self.slot_at(reader, v, cursors.get(v))
    }

    /// The head of the current arrow of a variable, or None for the root.
    pub fn head(&self, reader: &mut Reader, cursors: &Cursors, v: u32) -> Option<u32>
        requires known { v < length self.now.heads }
        requires cursors { AreCursors self.now cursors.now }
        requires belongs { Belongs self.now.stacks reader.old }
        ensures head { result ≡ current_head self.now cursors.now v }
        ensures reader { reader.new ≡ reader.old }
    {
        let _count = self.count();
        self.head_at(reader, v, cursors.get(v))
    }

    /// Whether a variable has an entry after its cursor.
    pub fn has_next(&self, cursors: &Cursors, v: u32) -> bool
        requires known { v < length self.now.heads }
        requires cursors { AreCursors self.now cursors.now }
        ensures { IsTrue result ↔ (cursor cursors.now v + 1 < height_of self.now.stacks v) }
    {
        let _count = self.count();
        self.has_next_at(v, cursors.get(v))
    }
}
