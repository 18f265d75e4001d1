//! Values at cursors, by one reader and by several.
ghost use Rattle.std.specs.Prelude.{◌≡◌, ◌<◌, length, All};
ghost use Rattle.pop_model.specs.Stacks.{variables_of};
ghost use Rattle.pop_model.specs.Popping.{AreWithin};
ghost use Rattle.pop_stacks.specs.Readers.{Belongs};

use crate::compare::{made, same};
use crate::tables::are_within;
use pop_instance::{Cursors, Values};
use pop_stacks::{Reader, Stacks};
use std::alloc::Global;
use std::process::Abort;
use test_instances::stacks;

// Adds a reader of the stacks.
fn push_reader(rt: &impl Abort, stacks: &Stacks, readers: &mut Vec<Reader>)
    requires { All (Belongs stacks.now) readers.old.items }
    ensures some { 0 < length readers.new.items }
    ensures belong { All (Belongs stacks.now) readers.new.items }
{
    readers.push(Reader::new(stacks)).expect(rt, "memory");
}

// This many readers of the stacks, at least one.
fn readers_of(rt: &impl Abort, alloc: Global, stacks: &Stacks, count: u32) -> Vec<Reader>
    ensures some { 0 < length result.items }
    ensures belong { All (Belongs stacks.now) result.items }
{
    let mut readers = Vec::new(alloc);
    push_reader(rt, stacks, &mut readers);
    for _ in 1..count {
        push_reader(rt, stacks, &mut readers);
    }
    readers
}

// The value of a variable at cursors, by this many readers.
fn value_by(
    rt: &impl Abort,
    alloc: Global,
    stacks: &Stacks,
    cursors: &Cursors,
    count: u32,
    v: u32,
) -> u32
    requires count { variables_of stacks.now ≡ length cursors.now }
    requires within { AreWithin stacks.now cursors.now }
    requires variable { v < variables_of stacks.now }
{
    let mut readers = readers_of(rt, alloc, stacks, count);
    let values = Values::at_by(alloc, stacks, &mut readers, cursors).expect(rt, "memory");
    drop(readers);
    let value = values.get(v);
    drop(values);
    value
}

// Compares the value of a variable at its first entry, by this many readers.
fn has_value(rt: &impl Abort, alloc: Global, stacks: &Stacks, count: u32, v: u32, want: u32) {
    let zeros = Cursors::zeros(alloc, stacks.count()).expect(rt, "memory");
    let are_there = v < stacks.count() && are_within(stacks, &zeros);
    assert!(rt; are_there);
    let found = value_by(rt, alloc, stacks, &zeros, count, v);
    drop(zeros);
    same(rt, found, want, "value by so many readers", count);
}

// Two variables with the entries 0, 1 and 1, 0. The test compares their first entries with 0 and
// 1, by one reader and by more.
#[test]
fn as_many_readers_as_there_are_see_one_value(rt: HostRuntime) {
    let stacks = made(&rt, stacks(rt.alloc(), &[&[0, 1], &[1, 0]]), "stacks");
    for count in 1..4 {
        has_value(&rt, rt.alloc(), &stacks, count, 0, 0);
        has_value(&rt, rt.alloc(), &stacks, count, 1, 1);
    }
    drop(stacks);
}
