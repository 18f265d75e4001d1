//! Rows, weights and events, given by tables. A table that does not describe any fails the test.
ghost use Rattle.std.specs.Prelude.{◌≡◌, ◌<◌, length, All};
ghost use Rattle.std.specs.Bool.{OnTrue};
ghost use Rattle.pop_model.specs.Stacks.{variables_of};
ghost use Rattle.pop_model.specs.Popping.{AreWithin};

use crate::compare::made;
use pop_instance::{Cursors, Family};
use pop_stacks::{Rows, Stacks, Weights};
use std::alloc::Global;
use std::process::Abort;
use test_instances::{EventRow, event_rows, family};

/// These rows.
pub fn rows(rt: &impl Abort, alloc: Global, table: &[&[u32]]) -> Rows {
    made(rt, test_instances::rows(alloc, table), "rows")
}

/// Whether there is a weight, and none is 0.
pub fn are_weights(row: &[u32]) -> bool
    ensures { OnTrue result ((0 < length row.now) × All (λ weight. 0 < weight) row.now) }
{
    !row.is_empty() && row.iter().all(|weight| *weight > 0)
}

/// The weights of these rows. There are fewer than nine rows, each of fewer than nine numbers, and
/// no number is 0.
pub fn weights(rt: &impl Abort, alloc: Global, table: &[&[u32]]) -> Weights {
    let mut rows = Vec::new(alloc);
    for row in table {
        let is_good = are_weights(row) && row.len() < 9;
        assert!(rt; is_good);
        let row = Vec::from_slice(alloc, row).expect(rt, "memory");
        rows.push(row).expect(rt, "memory");
    }
    assert!(rt; rows.len() < 9);
    Weights::of(Rows::of(rows))
}

/// The family of the events with these numbers and pairs. The numbers must rise.
pub fn listed(rt: &impl Abort, alloc: Global, table: &[EventRow]) -> Family {
    let rows = made(rt, event_rows(alloc, table), "events");
    made(rt, family(alloc, rows), "a family")
}

/// Whether each variable has an entry at its cursor.
pub fn are_within(stacks: &Stacks, cursors: &Cursors) -> bool
    requires { variables_of stacks.now ≡ length cursors.now }
    ensures { OnTrue result (AreWithin stacks.now cursors.now) }
{
    for v in 0..stacks.count() {
        if cursors.get(v) >= stacks.height(v) {
            return false;
        }
    }
    true
}
