//! The values of `test_instances`. A table that does not describe one ends the test at once. So no
//! test returns early while it owns such a value.
use pop_instance::{Arrows, Cube, Family, Instance};
use pop_stacks::Stacks;
use std::alloc::Global;
use std::process::Abort;
use std::test::Fail;
use test_instances::EventRow;

// The value that was made. Ends the test if there is none.
fn made<T>(rt: &impl Abort, made: Result<T, Fail>, what: &str) -> T {
    match made {
        Ok(made) => made,
        Err(_) => panic!(rt; "this table is none of {what}"),
    }
}

/// The cube of these pairs.
pub fn cube(rt: &impl Abort, alloc: Global, pairs: &[(u32, u32)]) -> Cube {
    made(rt, test_instances::cube(alloc, pairs), "a cube")
}

/// The family of these events, with rising numbers.
pub fn family(rt: &impl Abort, alloc: Global, rows: Vec<(u32, Cube)>) -> Family {
    made(rt, test_instances::family(alloc, rows), "events")
}

/// The family of the events of a table.
pub fn events(rt: &impl Abort, alloc: Global, table: &[EventRow]) -> Family {
    let rows = made(rt, test_instances::event_rows(alloc, table), "events");
    family(rt, alloc, rows)
}

/// The family of a chain of this many events.
pub fn chain(rt: &impl Abort, alloc: Global, links: u32) -> Family {
    made(rt, test_instances::chain(alloc, links), "a chain")
}

/// The stacks of these rows of entries.
pub fn stacks(rt: &impl Abort, alloc: Global, rows: &[&[u32]]) -> Stacks {
    made(rt, test_instances::stacks(alloc, rows), "stacks")
}

/// The instance of these stacks and this family.
pub fn over(rt: &impl Abort, stacks: Stacks, family: Family) -> Instance {
    made(rt, test_instances::over(stacks, family), "an instance")
}

/// The instance of a family over this many variables, with stacks of this height under a key that
/// has this byte 32 times.
pub fn over_keyed(rt: &impl Abort, key: u8, count: u32, height: u32, family: Family) -> Instance {
    let stacks = made(rt, test_instances::keyed(key, count, height), "stacks");
    over(rt, stacks, family)
}

/// The instance of these rows of entries and the events of a table.
pub fn listed(rt: &impl Abort, alloc: Global, rows: &[&[u32]], table: &[EventRow]) -> Instance {
    made(
        rt,
        test_instances::listed(alloc, rows, table),
        "an instance",
    )
}

/// The arrows of these heads, two for each variable.
pub fn arrows(rt: &impl Abort, alloc: Global, heads: &[[Option<u32>; 2]]) -> Arrows {
    made(rt, test_instances::arrows(alloc, heads), "arrows")
}

/// The instance of these rows of entries and the cycles of these arrows.
pub fn cycles(rt: &impl Abort, alloc: Global, rows: &[&[u32]], arrows: Arrows) -> Instance {
    made(
        rt,
        test_instances::cycles(alloc, rows, arrows),
        "an instance",
    )
}
