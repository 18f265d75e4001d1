use crate::events::{EventRow, event_rows, family};
use crate::given::stacks;
use pop_instance::{Arrows, Family, Instance};
use pop_stacks::Stacks;
use std::alloc::Global;
use std::test::Fail;

/// The instance of these stacks and this family.
pub fn over(stacks: Stacks, family: Family) -> Result<Instance, Fail> {
    match Instance::new(stacks, family) {
        Some(instance) => Ok(instance),
        None => Err(Fail::new("no instance")),
    }
}

/// The instance of these rows of entries and the events with these numbers and pairs. The numbers
/// must rise.
pub fn listed(alloc: Global, rows: &[&[u32]], table: &[EventRow]) -> Result<Instance, Fail> {
    let events = event_rows(alloc, table)?;
    let family = family(alloc, events)?;
    over(stacks(alloc, rows)?, family)
}

/// The arrows with these heads, two for each of fewer than 1000 variables. None is the root.
pub fn arrows(alloc: Global, heads: &[[Option<u32>; 2]]) -> Result<Arrows, Fail> {
    let mut rows = Vec::new(alloc);
    for row in heads {
        rows.push(Vec::from_slice(alloc, row)?)?;
    }
    if rows.len() >= 1000 {
        return Err(Fail::new("too many variables"));
    }
    match Arrows::new(rows) {
        Some(arrows) => Ok(arrows),
        None => Err(Fail::new("no arrows")),
    }
}

/// The instance of these rows of entries and the cycles of these arrows.
pub fn cycles(alloc: Global, rows: &[&[u32]], arrows: Arrows) -> Result<Instance, Fail> {
    over(stacks(alloc, rows)?, Family::Cycles(arrows))
}
