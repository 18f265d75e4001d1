ghost use Rattle.std.specs.Prelude.{All};
ghost use Rattle.pop_model.specs.Popping.{NamesBelow};

use confluence_core::{Log, Record};
use pop_instance::Cube;
use std::alloc::Global;
use std::convert::AsSlice;
use std::process::Abort;

// The pairs of these variables, all below the count, with value 0 each.
fn pairs_of(rt: &impl Abort, alloc: Global, count: u32, variables: &[u32]) -> Vec<(u32, u32)>
    ensures { NamesBelow result.items count }
{
    let mut pairs = Vec::new(alloc);
    for v in variables {
        assert!(rt; *v < count);
        pairs.push((*v, 0)).expect(rt, "memory");
    }
    pairs
}

// The cube of the pairs of these variables.
fn cube_of(rt: &impl Abort, alloc: Global, count: u32, variables: &[u32]) -> Cube
    ensures { NamesBelow result count }
{
    let pairs = pairs_of(rt, alloc, count, variables);
    assert!(rt; pairs.len() < 9);
    Cube::new(pairs).expect(rt, "a cube")
}

/// The record of a pop of this unit that used these entries of these variables, all below the
/// count.
pub fn popped_with(
    rt: &impl Abort,
    alloc: Global,
    count: u32,
    unit: u32,
    variables: &[u32],
    entries: &[u32],
) -> Record
    ensures { NamesBelow result.event.cube count }
{
    let cube = cube_of(rt, alloc, count, variables);
    let entries = Vec::from_slice(alloc, entries).expect(rt, "memory");
    assert!(rt; entries.len() == cube.len() as usize);
    Record::new(unit, cube, entries)
}

/// The record of a pop of this unit that used the entries 0 of these variables, all below the
/// count.
pub fn popped(rt: &impl Abort, alloc: Global, count: u32, unit: u32, variables: &[u32]) -> Record
    ensures { NamesBelow result.event.cube count }
{
    let entries = vec![in alloc; 0; variables.len()].expect(rt, "memory");
    let popped = popped_with(rt, alloc, count, unit, variables, &entries);
    drop(entries);
    popped
}

/// The log of pops, each of a unit and of variables below the count.
pub fn log_of<V: AsSlice<u32>>(rt: &impl Abort, alloc: Global, count: u32, pops: &[(u32, V)]) -> Log
    ensures { All (λ r. NamesBelow r.event.cube count) result }
{
    let mut log = Log::new(alloc);
    for (unit, variables) in pops {
        let popped = popped(rt, alloc, count, *unit, variables.as_slice());
        log.push(popped).expect(rt, "memory");
    }
    log
}
