//! A log that is appended to another.
use crate::compare::same_at;
use crate::made::cube;
use confluence_core::{Log, Record};
use std::alloc::Global;
use std::process::Abort;

// A record of this unit.
fn popped(rt: &impl Abort, alloc: Global, unit: u32) -> Record {
    let cube = cube(rt, alloc, &[(unit, 0)]);
    let entries = vec![in alloc; 7].expect(rt, "memory");
    assert!(rt; entries.len() == cube.len() as usize);
    Record::new(unit, cube, entries)
}

// The log of records of these units.
fn log_of(rt: &impl Abort, alloc: Global, units: &[u32]) -> Log {
    let mut log = Log::new(alloc);
    for unit in units {
        let popped = popped(rt, alloc, *unit);
        log.push(popped).expect(rt, "memory");
    }
    log
}

// Compares the units of a log.
fn has_units(rt: &impl Abort, log: &Log, units: &[u32]) {
    assert!(rt; log.len() == units.len() as u64);
    for (i, unit) in units.iter().enumerate() {
        let place = i as u64;
        same_at(rt, log.at(place).unit(), *unit, "record", place);
    }
}

#[test]
fn the_other_log_comes_behind(rt: HostRuntime) {
    let alloc = rt.alloc();
    let mut log = log_of(&rt, alloc, &[4]);
    let other = log_of(&rt, alloc, &[2, 3]);
    log.append(other).expect(&rt, "memory");
    has_units(&rt, &log, &[4, 2, 3]);
    drop(log);
}
