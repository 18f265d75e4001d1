use crate::instances::of_events;
use crate::runs::log_of_run;
use pop_instance::Instance;
use std::alloc::Global;
use std::process::Abort;
use test_instances::EventRow;
use witness_trees::find_pop;

// The place of the pop, in a run from zeros, that used this entry of a variable.
fn place(rt: &impl Abort, alloc: Global, instance: &Instance, v: u32, k: u32) -> Option<u64> {
    let log = log_of_run(rt, alloc, instance);
    assert!(rt; v < instance.stacks().count());
    let place = find_pop(&log, v, k);
    drop(log);
    place
}

// The variables have the entries 0, 1, 1, 1 and 0, 0, 1.
static ROWS: [&[u32]; 2] = [&[0, 1, 1, 1], &[0, 0, 1]];

// The clauses `1 2` and `-1 2`.
static CLAUSES: [EventRow; 2] = [(1, &[(0, 0), (1, 0)]), (2, &[(0, 1), (1, 0)])];

// Variables, their entries, and the places of the pops that used them. Worked by hand: the first
// pop uses the entries 0 and 0, the second 1 and 1.
static PLACES: [(u32, u32, Option<u64>); 3] = [(0, 0, Some(0)), (1, 1, Some(1)), (0, 2, None)];

// Compares the places of the pops.
fn are_places(rt: &impl Abort, alloc: Global, instance: &Instance) {
    for (v, k, want) in PLACES.iter() {
        let found = place(rt, alloc, instance, *v, *k);
        assert!(rt; found == *want, "entry {k} of variable {v}");
    }
}

#[test]
fn a_pop_is_found_by_a_variable_and_its_entry(rt: HostRuntime) {
    let instance = of_events(&rt, rt.alloc(), &ROWS, &CLAUSES);
    are_places(&rt, rt.alloc(), &instance);
    drop(instance);
}
