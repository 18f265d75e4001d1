//! Events that are gathered: equal cubes, and different ones with equal digests.
use crate::compare::{is_so, same};
use crate::tables::listed;
use pop_instance::{Events, Family};
use std::alloc::Global;
use std::process::Abort;
use test_instances::EventRow;

// Two cubes with the same digest, which are in `proofs/Vectors.antt` of `pop_instance`. After the
// leading 1 the first has the digits 0 and base + 2, and the other 1 and 2.
static COLLISION: [EventRow; 2] = [
    (2, &[(0, 0), (1284865839, 1481765933)]),
    (7, &[(1, 0), (2, 0)]),
];

static DIFFERENT: [EventRow; 3] = [(1, &[(8, 0)]), (4, &[(3, 0)]), (5, &[(0, 0)])];

// Cubes 3 and 5 are repeated: 3 at the start and in the middle, 5 at the end.
static REPEATED: [EventRow; 6] = [
    (1, &[(3, 0)]),
    (2, &[(3, 0)]),
    (3, &[(4, 0)]),
    (5, &[(3, 0)]),
    (6, &[(5, 0)]),
    (9, &[(5, 0)]),
];

// Compares an event's number and first pair.
fn is_event(rt: &impl Abort, events: &Events, place: u32, number: u32, first: (u32, u32)) {
    assert!(rt; place < events.count());
    same(rt, events.number(place), number, "number of event", place);
    let cube = events.cube(place);
    assert!(rt; cube.len() > 0);
    is_so(rt, cube.pair(0) == first, "first pair of event", place);
}

// Compares the number and the first pair of each event of a family.
fn are_gathered(rt: &impl Abort, family: &Family, want: &[(u32, (u32, u32))]) {
    let Family::Listed(events) = family else {
        panic!(rt; "no listed family")
    };
    assert!(rt; events.count() as usize == want.len());
    for place in 0..events.count() {
        let (number, first) = want[place as usize];
        is_event(rt, events, place, number, first);
    }
}

// Compares what is gathered from these rows.
fn gather(rt: &impl Abort, alloc: Global, table: &[EventRow], want: &[(u32, (u32, u32))]) {
    let family = listed(rt, alloc, table);
    are_gathered(rt, &family, want);
    drop(family);
}

#[test]
fn cubes_that_differ_stay_where_their_digests_are_equal(rt: HostRuntime) {
    gather(&rt, rt.alloc(), &COLLISION, &[(2, (0, 0)), (7, (1, 0))]);
}

#[test]
fn rows_without_equal_cubes_stay_as_they_are(rt: HostRuntime) {
    let want = [(1, (8, 0)), (4, (3, 0)), (5, (0, 0))];
    gather(&rt, rt.alloc(), &DIFFERENT, &want);
}

#[test]
fn the_first_of_equal_cubes_is_kept_under_its_number(rt: HostRuntime) {
    let want = [(1, (3, 0)), (3, (4, 0)), (6, (5, 0))];
    gather(&rt, rt.alloc(), &REPEATED, &want);
}
