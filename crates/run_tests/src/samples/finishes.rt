//! The cursors at which logs finish, and how they depend on the entries there.
use super::instances::*;
use crate::compare::same_of;
use std::process::Abort;

// The rows with the entries at the cursors replaced by this sample.
fn exchange(rows: u32, place: u32, sample: u32) -> u32 {
    let mut rows = rows;
    for v in 0..3 {
        let at = 3 * v + cursor(place, v);
        if bit(rows, at) != bit(sample, v) {
            rows ^= 1 << at;
        }
    }
    rows
}

// Whether the rows have the same entries below the cursors.
fn agree_below(rows: u32, others: u32, place: u32) -> bool {
    for at in 0..9 {
        if at % 3 < cursor(place, at / 3) && bit(rows, at) != bit(others, at) {
            return false;
        }
    }
    true
}

// The cursors after a pop of the event. None if one of its variables has no next entry.
fn popped(place: u32, names: u32) -> Option<u32> {
    let a = cursor(place, 0) + bit(names, 0);
    let b = cursor(place, 1) + bit(names, 1);
    let c = cursor(place, 2) + bit(names, 2);
    if a < 3 && b < 3 && c < 3 {
        Some(a + 3 * b + 9 * c)
    } else {
        None
    }
}

// The cursors after one pop, as bits. None if no event occurs.
fn next_places(rt: &impl Abort, which: usize, rows: u32, place: u32) -> Option<u32> {
    let mut occurs = false;
    let mut next = 0;
    for e in 0..3 {
        let (names, values) = event(rt, which, e);
        if sample_at(rows, place) & names == values {
            occurs = true;
            if let Some(later) = popped(place, names) {
                assert!(rt; later < 27);
                next |= 1 << later;
            }
        }
    }
    if occurs { Some(next) } else { None }
}

// All cursors at which some log finishes, as bits. A pop leads to a larger number.
fn finished_places(rt: &impl Abort, which: usize, rows: u32) -> u32 {
    let mut reached: u32 = 1;
    let mut finished: u32 = 0;
    for place in 0..27 {
        if bit(reached, place) == 1 {
            match next_places(rt, which, rows, place) {
                Some(next) => reached |= next,
                None => finished |= 1 << place,
            }
        }
    }
    finished
}

// Compares the cursors at which logs of these rows finish with those at the end of their run.
// There are none if the run is stuck.
fn finish_at_end(rt: &impl Abort, which: usize, all: &[Finish], rows: u32) {
    let end = finish_of(rt, all, rows);
    let places = finished_places(rt, which, rows);
    assert!(rt; end.place < 28);
    assert!(rt; which < 4);
    let place: u32 = if end.place == STUCK {
        0
    } else {
        1 << end.place
    };
    let of = (rows, which as u32);
    same_of(rt, places as u64, place as u64, "rows, of instance", of);
}

// Compares these cursors for all rows.
fn all_finish_at_end(rt: &impl Abort, which: usize, all: &[Finish]) {
    for rows in 0..512 {
        finish_at_end(rt, which, all, rows);
    }
}

#[test]
fn some_log_finishes_where_the_run_ends_with_nothing_stuck(rt: HostRuntime) {
    let alloc = rt.alloc();
    for which in EXTREMAL.iter() {
        let all = finishes(&rt, alloc, *which);
        all_finish_at_end(&rt, *which, &all);
        drop(all);
    }
}

#[test]
fn logs_finish_at_several_cursors_where_clauses_clash(rt: HostRuntime) {
    let mut several = 0;
    for rows in 0..512 {
        if finished_places(&rt, CLASHING, rows).count_ones() > 1 {
            several = plus(&rt, several, 1);
        }
    }
    assert!(&rt; several > 0);
}

// Compares the end of rows with that of other rows, in which this sample replaces the entries
// there.
fn is_exchanged(rt: &impl Abort, end: &Finish, other: &Finish, rows: u32, sample: u32) {
    same_of(
        rt,
        other.place as u64,
        end.place as u64,
        "rows, with sample",
        (rows, sample),
    );
    same_of(
        rt,
        other.pops,
        end.pops,
        "rows, with sample",
        (rows, sample),
    );
    same_of(
        rt,
        other.sample as u64,
        sample as u64,
        "rows, with sample",
        (rows, sample),
    );
    let one = times(rt, other.weight, sample_weight(rt, end.sample));
    let two = times(rt, end.weight, sample_weight(rt, sample));
    same_of(rt, one, two, "rows, with sample", (rows, sample));
}

// Tries a sample in place of the entries at the end of these rows.
fn try_sample(rt: &impl Abort, which: usize, all: &[Finish], rows: u32, sample: u32) {
    let end = finish_of(rt, all, rows);
    let others = exchange(rows, end.place, sample);
    let other = finish_of(rt, all, others);
    if !is_sample(rt, which, sample) {
        assert!(rt; other.place != end.place, "rows {rows} with {sample}");
        return;
    }
    is_exchanged(rt, &end, &other, rows, sample);
    let back = exchange(others, end.place, end.sample);
    same_of(
        rt,
        back as u64,
        rows as u64,
        "rows, with sample",
        (rows, sample),
    );
}

// Tries each sample in place of the entries at the end of these rows, unless an event is stuck.
fn try_samples(rt: &impl Abort, which: usize, all: &[Finish], rows: u32) {
    if finish_of(rt, all, rows).place == STUCK {
        return;
    }
    for sample in 0..8 {
        try_sample(rt, which, all, rows, sample);
    }
}

// Tries each sample in place of the entries at the end of all rows.
fn try_all(rt: &impl Abort, which: usize, all: &[Finish]) {
    for rows in 0..512 {
        try_samples(rt, which, all, rows);
    }
}

#[test]
fn every_sample_may_be_exchanged_for_the_one_at_an_end_and_nothing_else(rt: HostRuntime) {
    let alloc = rt.alloc();
    for which in EXTREMAL.iter() {
        let all = finishes(&rt, alloc, *which);
        try_all(&rt, *which, &all);
        drop(all);
    }
}

// Compares the ends of two rows. They agree below the end of the first, and the second have a
// sample there.
fn compare(rt: &impl Abort, which: usize, all: &[Finish], rows: u32, others: u32) {
    let end = finish_of(rt, all, rows);
    if end.place == STUCK || !agree_below(rows, others, end.place) {
        return;
    }
    if is_sample(rt, which, sample_at(others, end.place)) {
        let other = finish_of(rt, all, others);
        same_of(
            rt,
            other.place as u64,
            end.place as u64,
            "rows, and others",
            (rows, others),
        );
        same_of(rt, other.pops, end.pops, "rows, and others", (rows, others));
    }
}

// Compares the end of these rows with those of all others.
fn compare_with_all(rt: &impl Abort, which: usize, all: &[Finish], rows: u32) {
    for others in 0..512 {
        compare(rt, which, all, rows, others);
    }
}

// Compares the ends of any two rows.
fn compare_all(rt: &impl Abort, which: usize, all: &[Finish]) {
    for rows in 0..512 {
        compare_with_all(rt, which, all, rows);
    }
}

#[test]
fn the_pops_hang_on_the_entries_below_the_end_alone(rt: HostRuntime) {
    let alloc = rt.alloc();
    for which in EXTREMAL.iter() {
        let all = finishes(&rt, alloc, *which);
        compare_all(&rt, *which, &all);
        drop(all);
    }
}

// Checks that rows with each entry from an assignment end before any pop exactly if the assignment
// is a sample.
fn ends_at_once(rt: &impl Abort, which: usize, all: &[Finish], sample: u32) {
    let rows = 7 * bit(sample, 0) + 56 * bit(sample, 1) + 448 * bit(sample, 2);
    let end = finish_of(rt, all, rows);
    let one = is_sample(rt, which, sample);
    assert!(rt; (end.place == 0) == one, "sample {sample}");
}

// Checks the rows of each assignment.
fn end_at_once(rt: &impl Abort, which: usize, all: &[Finish]) {
    for sample in 0..8 {
        ends_at_once(rt, which, all, sample);
    }
}

#[test]
fn every_sample_is_reached_before_any_pop(rt: HostRuntime) {
    let alloc = rt.alloc();
    for which in EXTREMAL.iter() {
        let all = finishes(&rt, alloc, *which);
        end_at_once(&rt, *which, &all);
        drop(all);
    }
}
