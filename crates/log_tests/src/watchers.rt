//! The reports of watchers on pops of one unit.
use crate::comparing::same_text;
use crate::records::popped_with;
use pop_watch::{Heights, Layers, Totals, Watch};
use std::alloc::Global;
use std::process::Abort;

// The variables of a pop, all below 8, the entries that it used, and the report after it.
type Told = (&'static [u32], &'static [u32], &'static str);

// Compares the report of a watcher.
fn reports<W: Watch>(rt: &impl Abort, alloc: Global, watcher: &W, want: &str) {
    let text = watcher.report(alloc).expect(rt, "memory");
    same_text(rt, &text, want);
    drop(text);
}

// Passes a pop to a watcher.
fn tell<W: Watch>(
    rt: &impl Abort,
    alloc: Global,
    watcher: &mut W,
    variables: &[u32],
    entries: &[u32],
) {
    let popped = popped_with(rt, alloc, 8, 0, variables, entries);
    watcher.tell(&popped).expect(rt, "memory");
    drop(popped);
}

// Compares the report of a watcher at first, and after each pop that it receives.
fn reports_each<W: Watch>(
    rt: &impl Abort,
    alloc: Global,
    watcher: &mut W,
    first: &str,
    pops: &[Told],
) {
    reports(rt, alloc, watcher, first);
    for (variables, entries, want) in pops {
        tell(rt, alloc, watcher, variables, entries);
        reports(rt, alloc, watcher, want);
    }
}

// Worked by hand.
static TOTALS: [Told; 3] = [
    (&[0], &[0], "report totals 1 1 1\n"),
    (&[0, 1, 2], &[4, 0, 7], "report totals 2 4 3\n"),
    (&[0, 1], &[1, 1], "report totals 3 6 3\n"),
];

#[test]
fn totals_count_records_entries_and_the_longest(rt: HostRuntime) {
    let mut totals = Totals::new();
    assert!(&rt; totals.kind() == 1);
    reports_each(
        &rt,
        rt.alloc(),
        &mut totals,
        "report totals 0 0 0\n",
        &TOTALS,
    );
}

// Worked by hand: 0 has no digit, 1 has one, 2 and 3 have two, 8 has four, and 2^32 - 1 has 32.
static HEIGHTS: [Told; 2] = [
    (
        &[0, 1, 2, 3, 4],
        &[3, 0, 8, 2, 1],
        "report heights 1 1 2 0 1\n",
    ),
    (
        &[0],
        &[4294967295],
        "report heights 1 1 2 0 1 0 0 0 0 0 0 0 0 0 0 0 0 0 0 0 0 0 0 0 0 0 0 0 0 0 0 0 1\n",
    ),
];

#[test]
fn heights_are_counted_by_binary_digits(rt: HostRuntime) {
    let mut heights = Heights::new();
    reports_each(&rt, rt.alloc(), &mut heights, "report heights\n", &HEIGHTS);
}

// Worked by hand: the largest layer so far, and the number of variables that were named.
static LAYERS: [Told; 6] = [
    (&[0], &[0], "report layers 1 1\n"),
    (&[1], &[0], "report layers 1 2\n"),
    (&[0], &[0], "report layers 2 2\n"),
    (&[7], &[0], "report layers 2 3\n"),
    (&[0, 7], &[0, 0], "report layers 3 3\n"),
    (&[1, 4], &[0, 0], "report layers 3 4\n"),
];

#[test]
fn layers_tell_the_greatest_and_the_variables_named(rt: HostRuntime) {
    let mut layers = Layers::new(rt.alloc()).expect(&rt, "memory");
    reports_each(&rt, rt.alloc(), &mut layers, "report layers 0 0\n", &LAYERS);
    drop(layers);
}
