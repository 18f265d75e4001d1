ghost use Rattle.std.specs.Prelude.{◌≡◌, ◌<◌, length};
ghost use Rattle.pop_model.specs.Stacks.{variables_of};
ghost use Rattle.pop_model.specs.Runs.{start_of};

use crate::compare::{same, same_at};
use crate::made::{arrows, cycles, listed};
use confluence_core::{Log, Record};
use lock_board::{Attempt, Book, Site};
use pop_instance::{Arrows, Cursors, Instance};
use pop_stacks::Reader;
use std::alloc::Global;
use std::marker::Brand;
use std::process::Abort;
use test_instances::EventRow;

// The results of attempts, and the book after them.
#[derive(Drop)]
struct Tried {
    answers: Vec<Attempt>,
    cursors: Cursors,
    log: Log,
}

// Attempts these units of a book in turn.
fn answers<N: Site>(
    rt: &impl Abort,
    alloc: Global,
    instance: &Instance,
    book: &mut Book<N>,
    units: &[u32],
) -> Vec<Attempt>
    requires site { instance.now ≡ N.instance }
{
    let mut reader = Reader::new(instance.stacks());
    let mut answers = Vec::new(alloc);
    for unit in units {
        assert!(rt; *unit < instance.units());
        answers
            .push(book.attempt(alloc, &mut reader, *unit))
            .expect(rt, "memory");
    }
    drop(reader);
    answers
}

// Attempts these units of a new book in turn.
fn try_units<N: Site>(rt: &impl Abort, alloc: Global, instance: &Instance, units: &[u32]) -> Tried
    requires site { instance.now ≡ N.instance }
    requires start { N.start ≡ start_of N.instance }
    ensures { variables_of instance.now.stacks ≡ length result.cursors }
{
    let mut book = Book::<N>::new(alloc, instance).expect(rt, "memory");
    let answers = answers(rt, alloc, instance, &mut book, units);
    let (cursors, log) = book.into_parts();
    Tried {
        answers,
        cursors,
        log,
    }
}

// Attempts these units of a new book of the instance in turn.
fn attempts(rt: &impl Abort, alloc: Global, instance: &Instance, units: &[u32]) -> Tried
    ensures { variables_of instance.now.stacks ≡ length result.cursors }
{
    try_units::<Brand>(rt, alloc, instance, units)
}

// The event that variable 0 has the value 0.
static ZERO: [EventRow; 1] = [(1, &[(0, 0)])];

// The instance of one variable with these entries. Its event is that the variable has the value 0.
fn clause(rt: &impl Abort, alloc: Global, entries: &[u32]) -> Instance {
    listed(rt, alloc, &[entries], &ZERO)
}

// Compares the results of attempts.
fn are_answers(rt: &impl Abort, answers: &[Attempt], want: &[Attempt]) {
    let same = *answers == *want;
    assert!(rt; same, "attempts");
}

// Compares the results of attempts, and the number of pops in the log after them.
fn came_to(rt: &impl Abort, tried: &Tried, want: &[Attempt], pops: u64) {
    are_answers(rt, tried.answers.as_slice(), want);
    same(rt, tried.log.len(), pops, "records");
}

// The units that are attempted over these entries of each variable, and the expected results.
struct Case {
    entries: &'static [u32],
    units: &'static [u32],
    answers: &'static [Attempt],
    pops: u64,
}

// Compares the attempts of a case over an instance.
fn case_comes(rt: &impl Abort, alloc: Global, instance: &Instance, case: &Case) {
    let tried = attempts(rt, alloc, instance, case.units);
    came_to(rt, &tried, case.answers, case.pops);
    drop(tried);
}

// Worked by hand: the entries 0 and 0 are popped, and at 1 the event does not occur.
static POPPED_TWICE: Case = Case {
    entries: &[0, 0, 1],
    units: &[0, 0, 0],
    answers: &[Attempt::Popped, Attempt::Popped, Attempt::Absent],
    pops: 2,
};

// Compares a record of the one event: its entry.
fn is_of_event(rt: &impl Abort, popped: &Record, entry: u32) {
    same(rt, popped.unit() as u64, 0, "unit");
    assert!(rt; popped.cube().len() == 1);
    same(rt, popped.entry(0) as u64, entry as u64, "entry");
}

// Compares the state after two pops: the second record, and the cursor.
fn left_by_two_pops(rt: &impl Abort, tried: &Tried)
    requires { 1 ≡ length tried.now.cursors }
{
    assert!(rt; tried.log.len() == 2);
    is_of_event(rt, tried.log.at(1), 1);
    same(rt, tried.cursors.get(0) as u64, 2, "cursor");
}

// Compares the state of the instance after the case of two pops.
fn two_pops_leave(rt: &impl Abort, alloc: Global, instance: &Instance) {
    assert!(rt; instance.stacks().count() == 1);
    let tried = attempts(rt, alloc, instance, POPPED_TWICE.units);
    left_by_two_pops(rt, &tried);
    drop(tried);
}

// Compares the attempts of that case, and the state after them.
fn is_popped_twice(rt: &impl Abort, alloc: Global, instance: &Instance) {
    case_comes(rt, alloc, instance, &POPPED_TWICE);
    two_pops_leave(rt, alloc, instance);
}

#[test]
fn a_listed_event_is_popped_until_it_is_absent(rt: HostRuntime) {
    let alloc = rt.alloc();
    let instance = clause(&rt, alloc, POPPED_TWICE.entries);
    is_popped_twice(&rt, alloc, &instance);
    drop(instance);
}

// Worked by hand: the entry 0 is popped, and the last one is 0 too.
static STUCK_EVENT: Case = Case {
    entries: &[0, 0],
    units: &[0, 0],
    answers: &[Attempt::Popped, Attempt::Stuck],
    pops: 1,
};

#[test]
fn a_listed_event_is_stuck_at_the_last_entry(rt: HostRuntime) {
    let alloc = rt.alloc();
    let instance = clause(&rt, alloc, STUCK_EVENT.entries);
    case_comes(&rt, alloc, &instance, &STUCK_EVENT);
    drop(instance);
}

// The heads of this many variables. Each has an arrow to the next one and one to the root. The
// last has an arrow to variable `back` instead of the next.
fn heads(rt: &impl Abort, alloc: Global, count: u32, back: u32) -> Vec<[Option<u32>; 2]>
    requires few { count < 1000 }
{
    let mut heads = Vec::new(alloc);
    for v in 0..count {
        let next = if v + 1 == count { back } else { v + 1 };
        heads.push([Some(next), None]).expect(rt, "memory");
    }
    heads
}

// The arrows with the heads of `heads`.
fn lasso_arrows(rt: &impl Abort, alloc: Global, count: u32, back: u32) -> Arrows {
    assert!(rt; count < 1000);
    let heads = heads(rt, alloc, count, back);
    let arrows = arrows(rt, alloc, &heads);
    drop(heads);
    arrows
}

// The instance of these arrows, with these entries for each variable.
fn lasso(rt: &impl Abort, alloc: Global, count: u32, back: u32, entries: &[u32]) -> Instance {
    let arrows = lasso_arrows(rt, alloc, count, back);
    let rows = Vec::from_elem(alloc, entries, count as usize).expect(rt, "memory");
    let lasso = cycles(rt, alloc, &rows, arrows);
    drop(rows);
    lasso
}

// The cycle is popped, and then the arrows lead to the root.
static POPPED_CYCLE: Case = Case {
    entries: &[0, 1],
    units: &[0, 0],
    answers: &[Attempt::Popped, Attempt::Absent],
    pops: 1,
};

// Compares cursors of this many variables. Those from `back` on must have been popped once.
fn are_popped_from(rt: &impl Abort, cursors: &Cursors, count: u32, back: u32)
    requires { count ≡ length cursors.now }
{
    for v in 0..count {
        same_at(
            rt,
            cursors.get(v),
            u32::from(v >= back),
            "variable",
            v as u64,
        );
    }
}

// Compares the first record of a log: its unit, and the number of variables that it names.
fn is_first_cycle(rt: &impl Abort, log: &Log, unit: u32, size: u32) {
    assert!(rt; log.len() == 1);
    let popped = log.at(0);
    same(rt, popped.unit() as u64, unit as u64, "unit");
    same(rt, popped.cube().len() as u64, size as u64, "size");
}

// Compares the state of this many variables after the pop of the cycle from `back` on.
fn left_by_cycle(rt: &impl Abort, tried: &Tried, count: u32, back: u32)
    requires count { count ≡ length tried.now.cursors }
    requires back { back < count }
{
    came_to(rt, tried, POPPED_CYCLE.answers, POPPED_CYCLE.pops);
    is_first_cycle(rt, &tried.log, back, count - back);
    are_popped_from(rt, &tried.cursors, count, back);
}

// Pops the cycle of an instance of this many variables, and compares the state after it.
fn cycle_leaves(rt: &impl Abort, alloc: Global, instance: &Instance, count: u32, back: u32)
    requires back { back < count }
{
    assert!(rt; instance.stacks().count() == count);
    let tried = attempts(rt, alloc, instance, POPPED_CYCLE.units);
    left_by_cycle(rt, &tried, count, back);
    drop(tried);
}

// Pops the cycle of a lasso of this many variables.
fn lasso_pops(rt: &impl Abort, alloc: Global, count: u32, back: u32)
    requires back { back < count }
{
    let instance = lasso(rt, alloc, count, back, POPPED_CYCLE.entries);
    cycle_leaves(rt, alloc, &instance, count, back);
    drop(instance);
}

// Pops the cycles of the lassos of this many variables, one for each `back`.
fn lassos_of(rt: &impl Abort, alloc: Global, count: u32) {
    for back in 0..count {
        lasso_pops(rt, alloc, count, back);
    }
}

static COUNTS: [u32; 8] = [1, 2, 3, 4, 7, 8, 9, 40];

// The arrows lead from variable 0 to the last one, and back to some variable. These form the
// cycle, which is popped once, under its lowest variable. Then all arrows lead to the root.
#[test]
fn the_cycle_that_the_arrows_lead_to_is_popped(rt: HostRuntime) {
    let alloc = rt.alloc();
    for count in COUNTS.iter() {
        lassos_of(&rt, alloc, *count);
    }
}

static STUCK_CYCLE: Case = Case {
    entries: &[0],
    units: &[4, 0],
    answers: &[Attempt::Stuck, Attempt::Stuck],
    pops: 0,
};

#[test]
fn a_cycle_is_stuck_at_the_last_entry(rt: HostRuntime) {
    let alloc = rt.alloc();
    let instance = lasso(&rt, alloc, 5, 2, STUCK_CYCLE.entries);
    case_comes(&rt, alloc, &instance, &STUCK_CYCLE);
    drop(instance);
}
