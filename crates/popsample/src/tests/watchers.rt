//! Watchers of the caller, and their reports on a log.
ghost use Rattle.std.specs.Prelude.{[], ◌∷◌};

use super::{answer, is_so, owned, push_words};
use confluence_core::Record;
use pop_instance::Cube;
use pop_watch::{Heights, Totals, Watch};
use pop_workers::NoGate;
use std::alloc::{AllocError, Global};
use std::process::Abort;
use std::sync::atomic::{AtomicU64, Ordering};
use std::sync::{Arc, Wait};
use std::thread::Threads;
use top_call::Answer;

// What is printed of two pops of one clause, without the reports. Worked by hand.
static TWO_POPS: [&str; 3] = ["resample", "--stacks", "0,0,1"];

const INPUT: &str = "p cnf 1 1\n1 0\n";

const HISTORY: &str = "s SAMPLE\nv 1 0\nused 2\npops 2\nlog 2 2\npop 1 1 1:0\npop 2 1 1:1\n";

// The arguments that request the two pops, with these after them.
fn behind_stacks(rt: &impl Abort, alloc: Global, more: &[&str]) -> Vec<String> {
    let mut words = owned(rt, alloc, &TWO_POPS);
    push_words(rt, alloc, &mut words, more);
    words
}

// Compares an answer with the history of the two pops, with this text after the log.
fn is_history(rt: &impl Abort, alloc: Global, got: &Answer, more: &[&str], behind: &str) {
    let whole = format!(in alloc; "{HISTORY}{behind}").expect(rt, "memory");
    is_so(rt, got.status == 0, "status", more);
    is_so(rt, got.text.as_slice() == whole.as_bytes(), "text", more);
    drop(whole);
}

// Compares what is printed after the log of the two pops, with these arguments after the stacks
// and these watchers.
fn is_reported<R: Threads + Wait + Sync + Abort>(
    rt: &R,
    alloc: Global,
    more: &[&str],
    watchers: Vec<Box<dyn Watch>>,
    behind: &str,
) {
    let words = behind_stacks(rt, alloc, more);
    let got = answer(rt, alloc, &NoGate, &words, INPUT, watchers);
    drop(words);
    is_history(rt, alloc, &got, more, behind);
    drop(got);
}

// The arguments that request totals and heights.
static BOTH: [&str; 2] = ["--report", "totals,heights"];

// Only a watcher of heights.
fn heights(rt: &impl Abort, alloc: Global) -> Vec<Box<dyn Watch>> {
    let heights = Box::new(alloc, Heights::new()).expect(rt, "memory");
    let mut watchers: Vec<Box<dyn Watch>> = Vec::new(alloc);
    watchers.push(heights).expect(rt, "memory");
    watchers
}

#[test]
fn a_kind_that_no_watcher_has_has_no_line(rt: HostRuntime) {
    let alloc = rt.alloc();
    is_reported(&rt, alloc, &BOTH, Vec::new(alloc), "");
    let watchers = heights(&rt, alloc);
    is_reported(&rt, alloc, &BOTH, watchers, "report heights 1 1\n");
}

// What was done with a watcher.
#[derive(Drop)]
struct Notes {
    told: AtomicU64,
    // The numbers of the events, digit by digit, in the order in which it received them.
    order: AtomicU64,
    reported: AtomicU64,
    // How often it had reported when it was dropped, plus 1. It is 0 until then.
    dropped: AtomicU64,
}

impl Notes {
    fn none() -> Notes {
        Notes {
            told: AtomicU64::new(0),
            order: AtomicU64::new(0),
            reported: AtomicU64::new(0),
            dropped: AtomicU64::new(0),
        }
    }
}

// Totals that note what is done with them.
struct Noted {
    totals: Totals,
    notes: Arc<Notes>,
}

impl Watch for Noted {
    ghost kind = { λ _. 1 };

    ghost state = { λ a. ⟦<Totals as Watch>⟧.state a.totals };

    fn kind(&self) -> u32 {
        1
    }

    fn tell(&mut self, popped: &Record) -> Result<(), AllocError> {
        self.notes.told.fetch_add(1, Ordering::SeqCst);
        let front = self.notes.order.load(Ordering::SeqCst).wrapping_mul(10);
        let number = u64::from(popped.unit()) + 1;
        self.notes
            .order
            .store(front.wrapping_add(number), Ordering::SeqCst);
        self.totals.tell(popped)
    }

    fn report(&self, alloc: Global) -> Result<Vec<u8>, AllocError> {
        self.notes.reported.fetch_add(1, Ordering::SeqCst);
        self.totals.report(alloc)
    }
}

impl Drop for Noted {
    fn drop(self) {
        let before = self.notes.reported.load(Ordering::SeqCst);
        self.notes
            .dropped
            .store(before.wrapping_add(1), Ordering::SeqCst);
        let Noted {
            totals: _,
            notes: _,
        } = self;
    }
}

// The notes of a watcher before anything was done with it.
fn no_notes(rt: &impl Abort, alloc: Global) -> Arc<Notes> {
    Arc::new(alloc, Notes::none()).expect(rt, "memory")
}

// Totals that note in these notes.
fn noting(rt: &impl Abort, alloc: Global, notes: Arc<Notes>) -> Box<Noted> {
    let noted = Noted {
        totals: Totals::new(),
        notes,
    };
    Box::new(alloc, noted).expect(rt, "memory")
}

// Only totals that note in these notes.
fn noted_alone(rt: &impl Abort, alloc: Global, notes: &Arc<Notes>) -> Vec<Box<dyn Watch>> {
    let notes = notes.clone().expect(rt, "memory");
    let noted = noting(rt, alloc, notes);
    let mut watchers: Vec<Box<dyn Watch>> = Vec::new(alloc);
    watchers.push(noted).expect(rt, "memory");
    watchers
}

// Runs these arguments on this input, with totals that note in these notes.
fn run_noting<R: Threads + Wait + Sync + Abort>(
    rt: &R,
    alloc: Global,
    words: &[String],
    input: &str,
    notes: &Arc<Notes>,
) {
    let watchers = noted_alone(rt, alloc, notes);
    let got = answer(rt, alloc, &NoGate, words, input, watchers);
    assert!(rt; got.status == 0, "status");
    drop(got);
}

// Checks that a watcher was dropped after its reports.
fn was_dropped(rt: &impl Abort, notes: &Notes) {
    let reported = notes.reported.load(Ordering::SeqCst);
    let dropped = notes.dropped.load(Ordering::SeqCst);
    assert!(rt;
        dropped == reported.wrapping_add(1),
        "dropped behind {reported} reports"
    );
}

// The notes of totals that were passed with these arguments and this input. Checks that they were
// dropped after their reports.
fn notes_of<R: Threads + Wait + Sync + Abort>(
    rt: &R,
    alloc: Global,
    words: &[String],
    input: &str,
) -> Arc<Notes> {
    let notes = no_notes(rt, alloc);
    run_noting(rt, alloc, words, input, &notes);
    was_dropped(rt, &notes);
    notes
}

// How many records of the two pops totals received with these arguments after the stacks, and how
// often they reported.
fn done<R: Threads + Wait + Sync + Abort>(rt: &R, alloc: Global, more: &[&str]) -> (u64, u64) {
    let words = behind_stacks(rt, alloc, more);
    let notes = notes_of(rt, alloc, &words, INPUT);
    drop(words);
    let told = notes.told.load(Ordering::SeqCst);
    let reported = notes.reported.load(Ordering::SeqCst);
    drop(notes);
    (told, reported)
}

// The numbers of the events that totals receive for two clauses. The first clause is popped twice
// before the second.
fn order_told<R: Threads + Wait + Sync + Abort>(rt: &R, alloc: Global, words: &[&str]) -> u64 {
    let words = owned(rt, alloc, words);
    let notes = notes_of(rt, alloc, &words, "p cnf 2 2\n1 0\n2 0\n");
    drop(words);
    let order = notes.order.load(Ordering::SeqCst);
    drop(notes);
    order
}

// Arguments, and the numbers of the events.
type Ordered = (&'static [&'static str], u64);

// Worked by hand: the layers are 1, 2 and 1. With `resample` watchers receive the log in any case.
// With `formula` they receive it only if a report is requested.
static ORDERS: [Ordered; 5] = [
    (
        &["formula", "--stacks", "0,0,1;0,1", "--report", "totals"],
        121,
    ),
    (&["formula", "--stacks", "0,0,1;0,1", "--log", "on"], 0),
    (&["formula", "--stacks", "0,0,1;0,1", "--witness", "1,0"], 0),
    (&["formula", "--stacks", "0,0,1;0,1"], 0),
    (&["resample", "--stacks", "0,0,1;0,1"], 121),
];

// Compares the order in which totals receive two clauses for each of these arguments.
fn are_orders<R: Threads + Wait + Sync + Abort>(rt: &R, alloc: Global, orders: &[Ordered]) {
    for (words, order) in orders.iter() {
        let got = order_told(rt, alloc, words);
        is_so(rt, got == *order, "order", words);
    }
}

#[test]
fn watchers_are_told_the_layered_log(rt: HostRuntime) {
    are_orders(&rt, rt.alloc(), &ORDERS);
}

// Compares how many records totals received and how often they reported with these arguments after
// the stacks.
fn is_done<R: Threads + Wait + Sync + Abort>(
    rt: &R,
    alloc: Global,
    more: &[&str],
    want: (u64, u64),
) {
    let (told, reported) = done(rt, alloc, more);
    is_so(rt, told == want.0, "told", more);
    is_so(rt, reported == want.1, "reported", more);
}

static NO_WORDS: [&str; 0] = [];

static OTHER_REPORT: [&str; 2] = ["--report", "heights"];

static OWN_REPORT: [&str; 2] = ["--report", "totals"];

static TWO_REPORTS: [&str; 2] = ["--report", "heights,totals"];

// The log has two records. A watcher receives them even if its report is not requested, and the
// call drops it after its report.
#[test]
fn each_watcher_is_told_each_record_once_and_dropped(rt: HostRuntime) {
    let alloc = rt.alloc();
    is_done(&rt, alloc, &NO_WORDS, (2, 0));
    is_done(&rt, alloc, &OTHER_REPORT, (2, 0));
    is_done(&rt, alloc, &OWN_REPORT, (2, 1));
    is_done(&rt, alloc, &TWO_REPORTS, (2, 1));
}

// A watcher of a kind that has no report.
#[derive(Drop)]
struct Silent;

impl Watch for Silent {
    ghost kind = { λ _. 7 };

    ghost state = { λ _. 5 ∷ [] };

    fn kind(&self) -> u32 {
        7
    }

    fn tell(&mut self, popped: &Record) -> Result<(), AllocError> {
        let _len = popped.cube().len();
        Ok(())
    }

    fn report(&self, alloc: Global) -> Result<Vec<u8>, AllocError> {
        Ok(Vec::new(alloc))
    }
}

// A watcher of another kind, one of heights and one of totals, and another one of totals.
fn silent_and_others(rt: &impl Abort, alloc: Global) -> Vec<Box<dyn Watch>> {
    let silent = Box::new(alloc, Silent).expect(rt, "memory");
    let heights = Box::new(alloc, Heights::new()).expect(rt, "memory");
    let totals = Box::new(alloc, Totals::new()).expect(rt, "memory");
    let notes = no_notes(rt, alloc);
    let noted = noting(rt, alloc, notes);
    let mut watchers: Vec<Box<dyn Watch>> = Vec::new(alloc);
    watchers.push(silent).expect(rt, "memory");
    watchers.push(heights).expect(rt, "memory");
    watchers.push(totals).expect(rt, "memory");
    watchers.push(noted).expect(rt, "memory");
    watchers
}

// The watcher of another kind changes nothing, and of two watchers of one kind the first reports.
#[test]
fn the_first_watcher_of_a_kind_reports(rt: HostRuntime) {
    let alloc = rt.alloc();
    let watchers = silent_and_others(&rt, alloc);
    let behind = "report totals 2 2 1\nreport heights 1 1\n";
    is_reported(&rt, alloc, &BOTH, watchers, behind);
}

// A pop of two entries.
fn two_entries(rt: &impl Abort, alloc: Global) -> Record {
    let pairs = vec![in alloc; (0, 0), (1, 0)].expect(rt, "memory");
    let cube = Cube::new(pairs).expect(rt, "rising variables");
    assert!(rt; cube.len() == 2, "two variables");
    let entries = vec![in alloc; 4, 0].expect(rt, "memory");
    Record::new(0, cube, entries)
}

// Totals that received a pop of two entries.
fn begun_totals(rt: &impl Abort, alloc: Global) -> Totals {
    let record = two_entries(rt, alloc);
    let mut totals = Totals::new();
    totals.tell(&record).expect(rt, "memory");
    drop(record);
    totals
}

// These totals, and others after them.
fn before_others(rt: &impl Abort, alloc: Global, totals: Totals) -> Vec<Box<dyn Watch>> {
    let first = Box::new(alloc, totals).expect(rt, "memory");
    let others = Box::new(alloc, Totals::new()).expect(rt, "memory");
    let mut watchers: Vec<Box<dyn Watch>> = Vec::new(alloc);
    watchers.push(first).expect(rt, "memory");
    watchers.push(others).expect(rt, "memory");
    watchers
}

// Worked by hand.
#[test]
fn a_report_goes_on_from_the_state_that_is_handed_in(rt: HostRuntime) {
    let alloc = rt.alloc();
    let totals = begun_totals(&rt, alloc);
    let watchers = before_others(&rt, alloc, totals);
    is_reported(&rt, alloc, &OWN_REPORT, watchers, "report totals 3 4 2\n");
}
