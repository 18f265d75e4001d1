//! Command-line arguments, and the jobs that they specify.
mod certificates;
mod limits;
mod lines;

use certificates::{CERTIFIED, UNCERTIFIED};
use limits::{LIMITS, Limit};
use lines::{ACCEPTED, REFUSED};
use pop_stacks::{Rows, StackSpec};
use pop_words::{BoardKind, Job, WordFault, read_words};
use std::alloc::Global;
use std::process::Abort;

// 64 zeros, which are written `Z` in the tables.
const ZEROS: &str = "0000000000000000000000000000000000000000000000000000000000000000";

// Ends the test if this does not hold.
fn is_so(rt: &impl Abort, holds: bool, what: &str) {
    assert!(rt; holds, "{what}");
}

// Adds a word.
fn push(rt: &impl Abort, text: &mut String, word: &str) {
    text.push_str(word).expect(rt, "memory");
}

// Adds a number.
fn push_u32(rt: &impl Abort, text: &mut String, number: u32) {
    write!(text, " {number}").expect(rt, "memory");
}

// Adds a number with its name.
fn push_named(rt: &impl Abort, text: &mut String, name: &str, number: u32) {
    push(rt, text, name);
    push_u32(rt, text, number);
}

// Adds the bytes of a key, unless they are zeros.
fn push_key(rt: &impl Abort, text: &mut String, key: &[u8; 32]) {
    if *key == [0; 32] {
        return;
    }
    push(rt, text, " key ");
    for byte in key {
        write!(text, "{byte:02x}").expect(rt, "memory");
    }
}

// Adds rows.
fn push_rows(rt: &impl Abort, text: &mut String, rows: &Rows) {
    push(rt, text, " rows");
    for v in 0..rows.count() {
        write!(text, " {:?}", rows.row(v)).expect(rt, "memory");
    }
}

// Adds the stacks of a job.
fn push_stacks(rt: &impl Abort, text: &mut String, stacks: &StackSpec) {
    match stacks {
        StackSpec::Key(key) => push_key(rt, text, key),
        StackSpec::Given(rows) => push_rows(rt, text, rows),
    }
}

// Adds a number with its name, if it differs from its default.
fn push_number(rt: &impl Abort, text: &mut String, name: &str, number: u32, default: u32) {
    if number != default {
        push_named(rt, text, name, number);
    }
}

// Adds a number with its name, if there is one.
fn push_some(rt: &impl Abort, text: &mut String, name: &str, number: Option<u32>) {
    if let Some(number) = number {
        push_named(rt, text, name, number);
    }
}

// Adds a word if this holds.
fn push_if(rt: &impl Abort, text: &mut String, is_so: bool, word: &str) {
    if is_so {
        push(rt, text, word);
    }
}

// Adds what a job runs, if it differs from the defaults.
fn push_run(rt: &impl Abort, text: &mut String, job: &Job) {
    push_stacks(rt, text, &job.stacks);
    push_number(rt, text, " height", job.height, 1048576);
    push_some(rt, text, " grow", job.grow);
    push_some(rt, text, " count", job.count);
    push_some(rt, text, " pops", job.pops);
    push_number(rt, text, " root", job.root, 1);
    push_number(rt, text, " workers", job.workers, 1);
    push_if(rt, text, job.board == BoardKind::Lock, " lock");
}

// Adds the entry of the witness tree that a job requests.
fn push_witness(rt: &impl Abort, text: &mut String, witness: Option<(u32, u32)>) {
    if let Some((name, entry)) = witness {
        push_named(rt, text, " witness", name);
        push_u32(rt, text, entry);
    }
}

// Adds what a job prints of its log.
fn push_told(rt: &impl Abort, text: &mut String, job: &Job) {
    push_if(rt, text, job.log, " log");
    push_witness(rt, text, job.witness);
    push_if(rt, text, job.reports.totals, " totals");
    push_if(rt, text, job.reports.heights, " heights");
    push_if(rt, text, job.reports.layers, " layers");
}

// A job as text: its command and what differs from the defaults.
fn shown(rt: &impl Abort, alloc: Global, job: &Job) -> String {
    let mut text = String::from_str(alloc, job.command.word()).expect(rt, "memory");
    push_run(rt, &mut text, job);
    push_told(rt, &mut text, job);
    push_number(rt, &mut text, " grid", job.size, 0);
    text
}

// The arguments of a line, which are separated by one space: a space at the end is followed by an
// empty argument.
fn words_of(rt: &impl Abort, alloc: Global, line: &str) -> Vec<String> {
    let mut words = Vec::new(alloc);
    for word in line.split(' ') {
        let word = if word == "Z" { ZEROS } else { word };
        let word = String::from_str(alloc, word).expect(rt, "memory");
        words.push(word).expect(rt, "memory");
    }
    words
}

/// Reads a line of arguments, which are separated by one space.
pub fn read_line(rt: &impl Abort, alloc: Global, line: &str) -> Result<Job, WordFault> {
    let words = words_of(rt, alloc, line);
    read_words(alloc, &words)
}

// The job that a valid line specifies, as text.
fn told(rt: &impl Abort, alloc: Global, line: &str) -> String {
    let job = read_line(rt, alloc, line).expect(rt, line);
    shown(rt, alloc, &job)
}

// Compares the jobs of valid lines.
fn read_each(rt: &impl Abort, alloc: Global, lines: &[(&str, &str)]) {
    for (line, want) in lines.iter() {
        let text = told(rt, alloc, line);
        is_so(rt, text.as_str() == *want, line);
    }
}

// Compares why a line is rejected, or checks that it is not.
fn is_refused(rt: &impl Abort, alloc: Global, line: &str, want: Option<WordFault>, what: &str) {
    let fault = read_line(rt, alloc, line).err();
    is_so(rt, fault == want, what);
}

// Compares why invalid lines are rejected.
fn refuse_each(rt: &impl Abort, alloc: Global, lines: &[(&str, u32)]) {
    for (line, place) in lines.iter() {
        is_refused(rt, alloc, line, Some(WordFault::Usage(*place)), line);
    }
}

#[test]
fn words_in_the_grammar_give_their_job(rt: HostRuntime) {
    read_each(&rt, rt.alloc(), &ACCEPTED);
}

#[test]
fn words_of_certificates_give_their_job(rt: HostRuntime) {
    read_each(&rt, rt.alloc(), &CERTIFIED);
}

#[test]
fn words_outside_the_grammar_give_their_first_bad_place(rt: HostRuntime) {
    refuse_each(&rt, rt.alloc(), &REFUSED);
    let fault = read_words(rt.alloc(), &[]).err();
    is_so(&rt, fault == Some(WordFault::Usage(1)), "no words");
}

#[test]
fn words_of_certificates_outside_the_grammar_give_their_first_bad_place(rt: HostRuntime) {
    refuse_each(&rt, rt.alloc(), &UNCERTIFIED);
}

// A text with this many copies of another text after it, and a last text after these.
fn repeated(
    rt: &impl Abort,
    alloc: Global,
    front: &str,
    text: &str,
    count: u32,
    last: &str,
) -> String {
    let mut all = String::from_str(alloc, front).expect(rt, "memory");
    for _ in 0..count {
        all.push_str(text).expect(rt, "memory");
    }
    all.push_str(last).expect(rt, "memory");
    all
}

// Why rows past their limit are rejected.
fn fault_of(is_past: bool) -> Option<WordFault> {
    if is_past {
        Some(WordFault::Usage(3))
    } else {
        None
    }
}

// Checks whether rows are rejected.
fn end(rt: &impl Abort, alloc: Global, rows: &Limit) {
    let (front, text, count, last, refused) = *rows;
    let line = repeated(rt, alloc, front, text, count, last);
    is_refused(rt, alloc, line.as_str(), fault_of(refused), text);
}

#[test]
fn rows_end_at_their_limits(rt: HostRuntime) {
    for rows in LIMITS.iter() {
        end(&rt, rt.alloc(), rows);
    }
}
