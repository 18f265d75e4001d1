//! Reads and writes that fail, each in turn, and those that move few bytes.
use super::{answer_in, owned, sink_of, source_of, status_of};
use pop_edge::{MemSource, Source};
use pop_workers::NoGate;
use std::alloc::Global;
use std::process::Abort;
use std::sync::Wait;
use std::thread::Threads;
use top_call::Answer;

static WORDS: [&str; 3] = ["formula", "--stacks", "0,0,1"];

// It has 14 bytes.
const INPUT: &str = "p cnf 1 1\n1 0\n";

// It has 29 bytes.
const OUTPUT: &str = "s SAMPLE\nv 1 0\nused 2\npops 2\n";

// A source and a sink that move this many bytes at a call. The calls with these numbers fail; 0 is
// none.
#[derive(Clone, Copy)]
struct Devices {
    piece: usize,
    read: u64,
    write: u64,
}

// Devices that move single bytes.
fn failing(read: u64, write: u64) -> Devices {
    Devices {
        piece: 1,
        read,
        write,
    }
}

// The status for arguments and an input on these devices, and the bytes that the sink holds.
fn answer_on<R: Threads + Wait + Sync + Abort>(
    rt: &R,
    alloc: Global,
    words: &[String],
    input: &str,
    devices: Devices,
) -> Answer {
    let mut source = source_of(rt, alloc, input, devices.piece, devices.read);
    let mut sink = sink_of(rt, alloc, 64, devices.piece, devices.write);
    let none = Vec::new(alloc);
    let status = status_of(rt, alloc, &NoGate, words, none, &mut source, &mut sink);
    drop(source);
    let answer = answer_in(rt, alloc, status, &sink);
    drop(sink);
    answer
}

// Ends the test if this does not hold for an input on these devices.
fn is_so_on(rt: &impl Abort, holds: bool, what: &str, input: &str, devices: Devices) {
    let Devices { piece, read, write } = devices;
    assert!(rt; holds, "{what}: {input:?}, {piece} {read} {write}");
}

// Compares an answer to an input on these devices.
fn is_wanted(rt: &impl Abort, got: &Answer, input: &str, devices: Devices, wanted: (u8, &str)) {
    let (status, output) = wanted;
    let text = got.text.as_slice();
    is_so_on(rt, got.status == status, "status", input, devices);
    is_so_on(rt, text == output.as_bytes(), "text", input, devices);
}

// Compares the answer to arguments and an input on these devices.
fn is_answered<R: Threads + Wait + Sync + Abort>(
    rt: &R,
    alloc: Global,
    words: &[&str],
    input: &str,
    devices: Devices,
    wanted: (u8, &str),
) {
    let words = owned(rt, alloc, words);
    let got = answer_on(rt, alloc, &words, input, devices);
    drop(words);
    is_wanted(rt, &got, input, devices, wanted);
    drop(got);
}

// Each of the first reads is reported if it fails, up to this number.
fn reads_are_told<R: Threads + Wait + Sync + Abort>(
    rt: &R,
    alloc: Global,
    input: &str,
    count: u64,
) {
    let fault = (7, "s READFAULT\n");
    for before in 0..count {
        is_answered(rt, alloc, &WORDS, input, failing(before + 1, 0), fault);
    }
}

// Read 15 is the end of the input.
#[test]
fn each_read_that_fails_is_told(rt: HostRuntime) {
    let alloc = rt.alloc();
    reads_are_told(&rt, alloc, INPUT, 15);
    is_answered(&rt, alloc, &WORDS, INPUT, failing(16, 0), (0, OUTPUT));
}

// Read 5 comes after the end of the line, if it has one.
#[test]
fn a_fault_comes_before_a_line_without_its_end(rt: HostRuntime) {
    let alloc = rt.alloc();
    reads_are_told(&rt, alloc, "1 0", 4);
    let refused = (3, "s MALFORMED 1 1\n");
    is_answered(&rt, alloc, &WORDS, "1 0", failing(5, 0), refused);
    is_answered(&rt, alloc, &WORDS, "1 0\n2", failing(5, 0), refused);
}

static ONE_POP: [&str; 3] = ["formula", "--pops", "1"];

// The invalid line was read completely, but the source is read to its end before it is checked.
#[test]
fn a_fault_comes_before_a_bad_line_where_a_run_may_stop(rt: HostRuntime) {
    let fault = (7, "s READFAULT\n");
    is_answered(&rt, rt.alloc(), &ONE_POP, "1 0\n2", failing(6, 0), fault);
}

static GRID: [&str; 3] = ["make", "grid", "1"];

// The first read would fail.
#[test]
fn a_grid_is_made_without_the_source(rt: HostRuntime) {
    let wanted = (0, "s SAMPLE\ngrid 1\nused 0 0\npops 0\nsum 0\n");
    is_answered(&rt, rt.alloc(), &GRID, "p edge", failing(1, 0), wanted);
}

// If the write after this many bytes fails, the sink holds exactly these bytes of the output.
fn write_leaves<R: Threads + Wait + Sync + Abort>(rt: &R, alloc: Global, before: u8) {
    let front = OUTPUT.get(..before as usize).unwrap_or("");
    let devices = failing(0, before as u64 + 1);
    is_answered(rt, alloc, &WORDS, INPUT, devices, (8, front));
}

#[test]
fn each_write_that_fails_leaves_a_front_of_the_text(rt: HostRuntime) {
    let alloc = rt.alloc();
    for before in 0..29u8 {
        write_leaves(&rt, alloc, before);
    }
    is_answered(&rt, alloc, &WORDS, INPUT, failing(0, 30), (0, OUTPUT));
}

#[test]
fn a_fault_of_the_sink_is_told_by_the_status_alone(rt: HostRuntime) {
    is_answered(&rt, rt.alloc(), &WORDS, INPUT, failing(1, 1), (8, ""));
}

static BAD_WORDS: [&str; 3] = ["formula", "--height", "0"];

// Runs invalid arguments with a first write that fails.
fn run_bad_words<R: Threads + Wait + Sync + Abort>(rt: &R, alloc: Global, source: &mut MemSource) {
    let words = owned(rt, alloc, &BAD_WORDS);
    let mut sink = sink_of(rt, alloc, 64, 64, 1);
    let none = Vec::new(alloc);
    let _status = status_of(rt, alloc, &NoGate, &words, none, source, &mut sink);
    drop(sink);
    drop(words);
}

// The number of bytes that a read gives.
fn read_from(source: &mut MemSource) -> usize {
    source.read(&mut [0; 64]).unwrap_or(0)
}

// The number of bytes that are left to read after invalid arguments.
fn left_behind_bad_words<R: Threads + Wait + Sync + Abort>(rt: &R, alloc: Global) -> usize {
    let mut source = source_of(rt, alloc, INPUT, 64, 0);
    run_bad_words(rt, alloc, &mut source);
    let left = read_from(&mut source);
    drop(source);
    left
}

#[test]
fn bad_words_leave_the_source_as_it_was(rt: HostRuntime) {
    let alloc = rt.alloc();
    let left = left_behind_bad_words(&rt, alloc);
    assert!(&rt; left == 14, "{left} bytes are left");
    is_answered(&rt, alloc, &BAD_WORDS, INPUT, failing(1, 1), (8, ""));
}

// The sink takes four bytes at a call, and the second call fails.
#[test]
fn a_sink_that_takes_pieces_holds_the_first(rt: HostRuntime) {
    let devices = Devices {
        piece: 4,
        read: 0,
        write: 2,
    };
    is_answered(&rt, rt.alloc(), &WORDS, INPUT, devices, (8, "s SA"));
}

static THREE_STACKS: [&str; 3] = ["formula", "--stacks", "0;0;1"];

// Compares the answer to an input with comments and an end mark, in pieces of this size.
fn is_read_in_pieces<R: Threads + Wait + Sync + Abort>(rt: &R, alloc: Global, piece: usize) {
    let input = "c by hand\np cnf 3 2\n1 -2\nc in the middle\n0\n2 3\n%\n0\n";
    let wanted = (0, "s SAMPLE\nv -1 -2 3 0\nused 0 0 0\npops 0\n");
    let devices = Devices {
        piece,
        read: 0,
        write: 0,
    };
    is_answered(rt, alloc, &THREE_STACKS, input, devices, wanted);
}

static PIECES: [usize; 5] = [1, 2, 3, 7, 50];

#[test]
fn the_size_of_the_pieces_changes_no_byte(rt: HostRuntime) {
    for piece in PIECES.iter() {
        is_read_in_pieces(&rt, rt.alloc(), *piece);
    }
}
