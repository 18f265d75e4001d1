//! Sources, sinks, and the lines, tokens and numbers of an input.
use crate::comparing::{is_so, is_so_in_pieces};
use crate::sources::{PIECES, source};
use pop_edge::{
    Failed, Lines, MemSink, MemSource, Next, ReadRefusal, Sink, Source, StdSink, StdSource,
    next_word, number, put_all,
};
use std::alloc::Global;
use std::io;
use std::io::{Error, ErrorKind, Read, Write};
use std::process::Abort;

// An input in pieces of this many bytes, with a read that fails; its lines, each with a `/` after
// it; and the result of each call after them.
#[derive(Clone, Copy)]
struct Case<'a> {
    text: &'a [u8],
    piece: usize,
    failing: u64,
    lines: &'a [u8],
    after: Result<Next, ReadRefusal>,
}

// Adds a line, and a `/` after it.
fn push_line(rt: &impl Abort, all: &mut Vec<u8>, line: &[u8]) {
    all.extend_from_slice(line).expect(rt, "memory");
    all.push(b'/').expect(rt, "memory");
}

// The lines of a source, each with a `/` after it. The first call that returns no line is the last
// one that is made.
fn joined(rt: &impl Abort, alloc: Global, lines: &mut Lines, source: &mut MemSource) -> Vec<u8> {
    let mut all = Vec::new(alloc);
    for _ in 0..100 {
        if lines.next(source) != Ok(Next::Line) {
            break;
        }
        push_line(rt, &mut all, lines.line());
    }
    all
}

// Compares the lines of a case's input, and the results of the first two calls after the last
// line.
fn is_cut(rt: &impl Abort, alloc: Global, case: &Case) {
    let mut source = source(rt, alloc, case.text, case.piece, case.failing);
    let mut lines = Lines::new(alloc).expect(rt, "memory");
    let all = joined(rt, alloc, &mut lines, &mut source);
    is_so_in_pieces(rt, all.as_slice() == case.lines, case.piece, case.failing);
    drop(all);
    let (first, second) = (lines.next(&mut source), lines.next(&mut source));
    drop(lines);
    drop(source);
    let is_after = first == case.after && second == case.after;
    is_so_in_pieces(rt, is_after, case.piece, case.failing);
}

// Inputs and their lines. Worked by hand: the last line may have no line end, and a line end at
// the end of the input begins no line.
static TEXTS: [(&[u8], &[u8]); 5] = [
    (b"", b""),
    (b"one\n\nthree\n", b"one//three/"),
    (b"one\ntwo", b"one/two/"),
    (b"\r\n \n", b"\r/ /"),
    (b"\n", b"/"),
];

// Compares the lines of an input in pieces of each size.
fn is_cut_in_pieces(rt: &impl Abort, alloc: Global, text: &[u8], lines: &[u8]) {
    for piece in PIECES.iter() {
        let case = Case {
            text,
            piece: *piece,
            failing: 0,
            lines,
            after: Ok(Next::End),
        };
        is_cut(rt, alloc, &case);
    }
}

#[test]
fn lines_are_the_same_whatever_the_pieces(rt: HostRuntime) {
    for (text, lines) in TEXTS.iter() {
        is_cut_in_pieces(&rt, rt.alloc(), text, lines);
    }
}

// Each read of the input in pieces of 2 fails once. Only the lines before it are returned.
static FAULTS: [(u64, &[u8]); 5] = [
    (1, b""),
    (2, b""),
    (3, b"ab/"),
    (4, b"ab/cd/"),
    (5, b"ab/cd/"),
];

#[test]
fn a_refusal_is_answered_again(rt: HostRuntime) {
    for (failing, lines) in FAULTS.iter() {
        let case = Case {
            text: b"ab\ncd\nef",
            piece: 2,
            failing: *failing,
            lines,
            after: Err(ReadRefusal::ReadFault),
        };
        is_cut(&rt, rt.alloc(), &case);
    }
}

// Makes this many calls, and compares the result of each.
fn come(
    rt: &impl Abort,
    lines: &mut Lines,
    source: &mut MemSource,
    calls: u32,
    want: Result<Next, ReadRefusal>,
) {
    for _ in 0..calls {
        let answer = lines.next(source);
        assert!(rt; answer == want);
    }
}

// Reads the only whole line of an input in pieces of 3. Then it asks this many times for the next
// line, and there is none. The read that fails is still to come.
fn fails_behind(rt: &impl Abort, alloc: Global, text: &[u8], failing: u64, ends: u32) {
    let mut source = source(rt, alloc, text, 3, failing);
    let mut lines = Lines::new(alloc).expect(rt, "memory");
    come(rt, &mut lines, &mut source, 1, Ok(Next::Line));
    come(rt, &mut lines, &mut source, ends, Ok(Next::End));
    drop(lines);
    let read = source.read(&mut [0; 4]);
    drop(source);
    assert!(rt; read == Err(Failed));
}

// Read 2 gives the second line.
#[test]
fn no_read_is_made_behind_a_whole_line(rt: HostRuntime) {
    fails_behind(&rt, rt.alloc(), b"ab\ncd", 2, 0);
}

// Read 2 gives nothing.
#[test]
fn no_read_is_made_behind_the_end(rt: HostRuntime) {
    fails_behind(&rt, rt.alloc(), b"ab\n", 3, 2);
}

// Compares the first token of a line, and returns what is after it.
fn behind_word<'a>(rt: &impl Abort, line: &'a [u8], want: &[u8]) -> &'a [u8] {
    let (word, rest) = next_word(line).expect(rt, "a word");
    assert!(rt; word == want);
    rest
}

#[test]
fn words_are_cut_from_a_line(rt: HostRuntime) {
    let rest = behind_word(&rt, b"\t 0012 x\r", b"0012");
    let rest = behind_word(&rt, rest, b"x");
    assert!(&rt; next_word(rest).is_none());
}

// Tokens and their numbers, with the largest number, one more, and eleven digits.
static NUMBERS: [(&[u8], Option<u32>); 5] = [
    (b"0012", Some(12)),
    (b"x", None),
    (b"4294967295", Some(4294967295)),
    (b"4294967296", None),
    (b"00000000001", None),
];

#[test]
fn a_number_has_at_most_ten_digits_and_32_bits(rt: HostRuntime) {
    for (i, (word, want)) in NUMBERS.iter().enumerate() {
        is_so(&rt, number(word) == *want, "word", i as u64);
    }
}

// A sink with room for nine bytes that takes four at a time. The write with this number fails; 0
// is none.
fn sink(rt: &impl Abort, alloc: Global, failing: u64) -> MemSink {
    let failing = vec![in alloc; failing].expect(rt, "memory");
    MemSink::new(alloc, 9, 4, failing).expect(rt, "memory")
}

// Compares the result of writing these bytes, and what the sink holds after that.
fn puts(rt: &impl Abort, sink: &mut MemSink, bytes: &[u8], want: Result<(), Failed>, holds: &[u8]) {
    let found = put_all(sink, bytes);
    assert!(rt; found == want);
    assert!(rt; sink.bytes() == holds);
}

#[test]
fn a_sink_holds_what_there_is_room_for(rt: HostRuntime) {
    let mut whole = sink(&rt, rt.alloc(), 0);
    puts(&rt, &mut whole, b"s SAMPLE\n", Ok(()), b"s SAMPLE\n");
    puts(&rt, &mut whole, b"x", Err(Failed), b"s SAMPLE\n");
    drop(whole);
}

#[test]
fn a_sink_that_fails_holds_a_front_of_the_bytes(rt: HostRuntime) {
    let mut failing = sink(&rt, rt.alloc(), 2);
    puts(&rt, &mut failing, b"s SAMPLE\n", Err(Failed), b"s SA");
    drop(failing);
}

/// A reader that fails once and then gives one byte at a time.
#[derive(Drop)]
struct Stutter {
    failed: bool,
}

impl Read for Stutter {
    fn read(&mut self, buf: &mut [u8]) -> io::Result<usize> {
        if !self.failed || buf.is_empty() {
            self.failed = true;
            return Err(Error::from(ErrorKind::Other));
        }
        buf[0] = b'x';
        Ok(1)
    }
}

// Compares the result of a read into room for four bytes.
fn reads(rt: &impl Abort, source: &mut StdSource<Stutter>, want: Result<usize, Failed>) -> u8 {
    let mut room = [0; 4];
    let found = source.read(&mut room);
    assert!(rt; found == want);
    room[0]
}

#[test]
fn an_error_of_a_reader_is_a_fault(rt: HostRuntime) {
    let mut source = StdSource::new(Stutter { failed: false });
    reads(&rt, &mut source, Err(Failed));
    let byte = reads(&rt, &mut source, Ok(1));
    drop(source);
    assert!(&rt; byte == b'x');
}

/// A writer that takes one byte, then none, and then fails.
#[derive(Drop)]
struct Clog {
    writes: u8,
}

impl Write for Clog {
    fn write(&mut self, buf: &[u8]) -> io::Result<usize> {
        self.writes = self.writes.saturating_add(1);
        match self.writes {
            1 => Ok(buf.len().min(1)),
            2 => Ok(0),
            _ => Err(Error::from(ErrorKind::Other)),
        }
    }

    fn flush(&mut self) -> io::Result<()> {
        Ok(())
    }
}

// Compares the result of a write of two bytes.
fn writes(rt: &impl Abort, sink: &mut StdSink<Clog>, want: Result<usize, Failed>) {
    let found = sink.write(b"ab");
    assert!(rt; found == want);
}

// The second write takes 0 bytes.
#[test]
fn errors_of_a_writer_are_faults(rt: HostRuntime) {
    let mut sink = StdSink::new(Clog { writes: 0 });
    writes(&rt, &mut sink, Ok(1));
    writes(&rt, &mut sink, Err(Failed));
    writes(&rt, &mut sink, Err(Failed));
    drop(sink);
}
