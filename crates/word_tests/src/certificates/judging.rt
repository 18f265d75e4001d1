//! Which bytes are accepted as certificates.
use super::paused::{TEXT, is_it};
use run_cert::{Cert, CertRefusal, read_cert};
use std::alloc::Global;
use std::process::Abort;

// The result of reading bytes as a certificate.
#[derive(Clone, Copy, PartialEq, Eq)]
enum Verdict {
    // It is the certificate of the paused run.
    Itself,
    // It is another certificate.
    Another,
    // It is rejected at this line with this code.
    Refused(u64, u32),
    OutOfMemory,
}

// Compares a certificate with that of the paused run.
fn judge_cert(cert: &Cert) -> Verdict {
    if is_it(cert) {
        return Verdict::Itself;
    }
    Verdict::Another
}

fn judge(alloc: Global, text: &[u8]) -> Verdict {
    match read_cert(alloc, text) {
        Ok(cert) => judge_cert(&cert),
        Err(CertRefusal::Malformed(line, code)) => Verdict::Refused(line, code),
        Err(CertRefusal::OutOfMemory) => Verdict::OutOfMemory,
    }
}

// Compares the result of reading a text.
fn is_judged(rt: &impl Abort, alloc: Global, text: &[u8], wanted: Verdict, what: &str, place: u64) {
    let verdict = judge(alloc, text);
    assert!(rt; verdict == wanted, "{what} {place}");
}

// The expected result for a prefix of the text. Its lines end after the bytes 15, 28 and 37, and
// its input after byte 51. After that the text of the log may have any length.
fn cut_verdict(length: usize) -> Verdict {
    match length {
        0..=14 => Verdict::Refused(1, 21),
        15..=27 => Verdict::Refused(2, 21),
        28..=36 => Verdict::Refused(3, 21),
        37..=50 => Verdict::Refused(3, 22),
        51..=70 => Verdict::Another,
        _ => Verdict::Itself,
    }
}

#[test]
fn each_cut_is_judged_at_its_line(rt: HostRuntime) {
    let alloc = rt.alloc();
    for length in 0..72 {
        let wanted = cut_verdict(length);
        is_judged(&rt, alloc, &TEXT[..length], wanted, "bytes", length as u64);
    }
}

// The expected result for the text with another byte at a place, worked by hand. The numbers of
// the row are at 22, 24 and 26, and the separators between them at 23 and 25. The size of the
// input, 14, is at 34 and 35, and 34 bytes follow its line. A line end in the head makes the line
// after it invalid, except after `input 1`.
fn changed_verdict(at: usize, byte: u8) -> Verdict {
    match (at, byte) {
        (22 | 24 | 26, b'0'..=b'9') | (23 | 25, b';') => Verdict::Another,
        (21 | 23 | 25, b'\n') => Verdict::Refused(3, 21),
        (34, b'2' | b'3') | (35, b'0'..=b'9' | b'\n') => Verdict::Another,
        (34, b'4'..=b'9') => Verdict::Refused(3, 22),
        (0..=14, _) => Verdict::Refused(1, 21),
        (15..=27, _) => Verdict::Refused(2, 21),
        (28..=36, _) => Verdict::Refused(3, 21),
        _ => Verdict::Another,
    }
}

// Reads the text with each other byte at a place.
fn judge_changes(rt: &impl Abort, alloc: Global, at: usize) {
    let mut text = TEXT;
    assert!(rt; at < 71);
    let byte = text[at];
    for change in 1..=255u8 {
        text[at] = byte ^ change;
        let wanted = changed_verdict(at, byte ^ change);
        is_judged(rt, alloc, text.as_slice(), wanted, "byte", at as u64);
    }
}

#[test]
fn each_changed_byte_is_judged(rt: HostRuntime) {
    for at in 0..71 {
        judge_changes(&rt, rt.alloc(), at);
    }
}

// Heads, and the results of reading them, worked by hand.
static HEADS: [(&str, u64, u32); 24] = [
    ("cert 2 formula\n", 1, 21),
    ("cert 1 check\n", 1, 21),
    ("cert 1 make\n", 1, 21),
    ("cert 1 rounds\n", 1, 21),
    ("cert 1  tree\n", 1, 21),
    ("cert 1 tree \n", 1, 21),
    ("cert 1 tree\n", 2, 21),
    ("cert 1 tree\nstacks \n", 2, 21),
    ("cert 1 tree\nstacks 0,01\n", 2, 21),
    ("cert 1 tree\nstacks 4294967296\n", 2, 21),
    ("cert 1 tree\nstacks 4294967295\n", 3, 21),
    ("cert 1 tree\nstacks ;\ninput 0\n", 3, 21),
    ("cert 1 tree\nstacks\nroot 0\ninput 0\n", 3, 21),
    ("cert 1 tree\nstacks\nroot 4294967296\ninput 0\n", 3, 21),
    ("cert 1 tree\nstacks\nroot 4294967295\ninput 00\n", 4, 21),
    ("cert 1 tree\nstacks\nroot 1\ninput 4294967296\n", 4, 21),
    ("cert 1 tree\nstacks\nroot 1\ninput 4294967295\n", 4, 22),
    ("cert 1 tree\nstacks\nroot 1\ninput 1\n", 4, 22),
    ("cert 1 tree\nstacks\nroot 1\ninput 1", 4, 21),
    ("cert 1 formula\nstacks\nroot 1\ninput 0\n", 3, 21),
    ("cert 1 orient\nstacks 0\nheight 7\ninput 0\n", 3, 21),
    ("cert 1 orient\nkey 00\nheight 7\ninput 0\n", 2, 21),
    ("cert 1 orient\r\nstacks\ninput 0\n", 1, 21),
    ("", 1, 21),
];

#[test]
fn heads_are_refused_at_their_first_bad_line(rt: HostRuntime) {
    let alloc = rt.alloc();
    for (head, line, code) in HEADS.iter() {
        let wanted = Verdict::Refused(*line, *code);
        is_judged(&rt, alloc, head.as_bytes(), wanted, head, *line);
    }
}

// 64 digits of a key, and the same with an upper-case digit.
const DIGITS: &str = "00000000000000000000000000000000000000000000000000000000000000ab";

const UPPER: &str = "00000000000000000000000000000000000000000000000000000000000000aB";

// The digits of a key, what follows them in the head of an orientation, and the result of reading
// it, worked by hand.
static KEYED: [(&str, &str, Verdict); 10] = [
    (DIGITS, "\nheight 7\ninput 0\n", Verdict::Another),
    (DIGITS, "\nheight 2147483647\ninput 0\n", Verdict::Another),
    (DIGITS, "\nheight 0\ninput 0\n", Verdict::Refused(3, 21)),
    (
        DIGITS,
        "\nheight 2147483648\ninput 0\n",
        Verdict::Refused(3, 21),
    ),
    (DIGITS, "\ninput 0\n", Verdict::Refused(3, 21)),
    (
        DIGITS,
        "\nheight 7\nroot 1\ninput 0\n",
        Verdict::Refused(4, 21),
    ),
    (DIGITS, "\nheight 7\ninput 1\n", Verdict::Refused(4, 22)),
    (DIGITS, "0\nheight 7\ninput 0\n", Verdict::Refused(2, 21)),
    (UPPER, "\nheight 7\ninput 0\n", Verdict::Refused(2, 21)),
    ("ab", "\nheight 7\ninput 0\n", Verdict::Refused(2, 21)),
];

// The head of an orientation with these digits of a key and these bytes after them.
fn keyed(rt: &impl Abort, alloc: Global, digits: &str, rest: &str) -> String {
    let mut text = String::from_str(alloc, "cert 1 orient\nkey ").expect(rt, "memory");
    text.push_str(digits).expect(rt, "memory");
    text.push_str(rest).expect(rt, "memory");
    text
}

#[test]
fn a_key_is_read_as_it_is_printed(rt: HostRuntime) {
    let alloc = rt.alloc();
    for (digits, rest, wanted) in KEYED.iter() {
        let text = keyed(&rt, alloc, digits, rest);
        is_judged(&rt, alloc, text.as_bytes(), *wanted, text.as_str(), 0);
    }
}
