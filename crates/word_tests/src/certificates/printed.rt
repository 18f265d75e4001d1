//! Certificates of jobs, printed and read back.
use super::{same_at, same_bytes};
use crate::words::read_line;
use pop_words::Job;
use run_cert::{Cert, print_cert, read_cert};
use std::alloc::Global;
use std::process::Abort;

/// The job of a line of arguments, which are separated by one space.
pub fn job_of(rt: &impl Abort, alloc: Global, line: &str) -> Job {
    read_line(rt, alloc, line).expect(rt, "a job")
}

// Command lines, and the heads of their certificates with three bytes of input, worked by hand.
static HEADS: [(&str, &str); 7] = [
    (
        "formula --stacks 0,0,1",
        "cert 1 formula\nstacks 0,0,1\ninput 3\n",
    ),
    ("orient --stacks ", "cert 1 orient\nstacks\ninput 3\n"),
    (
        "resample --stacks 007,1;;4294967295",
        "cert 1 resample\nstacks 7,1;;4294967295\ninput 3\n",
    ),
    (
        "tree --stacks ;",
        "cert 1 tree\nstacks ;\nroot 1\ninput 3\n",
    ),
    (
        "tree --root 4294967295 --stacks 0,10",
        "cert 1 tree\nstacks 0,10\nroot 4294967295\ninput 3\n",
    ),
    (
        "formula",
        "cert 1 formula\n\
        key 0000000000000000000000000000000000000000000000000000000000000000\n\
        height 1048576\ninput 3\n",
    ),
    (
        "tree --height 9 --key 0123456789ABCDEF0123456789abcdef0123456789abcdef0123456789abcdef",
        "cert 1 tree\n\
        key 0123456789abcdef0123456789abcdef0123456789abcdef0123456789abcdef\n\
        height 9\nroot 1\ninput 3\n",
    ),
];

// This head with that input and the text of a log after it.
fn whole(rt: &impl Abort, alloc: Global, head: &str) -> String {
    let mut text = String::from_str(alloc, head).expect(rt, "memory");
    text.push_str("a\nblog 2 0\n").expect(rt, "memory");
    text
}

// Prints the certificate of a job with that input and that log, and compares it.
fn prints(rt: &impl Abort, alloc: Global, job: &Job, text: &str) {
    let printed = print_cert(alloc, job, b"a\nb", b"log 2 0\n").expect(rt, "memory");
    same_bytes(rt, &printed, text.as_bytes(), text);
}

// Compares a certificate with the job.
fn says(rt: &impl Abort, cert: &Cert, job: &Job, text: &str) {
    assert!(rt; cert.command() == job.command, "{text}");
    same_at(rt, cert.height() as u64, job.height as u64, text, 0);
    same_at(rt, cert.root() as u64, job.root as u64, text, 1);
    same_bytes(rt, cert.input(), b"a\nb", text);
    same_bytes(rt, cert.log_text(), b"log 2 0\n", text);
}

// Reads the text, and compares the certificate with the job.
fn reads(rt: &impl Abort, alloc: Global, job: &Job, text: &str) {
    let cert = read_cert(alloc, text.as_bytes()).expect(rt, "a certificate");
    says(rt, &cert, job, text);
}

// Prints the certificate of a job that has this head, and reads it.
fn is_told(rt: &impl Abort, alloc: Global, job: &Job, head: &str) {
    let text = whole(rt, alloc, head);
    prints(rt, alloc, job, text.as_str());
    reads(rt, alloc, job, text.as_str());
}

#[test]
fn what_is_printed_is_read_back(rt: HostRuntime) {
    let alloc = rt.alloc();
    for (line, head) in HEADS.iter() {
        let job = job_of(&rt, alloc, line);
        is_told(&rt, alloc, &job, head);
    }
}
