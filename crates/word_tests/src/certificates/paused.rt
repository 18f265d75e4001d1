//! The certificate of a run that was paused after one pop, worked by hand: the formula with the
//! one clause `1`, over the row 0, 0, 1.
use pop_stacks::{Rows, StackSpec};
use pop_words::Command;
use run_cert::Cert;

/// The text of the certificate.
pub static TEXT: [u8; 71] =
    *b"cert 1 formula\nstacks 0,0,1\ninput 14\np cnf 1 1\n1 0\nlog 2 1\npop 1 1 1:0\n";

/// Its input.
pub static INPUT: [u8; 14] = *b"p cnf 1 1\n1 0\n";

/// The text of its log.
pub const LOG_TEXT: &str = "log 2 1\npop 1 1 1:0\n";

// Whether these are the one row 0, 0, 1.
fn are_its_rows(rows: &Rows) -> bool {
    rows.count() == 1 && rows.row(0) == [0, 0, 1].as_slice()
}

// Whether the stacks are of that row.
fn are_its_stacks(stacks: &StackSpec) -> bool {
    match stacks {
        StackSpec::Key(_) => false,
        StackSpec::Given(rows) => are_its_rows(rows),
    }
}

/// Whether this is that certificate.
pub fn is_it(cert: &Cert) -> bool {
    cert.command() == Command::Formula
        && are_its_stacks(cert.spec())
        && (cert.height(), cert.root()) == (1 << 20, 1)
        && cert.input() == INPUT.as_slice()
        && cert.log_text() == LOG_TEXT.as_bytes()
}
