//! Certificates: one file with a command, its stacks, its input and the text of a log. Also runs
//! that are stopped after a number of pops, with the state at their cursors.
//!
//! Contracts see a certificate as its head, its input and the text of its log.
#![tactic(auto)]

mod cert;
mod cert_refusal;
mod head_lines;
pub mod laws;
mod look_kind;
mod looking;
mod part;
mod printing;
mod reading;
mod rows_text;
mod seen;

pub use cert::Cert;
pub use cert_refusal::CertRefusal;
pub use look_kind::Look;
pub use looking::{look, run_part};
pub use part::Part;
pub use printing::print_cert;
pub use reading::read_cert;
pub use seen::Seen;
