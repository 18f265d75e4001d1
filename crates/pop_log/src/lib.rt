//! Logs of pops: merging by tickets, replay, layers, printing and reading.
//!
//! Contracts see a log as the list of its records.
#![tactic(auto)]

mod candidates;
mod decimals;
mod first_line;
pub mod laws;
mod layer_checking;
mod layered_log;
mod layered_printing;
mod layering;
mod legality;
mod log_refusal;
mod log_version;
mod merging;
mod names;
mod placed_record;
mod printed_record;
mod printing;
mod progress;
mod reading;
mod record_words;
mod replay_result;
mod replaying;
mod sorting;
mod text_lines;

pub use decimals::number;
pub use layered_log::{LayeredLog, layered, print_layered};
pub use layering::layers;
pub use log_refusal::LogRefusal;
pub use log_version::LogVersion;
pub use merging::merge;
pub use names::Names;
pub use printing::{number_of_event, print_log};
pub use reading::{read_log, read_run};
pub use replay_result::Replay;
pub use replaying::replay;
pub use text_lines::cut_line;
