//! Input and output: sources and sinks that count their errors, the lines of an input, and the
//! tokens, numbers and header of a line. Contracts see the bytes that a source has left and those
//! that a sink has taken, if they are known.
#![tactic(auto)]

mod failed;
mod headers;
mod line_reader;
mod lines;
mod mem_sink;
mod mem_source;
mod next;
mod numbers;
mod refusal;
mod sink;
mod slice_source;
mod source;
mod splitter;
mod std_sink;
mod std_source;
mod words;

pub use failed::Failed;
pub use headers::{MAX_VARIABLES, next_header};
pub use line_reader::{LineReader, read_lines};
pub use lines::Lines;
pub use mem_sink::MemSink;
pub use mem_source::MemSource;
pub use next::Next;
pub use numbers::number;
pub use refusal::ReadRefusal;
pub use sink::{Sink, put_all};
pub use slice_source::SliceSource;
pub use source::Source;
pub use std_sink::StdSink;
pub use std_source::StdSource;
pub use words::next_word;
