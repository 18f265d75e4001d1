//! Inputs as sources, and the graphs of inputs.
use graph_read::{Graph, read_graph};
use pop_edge::MemSource;
use std::alloc::Global;
use std::process::Abort;

/// The numbers of bytes that a source gives at a time, if inputs are read in pieces.
pub static PIECES: [usize; 5] = [1, 2, 3, 7, 4096];

/// An input in pieces of this many bytes. The read with this number fails; 0 is none.
pub fn source(
    rt: &impl Abort,
    alloc: Global,
    text: &[u8],
    piece: usize,
    failing: u64,
) -> MemSource {
    let bytes = Vec::from_slice(alloc, text).expect(rt, "memory");
    let failing = vec![in alloc; failing].expect(rt, "memory");
    MemSource::new(bytes, piece.max(1), failing)
}

/// The graph of an input in pieces of this many bytes. The read with this number would fail; 0 is
/// none.
pub fn graph_in_pieces(
    rt: &impl Abort,
    alloc: Global,
    text: &[u8],
    piece: usize,
    failing: u64,
) -> Graph {
    let mut source = source(rt, alloc, text, piece, failing);
    let graph = read_graph(alloc, &mut source).expect(rt, "a graph");
    drop(source);
    graph
}

/// The graph of an input.
pub fn graph(rt: &impl Abort, alloc: Global, text: &[u8]) -> Graph {
    graph_in_pieces(rt, alloc, text, 4096, 0)
}
