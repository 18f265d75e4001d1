//! Why inputs of a formula or a graph are rejected.
use crate::comparing::is_so_in_pieces;
use crate::sources::{PIECES, source};
use dimacs_read::read_formula;
use graph_read::read_graph;
use pop_edge::{MemSource, ReadRefusal};
use std::alloc::Global;
use std::process::Abort;

/// The kind of input.
#[derive(Clone, Copy)]
pub enum Grammar {
    Formula,
    Graph,
}

// Why a source is rejected, or None if it is not.
fn refusal_of(alloc: Global, grammar: Grammar, source: &mut MemSource) -> Option<ReadRefusal> {
    match grammar {
        Grammar::Formula => read_formula(alloc, source).err(),
        Grammar::Graph => read_graph(alloc, source).err(),
    }
}

/// Compares why an input in pieces of this many bytes is rejected. The read with this number
/// fails; 0 is none.
pub fn is_refused(
    rt: &impl Abort,
    alloc: Global,
    grammar: Grammar,
    text: &[u8],
    piece: usize,
    failing: u64,
    want: ReadRefusal,
) {
    let mut source = source(rt, alloc, text, piece, failing);
    let found = refusal_of(alloc, grammar, &mut source);
    drop(source);
    is_so_in_pieces(rt, found == Some(want), piece, failing);
}

// Compares why an input is rejected in pieces of each size.
fn is_refused_in_pieces(
    rt: &impl Abort,
    alloc: Global,
    grammar: Grammar,
    text: &[u8],
    want: ReadRefusal,
) {
    for piece in PIECES.iter() {
        is_refused(rt, alloc, grammar, text, *piece, 0, want);
    }
}

/// Compares why inputs are rejected in pieces of each size.
pub fn are_refused(
    rt: &impl Abort,
    alloc: Global,
    grammar: Grammar,
    refused: &[(&[u8], ReadRefusal)],
) {
    for (text, want) in refused {
        is_refused_in_pieces(rt, alloc, grammar, text, *want);
    }
}
