//! Graphs that are read, and inputs that are rejected.
use crate::comparing::is_so;
use crate::refusals::{Grammar, are_refused, is_refused};
use crate::sources::{PIECES, graph, graph_in_pieces};
use graph_read::{Edge, Graph};
use pop_edge::ReadRefusal;
use std::alloc::Global;
use std::process::Abort;

mod cut_off;
mod grids;
mod vertices;

// An edge: the vertices that it joins, and its weight.
type Joined = (u32, u32, u32);

// Compares the edges of a graph.
fn are_edges(rt: &impl Abort, graph: &Graph, want: &[Joined]) {
    assert!(rt; graph.edges() as usize == want.len());
    for i in 0..graph.edges() {
        let (u, v, weight) = want[i as usize];
        let is_edge = graph.edge(i) == Edge { u, v, weight };
        is_so(rt, is_edge, "edge", i as u64);
    }
}

// A self-loop, parallel edges, lines that are skipped, and a last line without a line end.
static BY_HAND: &[u8] = b"c by hand\np edge 3 9\n\ne 2 2\nn 1 7\ne 1 2 5\r\ne\t3  1\ncol\ne 1 2";

static BY_HAND_EDGES: [Joined; 4] = [(2, 2, 1), (1, 2, 5), (3, 1, 1), (1, 2, 1)];

// Compares the graph of that input in pieces of this many bytes.
fn is_read_by_hand(rt: &impl Abort, alloc: Global, piece: usize) {
    let graph = graph_in_pieces(rt, alloc, BY_HAND, piece, 0);
    assert!(rt; graph.vertices() == 3);
    are_edges(rt, &graph, &BY_HAND_EDGES);
    drop(graph);
}

#[test]
fn a_graph_is_the_same_whatever_the_pieces(rt: HostRuntime) {
    for piece in PIECES.iter() {
        is_read_by_hand(&rt, rt.alloc(), *piece);
    }
}

// Worked by hand from the grammar.
static REFUSED: [(&[u8], ReadRefusal); 11] = [
    (b"", ReadRefusal::Malformed(1, 11)),
    (b"c\nn 1\n", ReadRefusal::Malformed(3, 11)),
    (b"p edge 2 1 0\n", ReadRefusal::Malformed(1, 11)),
    (b"p edge 4194305 0\n", ReadRefusal::Limit(2, 1)),
    (b"p col 2 1\ne 1 2\ne 1 x\n", ReadRefusal::Malformed(3, 12)),
    (b"p col 2 1\ne 0 x\n", ReadRefusal::Malformed(2, 13)),
    (
        b"p col 2 1\ne 1 2 0\ne 3 1\n",
        ReadRefusal::Malformed(2, 14),
    ),
    (b"p col 2 1\ne 1 2 1 1", ReadRefusal::Malformed(2, 15)),
    (b"p col 2 1\n\np col 2 1\n", ReadRefusal::Malformed(3, 15)),
    (b"p col 2 1\nnn 1\n", ReadRefusal::Malformed(2, 15)),
    (b"p col 2 1\n%\n", ReadRefusal::Malformed(2, 15)),
];

#[test]
fn a_bad_text_is_refused_whatever_the_pieces(rt: HostRuntime) {
    are_refused(&rt, rt.alloc(), Grammar::Graph, &REFUSED);
}

// Compares the edges of the graph of an input.
fn has_edges(rt: &impl Abort, alloc: Global, text: &[u8], want: &[Joined]) {
    let graph = graph(rt, alloc, text);
    are_edges(rt, &graph, want);
    drop(graph);
}

// Inputs with one edge. Worked by hand from the grammar: a number has up to ten digits, and is
// below 2^32.
static ONE_EDGE: [(&[u8], Joined); 6] = [
    (b"p edge 3 1\ne 3 2", (3, 2, 1)),
    (b"p edge 3 1\ne 3 2 ", (3, 2, 1)),
    (b"p edge 3 1\ne 3 2 7 ", (3, 2, 7)),
    (b"p edge 3 1\n e\t 3  2\r", (3, 2, 1)),
    (b"p edge 3 1\ne 0000000003 2 999999999", (3, 2, 999999999)),
    (b"p edge 3 1\ne 3 2 4294967295", (3, 2, 4294967295)),
];

#[test]
fn an_edge_is_read_however_its_numbers_are_written(rt: HostRuntime) {
    for (text, want) in ONE_EDGE.iter() {
        has_edges(&rt, rt.alloc(), text, &[*want]);
    }
}

// Inputs with an invalid second line, and the code of its error.
static BAD_EDGE: [(&[u8], u32); 6] = [
    (b"p edge 3 1\ne 000000003 0000000002 00", 14),
    (b"p edge 3 1\ne 3 2 4294967296", 12),
    (b"p edge 3 1\ne 00000000003 2", 12),
    (b"p edge 3 1\ne 3 4", 13),
    (b"p edge 3 1\ne 3 2 1 1", 15),
    (b"p edge 3 1\ne 3 2x", 12),
];

#[test]
fn a_bad_edge_is_refused_at_its_line(rt: HostRuntime) {
    for (text, code) in BAD_EDGE.iter() {
        let want = ReadRefusal::Malformed(2, *code);
        is_refused(&rt, rt.alloc(), Grammar::Graph, text, 4096, 0, want);
    }
}

// The invalid line ends with byte 16 of 23, and each read gives one byte.
#[test]
fn a_fault_comes_behind_the_lines_before_it(rt: HostRuntime) {
    let text = b"p col 2 1\ne 1 3\ne 1 2 0";
    for fault in 1..25 {
        let want = if fault <= 16 {
            ReadRefusal::ReadFault
        } else {
            ReadRefusal::Malformed(2, 13)
        };
        is_refused(&rt, rt.alloc(), Grammar::Graph, text, 1, fault, want);
    }
}

// It has 17 bytes, and needs 18 reads of one byte; the last read gives none.
static GOOD: &[u8] = b"p edge 2 1\ne 1 2\n";

// Compares the number of edges of that input. Read 19 would fail.
fn is_read_in_18(rt: &impl Abort, alloc: Global) {
    let graph = graph_in_pieces(rt, alloc, GOOD, 1, 19);
    assert!(rt; graph.edges() == 1);
    drop(graph);
}

#[test]
fn a_good_text_with_a_fault_is_not_read(rt: HostRuntime) {
    for fault in 1..19 {
        is_refused(
            &rt,
            rt.alloc(),
            Grammar::Graph,
            GOOD,
            1,
            fault,
            ReadRefusal::ReadFault,
        );
    }
    is_read_in_18(&rt, rt.alloc());
}
