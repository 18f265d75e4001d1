ghost use Rattle.std.specs.Prelude.{◌≡◌, ◌≤◌, ℕ, List, Some, Err, OnOk};
ghost use Rattle.std.specs.Io.KnownBytes.{Consumes, IsAtEnd};
ghost use Rattle.pop_model.specs.Faults.{Rose};
ghost use Rattle.pop_edge.specs.declared.refusal.ReadRefusal.TheVariants.{ReadFault};
ghost use Rattle.graph_read.specs.GraphText.{AnswersGraph, HasNoBadLine};

use crate::Graph;
use crate::reader::Reader;
use pop_edge::{ReadRefusal, Source, read_lines};
use std::alloc::Global;

/// Reads a graph, to the end of the source.
///
/// Lines without tokens are skipped, and so are comments, which begin with `c`, and lines with the
/// first token `n`, `d`, `v` or `x`. The first other line is the header, `p edge N M` or `p col N
/// M`. N is the number of vertices, and M is ignored. Each line after it is `e u v` or `e u v w`.
/// It is an edge between the vertices u and v, from 1 to N, with weight w, from 1 to 2^32 - 1. The
/// weight is 1 if it is not given. Self-loops and parallel edges are kept.
///
/// # Errors
///
/// The first error in the order of the input is returned, with its line:
///
/// - `Malformed` with code 11: an invalid or missing header;
/// - `Malformed` with code 12: a token that is not a number;
/// - `Malformed` with code 13: an end that is not a vertex;
/// - `Malformed` with code 14: the weight 0;
/// - `Malformed` with code 15: a later line of another form;
/// - `Limit` with kind 1: more than 2^28 bytes;
/// - `Limit` with kind 2: N above 2^22;
/// - `Limit` with kind 5: more than 2^23 edges.
///
/// In one line code 15 is reported first, then the tokens are checked from left to right, then
/// limit 5. `Count` and `EmptyClause` are never returned. `ReadFault` is returned only if the
/// source failed, no more bytes were read than the limit, and no line that was read to its end is
/// rejected.
pub fn read_graph<S: Source>(alloc: Global, source: &mut S) -> Result<Graph, ReadRefusal>
    ensures text { (text : List ℕ) → S.left source.old ≡ Some text → AnswersGraph text result }
    ensures whole { OnOk result (IsAtEnd (S.left source.new)) }

    ensures later { S.faults source.old ≤ S.faults source.new }
    ensures fault { result ≡ Err ReadFault → Rose (S.faults source.old) (S.faults source.new) }
    ensures no_bad_line { result ≡ Err ReadFault → (taken : List ℕ)
        × Consumes (S.left source.old) (S.left source.new) taken × HasNoBadLine taken }
{
    let mut reader = Reader::new(alloc);
    let line = read_lines(alloc, source, &mut reader)?;
    reader.finish(line)
}
