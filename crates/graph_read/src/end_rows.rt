//! Rows of numbers that edges add, one row for each vertex.
ghost use Rattle.std.specs.Prelude.{◌≡◌, ◌≤◌, ◌^◌, length, replicate, IfOk};
ghost use Rattle.pop_rows.specs.FlatRows.{HasRoom, push_at};
ghost use Rattle.graph_read.specs.Incidence.{degrees_of, put_of, rows_by};
ghost use Rattle.graph_read.specs.Ranges.{AreEmptyWithin, FillsRange, IsWithin};

use crate::Graph;
use crate::put::Put;
use crate::row_range::RowRange;
use pop_rows::{FlatRows, count_at};
use std::alloc::{AllocError, Global};

// The rows that this many edges fill stay about in the cache.
const EDGES_A_RANGE: u32 = 1 << 19;

/// For each vertex, from vertex 1 on, the numbers that its edges add, in the order of the graph.
/// Self-loops are left out. One pass over the edges counts, and one or more passes add.
pub fn rows_of(alloc: Global, graph: &Graph, put: Put) -> Result<FlatRows, AllocError>
    ensures { IfOk result (λ rows. rows.rows ≡ rows_by (put_of put) graph.now) }
{
    put_rows(alloc, graph, degrees(alloc, graph)?, put)
}

/// The rows of `rows_of` if the number of edges at each vertex is known.
///
/// The rows of a large graph are filled range by range, with one pass over the edges for each
/// range. The edges are read in order, and the rows that are written stay in the cache.
pub fn put_rows(
    alloc: Global,
    graph: &Graph,
    degrees: Vec<u32>,
    put: Put,
) -> Result<FlatRows, AllocError>
    requires degrees { degrees.items ≡ degrees_of graph.now }
    requires few { length degrees.items ≤ 2 ^ 22 }
    ensures { IfOk result (λ rows. rows.rows ≡ rows_by (put_of put) graph.now) }
{
    let mut rows = FlatRows::with_rooms(alloc, degrees)?;
    let ranges = 1 + graph.edges() / EDGES_A_RANGE;
    let size = 1 + graph.vertices() / ranges;
    for k in 0..ranges {
        let range = RowRange {
            first: k * size,
            end: (k + 1) * size,
        };
        put_range(graph, put, range, &mut rows);
    }
    Ok(rows)
}

// Fills the rows of a range. They are empty before.
fn put_range(graph: &Graph, put: Put, range: RowRange, rows: &mut FlatRows)
    requires rooms { rows.old.rooms ≡ degrees_of graph.now }
    requires size { length rows.old.rows ≡ graph.now.vertices }
    requires empty { AreEmptyWithin range rows.old.rows }
    ensures rooms { rows.new.rooms ≡ rows.old.rooms }
    ensures fills { FillsRange (put_of put) graph.now range rows.old.rows rows.new.rows }
{
    for i in 0..graph.edges() {
        let edge = graph.edge(i);
        if !edge.is_loop() {
            put_end(range, edge.u - 1, put.of(i, edge, edge.u), rows);
            put_end(range, edge.v - 1, put.of(i, edge, edge.v), rows);
        }
    }
}

// Adds a number at the end of a row if the row is in the range.
fn put_end(range: RowRange, row: u32, x: u32, rows: &mut FlatRows)
    requires { IsWithin range row → HasRoom rows.old row }
    ensures rooms { rows.new.rooms ≡ rows.old.rooms }
    ensures within { IsWithin range row → rows.new.rows ≡ push_at rows.old.rows row x }
    ensures beyond { (IsWithin range row → ⊥) → rows.new.rows ≡ rows.old.rows }
{
    if range.has(row) {
        rows.push(row, x);
    }
}

// The number of edges at each vertex, from vertex 1 on, without self-loops.
fn degrees(alloc: Global, graph: &Graph) -> Result<Vec<u32>, AllocError>
    ensures degrees { IfOk result (λ degrees. degrees.items ≡ degrees_of graph.now) }
    ensures few { IfOk result (λ degrees. length degrees.items ≤ 2 ^ 22) }
{
    let mut degrees = vec![in alloc; 0; graph.vertices() as usize]?;
    count_ends(graph, &mut degrees);
    Ok(degrees)
}

// Counts the edges at each vertex. All counts must be 0 at first.
fn count_ends(graph: &Graph, degrees: &mut [u32])
    requires { degrees.old ≡ replicate graph.now.vertices 0 }
    ensures { degrees.new ≡ degrees_of graph.now }
{
    for i in 0..graph.edges() {
        let edge = graph.edge(i);
        if !edge.is_loop() {
            count_at(degrees, edge.u - 1);
            count_at(degrees, edge.v - 1);
        }
    }
}
