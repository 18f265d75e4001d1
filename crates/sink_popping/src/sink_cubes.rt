ghost use Rattle.std.specs.Prelude.{◌≡◌, ◌<◌, length, map, IfOk};
ghost use Rattle.graph_read.specs.Graphs.{IsVertex};
ghost use Rattle.graph_read.specs.Incidence.{edges_at};
ghost use Rattle.sink_popping.specs.SinkCubes.{pair_of, pairs_at};

use graph_read::Incidence;
use pop_instance::Cube;
use std::alloc::{AllocError, Global};

// The variables and values of these darts.
fn pairs_of(alloc: Global, darts: &[u32]) -> Result<Vec<(u32, u32)>, AllocError>
    ensures { IfOk result (λ pairs. pairs.items ≡ map pair_of darts.now) }
{
    let mut pairs = Vec::with_capacity(alloc, darts.len())?;
    for dart in darts {
        pairs.push((*dart / 2, *dart % 2))?;
    }
    Ok(pairs)
}

/// The cube of a vertex with at least one edge that is not a self-loop. It has each such edge,
/// with the value for which the edge points to the vertex.
pub fn sink_cube(alloc: Global, incidence: &Incidence, w: u32) -> Result<Cube, AllocError>
    requires vertex { IsVertex incidence.now.vertices w }
    requires some { 0 < length (edges_at incidence.now w) }
    ensures { IfOk result (λ cube. cube ≡ pairs_at incidence.now w) }
{
    // Read for its contract, which bounds the number of edges.
    let _edges = incidence.graph().edges();
    let pairs = pairs_of(alloc, incidence.at(w))?;
    Ok(Cube::new(pairs).unwrap())
}
