ghost use Rattle.std.specs.Prelude.{◌≡◌, ◌*◌, length};
ghost use Rattle.graph_read.specs.Graphs.{IsVertex};
ghost use Rattle.graph_read.specs.Grids.{IsSide, grid_of, vertex_where};
ghost use Rattle.graph_read.specs.Incidence.{edges_at};

use crate::{Adjacency, put_grid_neighbours};
use std::alloc::AllocError;
use std::marker::Model;

/// The square grid with `side` rows and columns, from 1 to 2048. Only this number is stored, and
/// no edges. Contracts see the graph.
#[derive(Drop)]
pub struct Grid {
    side: u32,
}

impl Model for Grid {
    ghost use Rattle.graph_read.specs.Graphs.{GraphOf};
    ghost use Rattle.graph_read.specs.Grids.{IsSide, grid_of};

    ghost Value = { GraphOf };

    ghost view = { λ a. grid_of a.side };

    ghost invariant = { λ a. IsSide a.side };
}

impl Grid {
    /// The grid with this many rows and columns.
    pub fn of(side: u32) -> Grid
        requires { IsSide side }
        ensures { result ≡ grid_of side }
    {
        Grid { side }
    }
}

impl Adjacency for Grid {
    ghost of_graph = { λ a. a };

    fn vertices(&self) -> u32 {
        self.side * self.side
    }

    fn ends(&self) -> usize {
        4 * (self.side * (self.side - 1)) as usize
    }

    fn degree(&self, vertex: u32) -> u32 {
        grid_degree(self.side, vertex)
    }

    fn put_neighbours(&self, neighbours: &mut Vec<u32>, vertex: u32) -> Result<(), AllocError> {
        put_grid_neighbours(neighbours, self.side, vertex)
    }
}

// The number of neighbours of a vertex of the grid: those above, to the left, to the right and
// below that exist.
fn grid_degree(side: u32, vertex: u32) -> u32
    requires side { IsSide side }
    requires vertex { IsVertex (side * side) vertex }
    ensures { result ≡ length (edges_at (grid_of side) vertex) }
{
    let row = (vertex - 1) / side + 1;
    let column = (vertex - 1) % side + 1;
    one_where(row > 1) + one_where(column > 1) + one_where(column < side) + one_where(row < side)
}

// 1 if it exists, and otherwise 0.
fn one_where(there: bool) -> u32
    ensures { result ≡ length (vertex_where there 0) }
{
    if there { 1 } else { 0 }
}
