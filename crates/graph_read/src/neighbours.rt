ghost use Rattle.std.specs.Prelude.{◌≡◌, ◌*◌, ◌++◌, OnOk};
ghost use Rattle.graph_read.specs.Graphs.{IsVertex};
ghost use Rattle.graph_read.specs.Grids.{IsSide, grid_of, vertex_where};
ghost use Rattle.graph_read.specs.Incidence.{neighbours_of};

use std::alloc::AllocError;

/// Replaces the contents of a list by the neighbours of a vertex of a grid. These are the vertices
/// above, to the left, to the right and below that exist. The grid has from 1 to 2048 rows and
/// columns. Its vertices count from 1, row by row.
pub fn put_grid_neighbours(
    neighbours: &mut Vec<u32>,
    side: u32,
    vertex: u32,
) -> Result<(), AllocError>
    requires side { IsSide side }
    requires vertex { IsVertex (side * side) vertex }
    ensures { OnOk result (neighbours.new.items ≡ neighbours_of (grid_of side) vertex) }
{
    let row = (vertex - 1) / side + 1;
    let column = (vertex - 1) % side + 1;
    neighbours.clear();
    // The difference would be negative only in the first row, which has no neighbours above.
    add_where(neighbours, row > 1, vertex.saturating_sub(side))?;
    add_where(neighbours, column > 1, vertex - 1)?;
    add_where(neighbours, column < side, vertex + 1)?;
    add_where(neighbours, row < side, vertex + side)
}

// Adds a vertex, if it exists.
fn add_where(list: &mut Vec<u32>, there: bool, vertex: u32) -> Result<(), AllocError>
    ensures { OnOk result (list.new.items ≡ list.old.items ++ vertex_where there vertex) }
{
    if there {
        list.push(vertex)?;
    }
    Ok(())
}
