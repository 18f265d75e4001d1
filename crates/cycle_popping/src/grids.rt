//! The trees of grids, without making the graph of the grid.
ghost use Rattle.std.specs.Prelude.{◌≡◌, IfOk};
ghost use Rattle.graph_read.specs.Grids.{IsSide, grid_of};
ghost use Rattle.cycle_popping.specs.Trees.{heads_of_tree, weights_of_tree};

use crate::heads::arrows_of;
use crate::weights::ones_of;
use graph_read::Grid;
use pop_instance::Arrows;
use pop_stacks::Weights;
use std::alloc::{AllocError, Global};

// The root of a grid's trees: the first vertex of the first row.
const ROOT: u32 = 1;

/// The arrows of the spanning trees of a grid with this many rows and columns, from 1 to 2048,
/// that lead to vertex 1. They are those of `arrows` for the grid, but the graph is not made.
pub fn grid_arrows(alloc: Global, side: u32) -> Result<Arrows, AllocError>
    requires side { IsSide side }
    ensures { IfOk result (λ arrows. arrows ≡ heads_of_tree (grid_of side) 1) }
{
    arrows_of(alloc, &Grid::of(side), ROOT)?.packed(alloc)
}

/// The weights of these arrows, which are all 1. They are those of `arrow_weights` for the grid.
pub fn grid_weights(alloc: Global, side: u32) -> Result<Weights, AllocError>
    requires side { IsSide side }
    ensures { IfOk result (λ weights. weights ≡ weights_of_tree (grid_of side) 1) }
{
    ones_of(alloc, &Grid::of(side), ROOT)
}
