//! The summary of an end if a grid was made.
ghost use Rattle.std.specs.Prelude.{◌≡◌, ◌+◌, ◌*◌, ◌<◌, ◌++◌, ℕ, length, slice_index, OnOk};
ghost use Rattle.pop_model.specs.Names.{vertex_of as vertex_named};
ghost use Rattle.graph_read.specs.Grids.{IsSide, grid_of};
ghost use Rattle.graph_read.specs.Incidence.{edges_at};
ghost use Rattle.pop_print.specs.Ends.{IsOfGrid, IsAtEnd};
ghost use Rattle.pop_print.specs.Made.{slot_sum as slot_sum_of};
ghost use Rattle.pop_print.specs.Output.{summary};

use crate::counts::push_totals;
use crate::line::push_line;
use confluence_core::End;
use graph_read::vertex_of;
use pop_instance::{Instance, Values};
use pop_text::Output;
use std::alloc::AllocError;

// The sum, over the vertices except the root, of the vertex times its slot, from 1. The root is
// vertex 1.
fn slot_sum(side: u32, values: &Values) -> u64
    requires side { IsSide side }
    requires count { length values.now + 1 ≡ side * side }
    requires slots { (v : ℕ) → v < length values.now
        → slice_index values.now v < length (edges_at (grid_of side) (vertex_named 1 v)) }
    ensures { result ≡ slot_sum_of values.now }
{
    // The sum is at most 2^46, by the limits of vertices and edges.
    let mut total = 0;
    for v in 0..side * side - 1 {
        total += u64::from(vertex_of(1, v)) * (u64::from(values.get(v)) + 1);
    }
    total
}

/// Adds the summary of an end for the grid of this side.
pub fn push_summary(
    out: &mut Output,
    side: u32,
    instance: &Instance,
    end: &End,
) -> Result<(), AllocError>
    requires grid { IsOfGrid side instance.now }
    requires end { IsAtEnd instance.now end.now.cursors end.now.stuck end.now.values }
    ensures { OnOk result (out.new ≡ out.old ++ summary side instance.now.stacks
        end.now.cursors end.now.pops end.now.stuck) }
{
    let count = instance.stacks().count();
    if end.stuck.len() == 0 {
        out.push(b"s SAMPLE\n")?;
        push_line(out, b"grid ", u64::from(side))?;
        push_totals(out, &end.cursors, count)?;
        push_line(out, b"pops ", end.pops)?;
        push_line(out, b"sum ", slot_sum(side, &end.values))
    } else {
        out.push(b"s EXHAUSTED\n")?;
        push_line(out, b"grid ", u64::from(side))?;
        push_line(out, b"stuck ", end.stuck.len())?;
        push_totals(out, &end.cursors, count)?;
        push_line(out, b"pops ", end.pops)
    }
}
