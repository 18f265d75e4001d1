//! The sample of an orientation: the edges with their directions.
ghost use Rattle.std.specs.Prelude.{◌≡◌, ◌++◌, length, OnOk};
ghost use Rattle.pop_print.specs.Output.{oriented_line, orientation_lines};

use crate::arrow::push_arrow;
use graph_read::{Edge, Graph};
use pop_instance::Values;
use pop_text::Output;
use std::alloc::AllocError;

// Adds an edge with its value: 0 points from its first vertex to its second, and 1 back.
fn push_oriented(out: &mut Output, edge: Edge, number: u32, x: u32) -> Result<(), AllocError>
    ensures { OnOk result (out.new ≡ out.old ++ oriented_line edge number x) }
{
    if x == 0 {
        return push_arrow(out, edge.u, edge.v, number);
    }
    push_arrow(out, edge.v, edge.u, number)
}

/// Adds a line for each edge, by the values of the edges.
pub fn push_orientation(out: &mut Output, graph: &Graph, values: &Values) -> Result<(), AllocError>
    requires { length values.now ≡ length graph.now.edges }
    ensures { OnOk result (out.new ≡ out.old ++ orientation_lines graph.now values.now) }
{
    for i in 0..graph.edges() {
        push_oriented(out, graph.edge(i), i + 1, values.get(i))?;
    }
    Ok(())
}
