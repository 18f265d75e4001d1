ghost use Rattle.std.specs.Prelude.{IfOk};
ghost use Rattle.sink_popping.specs.SinkCubes.{AreLoopMarks};

use graph_read::Graph;
use std::alloc::{AllocError, Global};

/// For each vertex whether it has a self-loop. Vertices count from 1.
pub fn loop_marks(alloc: Global, graph: &Graph) -> Result<Vec<bool>, AllocError>
    ensures { IfOk result (λ marks. AreLoopMarks graph.now marks.items) }
{
    let mut marks = vec![in alloc; false; graph.vertices() as usize + 1]?;
    for i in 0..graph.edges() {
        let edge = graph.edge(i);
        if edge.is_loop() {
            marks[edge.u as usize] = true;
        }
    }
    Ok(marks)
}
