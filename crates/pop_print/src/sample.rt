//! The sample, for every kind of input.
ghost use Rattle.std.specs.Prelude.{◌≡◌, ◌++◌, OnOk};
ghost use Rattle.pop_print.specs.Ends.{AreFactsOf, IsPrintable};
ghost use Rattle.pop_print.specs.Output.{sample_lines};

use crate::Facts;
use crate::assignment::push_assignment;
use crate::orientation::push_orientation;
use crate::tree::push_tree;
use confluence_core::End;
use pop_instance::Instance;
use pop_text::Output;
use std::alloc::{AllocError, Global};
use std::snapshot::Snapshot;

/// Adds the lines of the sample, without reading the instance. For a grid that is made there are
/// none, since only a summary is printed.
pub fn push_sample(
    alloc: Global,
    out: &mut Output,
    facts: &Facts,
    of: Snapshot<Instance>,
    end: &End,
) -> Result<(), AllocError>
    requires facts { AreFactsOf facts.now of.value }
    requires end { IsPrintable of.value end.now.cursors end.now.stuck end.now.values }
    ensures { OnOk result (out.new ≡ out.old ++ sample_lines facts.now end.now.values) }
{
    let _ = of;
    match facts {
        Facts::Formula(count) => push_assignment(out, &end.values, *count),
        Facts::Orient(graph) => push_orientation(out, graph, &end.values),
        Facts::Tree(graph, root) => push_tree(alloc, out, graph, *root, &end.values),
        Facts::Made(_) => Ok(()),
    }
}
