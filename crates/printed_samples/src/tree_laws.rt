//! Theorems about printed trees. The contract of each function states one.
ghost use Rattle.printed_samples.specs.TreeLaws.{PrintedLeads, TreeSpans, PrintedCycles, TreeShown, MadeShown, SoundSlots};

/// If no cycle of the arrows occurs, they are a spanning tree and lead to the root.
pub fn printed_leads()
    ensures { PrintedLeads }
{}

/// The edges of a tree's arrows join each vertex to the root, and there is one fewer than there
/// are vertices.
pub fn tree_spans()
    ensures { TreeSpans }
{}

/// If cycles of the arrows occur, the printed numbers are the vertices of each cycle.
pub fn printed_cycles()
    ensures { PrintedCycles }
{}

/// The text of an end of a graph's cycles shows a spanning tree, or the cycles that occur.
pub fn tree_shown()
    ensures { TreeShown }
{}

/// The text of an end of a grid that is made shows the sum over a spanning tree, or the number of
/// cycles that occur.
pub fn made_shown()
    ensures { MadeShown }
{}

/// In stacks without a fault each value of a variable selects an edge at its vertex.
pub fn sound_slots()
    ensures { SoundSlots }
{}
