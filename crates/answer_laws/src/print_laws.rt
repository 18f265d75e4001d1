//! The exact distribution of printed bytes. The contract of each function states a theorem.
ghost use Rattle.answer_laws.specs.PrintedOnce.{AssignmentsApart, OrientationsApart, TreesApart};
ghost use Rattle.answer_laws.specs.PrintedOnce.{EverySpanningTree};
ghost use Rattle.answer_laws.specs.ExactOutputs.{ExactOutputs, ExactRoundOutputs};
ghost use Rattle.answer_laws.specs.ExactOutputs.{ListedOutputs, ListedRoundOutputs};

/// Different samples print different lines, for any text that follows them. The exception is
/// orientations that differ only at self-loops, since the two directions of a self-loop are the
/// same. Edges may be parallel.
pub fn printed_apart()
    ensures assignments { AssignmentsApart }
    ensures orientations { OrientationsApart }
    ensures trees { TreesApart }
{}

/// Each spanning tree of a graph, with its arrows to the root, is given by some slots that lead to
/// the root. So it is a sample (`laws::every_sample`), and its lines are printed.
pub fn every_spanning_tree()
    ensures { EverySpanningTree }
{}

/// Consider all arguments for `formula`, `orient` or `tree` that differ only in their rows. For
/// each input, as many print one sample as another, and the weights of their rows are in the ratio
/// of the samples' weights.
pub fn exact_outputs()
    ensures { ExactOutputs }
{}

/// Consider all arguments for `rounds` that differ only in their rows. As many print one
/// satisfying assignment of the formula as another, whether or not its clauses clash.
pub fn exact_round_outputs()
    ensures { ExactRoundOutputs }
{}

/// The rows of which such words print a sample are finitely many.
pub fn listed_outputs()
    ensures { ListedOutputs }
{}

/// There are finitely many rows for which such arguments for `rounds` print a given satisfying
/// assignment of the formula.
pub fn listed_round_outputs()
    ensures { ListedRoundOutputs }
{}
