//! Theorems about the samples of graphs. The contract of each function states one.

ghost use Rattle.spanning_samples.specs.Converse.{OrientationsAlone, TreesAlone};
ghost use Rattle.spanning_samples.specs.SpanningSets.{OneTreeEach, EachIsTree, TreeWeights};
ghost use Rattle.spanning_samples.specs.DrawnTrees.{DrawnTrees, WantedTrees};

/// The samples of the sinks of a graph without isolated vertices are exactly its sink-free
/// orientations.
pub fn orientations_alone()
    ensures { OrientationsAlone }
{}

/// The samples of the cycles of a connected graph are exactly the choices of arrows that lead to
/// the root.
pub fn trees_alone()
    ensures { TreesAlone }
{}

/// A spanning tree is a set of edges that join all vertices and are one fewer than these. Each
/// spanning tree has exactly one choice of arrows to the root, for every root.
pub fn one_tree_each()
    ensures { OneTreeEach }
{}

/// Arrows that lead to the root go along the edges of a spanning tree.
pub fn each_is_tree()
    ensures { EachIsTree }
{}

/// The weight of arrows that lead to the root is the product of the weights of the edges of their
/// tree, for every root.
pub fn tree_weights()
    ensures { TreeWeights }
{}

/// Consider all tables of numbers with runs that end with a spanning tree of a connected graph.
/// The fraction of them for a given tree, as a set of edges, is its weight over the sum of the
/// weights of all spanning trees. The weight of a tree is the product of the weights of its edges.
/// This holds for every root. It is exact if the weights at each vertex sum to a number that
/// divides 2^64, and otherwise holds nearly.
pub fn drawn_trees()
    ensures { DrawnTrees }
{}

/// The theorem of `drawn_trees` holds for the tables with runs that have an accepted log, for any
/// condition on the log. An example of a condition is at most a given number of pops.
pub fn wanted_trees()
    ensures { WantedTrees }
{}
