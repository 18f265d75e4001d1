//! Theorems about witness trees. The contract of each function states one.
ghost use Rattle.witness_trees.specs.Laws.{LevelsApart, OnePop, OneTree, SameTree, SiblingsDiffer, SwapKeepsTree};

/// Vertices of the same depth share no variable.
pub fn levels_apart()
    ensures { LevelsApart }
{}

/// No two children of a vertex have the same label.
pub fn siblings_differ()
    ensures { SiblingsDiffer }
{}

/// A record of a log has at most one witness tree.
pub fn one_tree()
    ensures { OneTree }
{}

/// If two neighbours of a log that share no variable are swapped, no record changes its tree.
pub fn swap_keeps_tree()
    ensures { SwapKeepsTree }
{}

/// At most one pop of a legal log uses a given entry of a variable.
pub fn one_pop()
    ensures { OnePop }
{}

/// On an extremal instance the pop of an entry of a variable has the same tree in every run to an
/// end.
pub fn same_tree()
    ensures { SameTree }
{}
