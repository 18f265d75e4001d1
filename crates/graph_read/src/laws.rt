//! Theorems about the grammar, paths and grids. Each is the contract of a function without
//! arguments.
ghost use Rattle.graph_read.specs.Laws.{AcceptsExactly, GridConnected, HasOneGraph, JoinedBothWays};

/// An input is accepted exactly if it is in the grammar. Then its graph is the one that the
/// grammar assigns to it.
pub fn accepts_exactly()
    ensures { AcceptsExactly }
{}

/// An input denotes at most one graph.
pub fn one_graph()
    ensures { HasOneGraph }
{}

/// If a path joins u to v, a path joins v to u.
pub fn joined_both_ways()
    ensures { JoinedBothWays }
{}

/// In a grid of 1 to 2048 rows and columns a path joins each vertex to vertex 1.
pub fn grid_connected()
    ensures { GridConnected }
{}
