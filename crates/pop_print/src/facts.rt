ghost use Rattle.std.specs.Prelude.{◌≡◌, ◌<◌, ◌^◌, ◌↔◌, IsTrue};
ghost use Rattle.pop_print.specs.Ends.{IsToldInFull};
ghost use Rattle.pop_print.specs.Names.{name_of};

use graph_read::{Graph, vertex_of};

/// What the input says about an instance.
#[derive(Drop)]
pub enum Facts {
    /// A formula with this many variables.
    Formula(u32),
    /// The orientations of a graph. Its edges are the variables.
    Orient(Graph),
    /// The spanning trees of a graph with this root. Its other vertices are the variables.
    Tree(Graph, u32),
    /// The spanning trees of the square grid of this side, from 1 to 2048, with vertex 1 as the
    /// root.
    Made(u32),
}

impl Facts {
    /// Whether ends are printed in full. For a grid that is made only a summary is printed.
    pub fn are_told_in_full(&self) -> bool
        ensures { IsTrue result ↔ IsToldInFull self.now }
    {
        match self {
            Facts::Formula(_) | Facts::Orient(_) | Facts::Tree(_, _) => true,
            Facts::Made(_) => false,
        }
    }

    /// The printed name of a variable below 2^31: its number from 1, the number of the edge, or
    /// the vertex.
    pub fn name(&self, v: u32) -> u32
        requires { v < 2 ^ 31 }
        ensures { result ≡ name_of self.now v }
    {
        match self {
            Facts::Formula(_) | Facts::Orient(_) => v + 1,
            Facts::Tree(_, root) => vertex_of(*root, v),
            Facts::Made(_) => vertex_of(1, v),
        }
    }
}
