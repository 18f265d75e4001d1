/// An edge of a graph: the two vertices that it joins, which count from 1, and its weight, which
/// is at least 1. An edge that joins a vertex to itself is a self-loop.
#[derive(Clone, Copy, Debug, PartialEq, Eq)]
pub struct Edge {
    pub u: u32,
    pub v: u32,
    pub weight: u32,
}

impl Edge {
    ghost use Rattle.std.specs.Prelude.{◌≡◌};
    ghost use Rattle.graph_read.specs.Incidence.{is_loop, other_end};

    /// Whether it is a self-loop.
    pub fn is_loop(self) -> bool
        ensures { result ≡ is_loop self }
    {
        self.u == self.v
    }

    /// The end that is not this vertex. For a self-loop it is the vertex itself.
    pub fn other_end(self, vertex: u32) -> u32
        ensures { result ≡ other_end self vertex }
    {
        if self.u == vertex { self.v } else { self.u }
    }
}
