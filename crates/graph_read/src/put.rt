ghost use Rattle.std.specs.Prelude.{◌≡◌, ◌<◌, ◌^◌};
ghost use Rattle.graph_read.specs.Incidence.{dart_at};

use crate::Edge;

/// The number that an edge adds to the rows of its two ends, unless it is a self-loop.
#[derive(Clone, Copy)]
pub enum Put {
    /// Its dart at that end: twice the edge's number, counted from 0, plus 1 at its end u.
    Dart,
    /// Its other end.
    OtherEnd,
    /// Its weight.
    Weight,
}

impl Put {
    ghost use Rattle.std.specs.Prelude.{◌≡◌, ◌<◌, ◌^◌};
    ghost use Rattle.graph_read.specs.Incidence.{put_of};

    /// The number that edge i adds to the row of one of its ends.
    pub fn of(self, i: u32, edge: Edge, vertex: u32) -> u32
        requires { i < 2 ^ 31 }
        ensures { result ≡ put_of self i edge vertex }
    {
        match self {
            Put::Dart => dart_at(i, edge, vertex),
            Put::OtherEnd => edge.other_end(vertex),
            Put::Weight => edge.weight,
        }
    }
}

// The dart of edge i at one of its ends.
fn dart_at(i: u32, edge: Edge, vertex: u32) -> u32
    requires { i < 2 ^ 31 }
    ensures { result ≡ dart_at i edge vertex }
{
    if edge.v == vertex { 2 * i } else { 2 * i + 1 }
}
