//! Graphs, read from input based on the DIMACS graph format or made as grids; the edges at each
//! vertex; the first vertex that is not connected to a root. Contracts see a graph as its number
//! of vertices and its edges, whether these are stored or computed from the side of a grid.
#![tactic(auto)]

mod adjacency;
mod edge;
mod edge_line;
mod end_rows;
mod ends;
mod graph;
mod grid;
mod grid_adjacency;
mod header;
mod incidence;
pub mod laws;
mod neighbours;
mod other_ends;
mod picks;
mod put;
mod read;
mod reader;
mod row_range;
mod search;
mod vertices;

pub use adjacency::Adjacency;
pub use edge::Edge;
pub use ends::{EndsFault, graph_of_ends};
pub use graph::Graph;
pub use grid_adjacency::Grid;
pub use incidence::Incidence;
pub use neighbours::put_grid_neighbours;
pub use other_ends::OtherEnds;
pub use picks::edges_at_places;
pub use read::read_graph;
pub use search::first_cut_off;
pub use vertices::vertex_of;
