//! Random multigraphs, and what is drawn for each.
ghost use Rattle.std.specs.Prelude.{◌<◌, ◌^◌};

use std::alloc::Global;
use std::process::Abort;
use test_instances::below;

// The ends of edge i, from 0. The first edges join vertex i + 2 to a lower vertex, so that each
// vertex is connected to vertex 1. The ends of the others are any vertices.
fn ends(state: &mut u64, vertices: u32, i: u32) -> (u32, u32)
    requires { 0 < vertices }
{
    if i < vertices - 1 {
        (i + 2, 1 + below(state, i + 1))
    } else {
        (1 + below(state, vertices), 1 + below(state, vertices))
    }
}

// Adds edge i, with a weight from 1 to 5.
fn push_edge(rt: &impl Abort, text: &mut String, state: &mut u64, vertices: u32, i: u32)
    requires some { 0 < vertices }
    requires few { vertices < 1000 }
{
    let (u, v) = ends(state, vertices, i);
    let weight = 1 + below(state, 5);
    write!(text, "e {u} {v} {weight}\n").expect(rt, "memory");
}

/// The input of a connected graph with this many vertices, with edges of weights 1 to 5.
pub fn connected(rt: &impl Abort, alloc: Global, state: &mut u64, vertices: u32) -> String
    requires some { 0 < vertices }
    requires few { vertices < 1000 }
{
    let edges = vertices - 1 + below(state, 2 * vertices);
    let head = format!(in alloc; "p edge {vertices} {edges}\n");
    let mut text = head.expect(rt, "memory");
    for i in 0..edges {
        push_edge(rt, &mut text, state, vertices, i);
    }
    text
}

/// What is drawn for a case: the root, the byte of its key, and the height.
#[derive(Clone, Copy)]
pub struct Draw {
    pub root: u32,
    pub key: u8,
    pub height: u32,
}

/// Draws the root, the key and the height of graph i.
pub fn drawn(state: &mut u64, vertices: u32, i: u32) -> Draw
    requires some { 0 < vertices }
    requires few { vertices < 1000 }
    ensures height { 0 < result.height }
    ensures short { result.height < 2 ^ 31 }
{
    let root = 1 + below(state, vertices);
    let key = below(state, 256) as u8;
    let height = if i % 5 == 0 { 5000 } else { i % 5 };
    Draw { root, key, height }
}
