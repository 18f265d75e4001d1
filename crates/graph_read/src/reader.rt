ghost use Rattle.std.specs.Prelude.{◌≡◌, ◌<◌, ◌∷◌, ℕ, List, [], length};
ghost use Rattle.pop_edge.specs.Words.{words_of};
ghost use Rattle.graph_read.specs.GraphText.{is_passed_over};
ghost use Rattle.graph_read.specs.Reading.{AddsLine};

use crate::Graph;
use crate::edge_line::read_edge;
use crate::header::read_header;
use pop_edge::{LineReader, ReadRefusal, next_word};
use std::alloc::Global;

const COMMENT: u8 = b'c';

// The largest number of edges of a graph.
const MAX_EDGES: u32 = 8388608;

/// What the lines so far specify.
#[derive(Drop)]
pub struct Reader {
    pub alloc: Global,
    /// The graph so far, after the header was read.
    pub graph: Option<Graph>,
}

impl Reader {
    ghost use Rattle.graph_read.specs.Reading.{Finishes, Knows};

    /// No line was read yet.
    pub fn new(alloc: Global) -> Reader
        ensures { Knows result [] }
    {
        Reader { alloc, graph: None }
    }

    /// The graph of the lines. A missing header is reported at this line.
    pub fn finish(self, line: u64) -> Result<Graph, ReadRefusal>
        ensures { (lines : List (ℕ × List (List ℕ))) → Knows self lines
            → Finishes line lines result }
    {
        self.graph.ok_or(ReadRefusal::Malformed(line, 11))
    }
}

impl LineReader for Reader {
    ghost use Rattle.std.specs.Prelude.{⊤};
    ghost use Rattle.graph_read.specs.GraphText.{graph};
    ghost use Rattle.graph_read.specs.Reading.{Knows};

    ghost judgement = { graph };

    ghost is_sound = { λ _. ⊤ };

    ghost knows = { Knows };

    fn take_line(&mut self, number: u64, line: &[u8]) -> Result<(), ReadRefusal> {
        let Some((word, rest)) = next_word(line) else {
            return Ok(());
        };
        if passes_over(word) {
            return Ok(());
        }
        match &mut self.graph {
            None => {
                let vertices = read_header(number, line)?;
                self.graph = Some(Graph::without_edges(self.alloc, vertices));
                Ok(())
            }
            Some(graph) => add_line(graph, number, word, rest),
        }
    }
}

// Whether a line with this first token is skipped: it is a comment or a descriptor.
fn passes_over(word: &[u8]) -> bool
    requires { 0 < length word.now }
    ensures { (words : List (List ℕ)) → result ≡ is_passed_over (word.now ∷ words) }
{
    word[0] == COMMENT
        || word == b"n".as_slice()
        || word == b"d".as_slice()
        || word == b"v".as_slice()
        || word == b"x".as_slice()
}

// Adds the edge of a line after the header, given as its first token and the bytes after it, or
// rejects the line. Its codes are reported before the limit.
fn add_line(graph: &mut Graph, number: u64, word: &[u8], rest: &[u8]) -> Result<(), ReadRefusal>
    ensures { AddsLine graph.old graph.new number (word.now ∷ words_of rest.now) result }
{
    let edge = read_edge(graph.vertices(), number, word, rest)?;
    if graph.edges() >= MAX_EDGES {
        return Err(ReadRefusal::Limit(5, number));
    }
    graph.push(edge)?;
    Ok(())
}
