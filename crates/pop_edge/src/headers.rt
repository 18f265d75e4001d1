ghost use Rattle.pop_edge.specs.Headers.{CutsHeader};

use crate::{next_word, number};

/// The largest number of variables of a formula and of vertices of a graph: 2^22. A header that
/// declares more passes the limit of kind 2.
pub const MAX_VARIABLES: u32 = 4194304;

/// Reads the four tokens at the start of a header: `p`, the kind of the input and two numbers.
/// Returns the kind, the numbers and the bytes after them, or None if the line is no header.
pub fn next_header(line: &[u8]) -> Option<(&[u8], u32, u32, &[u8])>
    ensures { CutsHeader line.now result }
{
    let (p, rest) = next_word(line)?;
    let (kind, rest) = next_word(rest)?;
    let (n, rest) = next_word(rest)?;
    let (m, rest) = next_word(rest)?;
    if p != b"p".as_slice() {
        return None;
    }
    let first = number(n)?;
    let second = number(m)?;
    Some((kind, first, second, rest))
}
