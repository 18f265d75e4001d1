ghost use Rattle.std.specs.Prelude.{◌≡◌, ◌≤◌, ◌^◌, IfOk};
ghost use Rattle.pop_edge.specs.Words.{words_of};
ghost use Rattle.graph_read.specs.GraphText.{declared};
ghost use Rattle.graph_read.specs.Reading.{IsHeader};

use pop_edge::{MAX_VARIABLES, ReadRefusal, next_header, next_word};

// The number of vertices that a header declares, if the line is a header.
fn vertices_of(line: &[u8]) -> Option<u32>
    ensures { result ≡ declared (words_of line.now) }
{
    let (kind, vertices, _edges, rest) = next_header(line)?;
    if kind != b"edge".as_slice() && kind != b"col".as_slice() {
        return None;
    }
    if next_word(rest).is_some() {
        return None;
    }
    Some(vertices)
}

/// The number of vertices that the header of a line declares, or its error: code 11, then limit 2.
pub fn read_header(number: u64, line: &[u8]) -> Result<u32, ReadRefusal>
    ensures header { IsHeader number (words_of line.now) result }
    ensures bound { IfOk result (λ n. n ≤ 2 ^ 22) }
{
    match vertices_of(line) {
        None => Err(ReadRefusal::Malformed(number, 11)),
        Some(vertices) => {
            if vertices > MAX_VARIABLES {
                return Err(ReadRefusal::Limit(2, number));
            }
            Ok(vertices)
        }
    }
}
