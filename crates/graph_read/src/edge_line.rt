ghost use Rattle.std.specs.Prelude.{◌≡◌, ◌≤◌, ◌∷◌, codes, IfOk, IfSome, Ok, Option};
ghost use Rattle.std.specs.Option.{option_copied};
ghost use Rattle.pop_edge.specs.Words.{words_of};
ghost use Rattle.graph_read.specs.Graphs.{IsEdge, IsVertex};
ghost use Rattle.graph_read.specs.GraphText.{edge_in, end_in, number_in, weight_in};
ghost use Rattle.graph_read.specs.Reading.{AreEdgeWords, AreWeight, IsFront, in_line};

use crate::Edge;
use pop_edge::{ReadRefusal, next_word, number};

// The largest number of digits that the fast path reads: their value fits 32 bits.
const FEW_DIGITS: usize = 9;

// The number at the start of the bytes, and the bytes after it. The number has few digits, and is
// followed by one space or by the end. If there is no such number, the bytes may still be valid.
fn front_number(bytes: &[u8]) -> Option<(u32, &[u8])>
    ensures { IfSome result (λ front. IsFront bytes.now front.0 front.1.now) }
{
    let end = bytes.len().min(FEW_DIGITS);
    let mut count = 0;
    let mut value: u32 = 0;
    while count < end && b'0' <= bytes[count] && bytes[count] <= b'9' {
        value = value * 10 + u32::from(bytes[count] - b'0');
        count += 1;
    }
    if count == 0 {
        return None;
    }
    if count == bytes.len() {
        return Some((value, &bytes[count..]));
    }
    if bytes[count] != b' ' {
        return None;
    }
    Some((value, &bytes[count + 1..]))
}

// The weight if the bytes are empty or are one such number.
fn plain_weight(bytes: &[u8]) -> Option<u32>
    ensures { IfSome result (AreWeight (words_of bytes.now)) }
{
    if bytes.is_empty() {
        return Some(1);
    }
    let (weight, rest) = front_number(bytes)?;
    if rest.is_empty() { Some(weight) } else { None }
}

// The edge of a line from the bytes after its `e`. They must be two or three numbers of few digits
// with one space between them. Most lines are of this form, and are read in one pass. A line of
// another form may still be valid.
fn plain_edge(vertices: u32, rest: &[u8]) -> Option<Edge>
    ensures edge { IfSome result
        (λ edge. edge_in vertices (codes "e" ∷ words_of rest.now) ≡ Ok edge) }
    ensures joins { IfSome result (IsEdge vertices) }
{
    let (u, rest) = front_number(rest)?;
    let (v, rest) = front_number(rest)?;
    let weight = plain_weight(rest)?;
    if u < 1 || u > vertices || v < 1 || v > vertices || weight == 0 {
        return None;
    }
    Some(Edge { u, v, weight })
}

// The tokens after the `e` of an edge line: its two ends, and the weight if there is one. They are
// given as the first token and the bytes after it.
fn edge_words<'a>(first: &[u8], rest: &'a [u8]) -> Option<(&'a [u8], &'a [u8], Option<&'a [u8]>)>
    ensures { AreEdgeWords (first.now ∷ words_of rest.now) result }
{
    if first != b"e".as_slice() {
        return None;
    }
    let (u, rest) = next_word(rest)?;
    let (v, rest) = next_word(rest)?;
    match next_word(rest) {
        None => Some((u, v, None)),
        Some((weight, rest)) => {
            if next_word(rest).is_some() {
                return None;
            }
            Some((u, v, Some(weight)))
        }
    }
}

fn read_number(line: u64, word: &[u8]) -> Result<u32, ReadRefusal>
    ensures { result ≡ in_line line (number_in word.now) }
{
    number(word).ok_or(ReadRefusal::Malformed(line, 12))
}

// The end of an edge, which must be one of the vertices.
fn read_end(vertices: u32, line: u64, word: &[u8]) -> Result<u32, ReadRefusal>
    ensures end { result ≡ in_line line (end_in vertices word.now) }
    ensures vertex { IfOk result (IsVertex vertices) }
{
    let end = read_number(line, word)?;
    if end < 1 || end > vertices {
        return Err(ReadRefusal::Malformed(line, 13));
    }
    Ok(end)
}

// The weight of an edge, at least 1. It is 1 if there is no token.
fn read_weight(line: u64, word: Option<&[u8]>) -> Result<u32, ReadRefusal>
    ensures weight { result ≡ in_line line (weight_in (option_copied word.entry)) }
    ensures some { IfOk result (λ weight. 1 ≤ weight) }
{
    match word {
        None => Ok(1),
        Some(word) => {
            let weight = read_number(line, word)?;
            if weight == 0 {
                return Err(ReadRefusal::Malformed(line, 14));
            }
            Ok(weight)
        }
    }
}

/// The edge of a line, given as its first token and the bytes after it, or the error of the line.
/// Code 15 is reported first, then the tokens are checked from left to right.
pub fn read_edge(vertices: u32, number: u64, first: &[u8], rest: &[u8]) -> Result<Edge, ReadRefusal>
    ensures edge { result
        ≡ in_line number (edge_in vertices (first.now ∷ words_of rest.now)) }
    ensures joins { IfOk result (IsEdge vertices) }
{
    if first == b"e".as_slice() {
        if let Some(edge) = plain_edge(vertices, rest) {
            return Ok(edge);
        }
    }
    match edge_words(first, rest) {
        None => Err(ReadRefusal::Malformed(number, 15)),
        Some((u, v, weight)) => {
            let u = read_end(vertices, number, u)?;
            let v = read_end(vertices, number, v)?;
            let weight = read_weight(number, weight)?;
            Ok(Edge { u, v, weight })
        }
    }
}
