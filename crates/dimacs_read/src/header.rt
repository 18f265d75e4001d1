ghost use Rattle.pop_edge.specs.Words.{words_of};
ghost use Rattle.dimacs_read.specs.Reading.{IsCounts, IsFirstByte, IsHeader};

use pop_edge::{MAX_VARIABLES, ReadRefusal, next_header, next_word};

// The largest number of clauses that a header may declare.
const MAX_CLAUSES: u32 = 4194304;

/// The numbers that a header declares.
#[derive(Clone, Copy, Debug, PartialEq, Eq)]
pub struct Header {
    pub variables: u32,
    pub clauses: u32,
}

/// The first byte of a line that is not white space, if there is one.
pub fn first_byte(line: &[u8]) -> Option<u8>
    ensures { IsFirstByte (words_of line.now) result }
{
    match next_word(line) {
        None => None,
        Some((word, _rest)) => Some(word[0]),
    }
}

// The two numbers of the first four tokens, and the bytes after them.
fn counts(line: &[u8]) -> Option<(u32, u32, &[u8])>
    ensures { IsCounts (words_of line.now) result }
{
    let (kind, variables, clauses, rest) = next_header(line)?;
    if kind != b"cnf".as_slice() {
        return None;
    }
    Some((variables, clauses, rest))
}

/// The header of a line, or its error: code 1, then code 4, then limit 2, then limit 3.
pub fn read_header(number: u64, line: &[u8]) -> Result<Header, ReadRefusal>
    ensures { IsHeader number (words_of line.now) result }
{
    match counts(line) {
        None => Err(ReadRefusal::Malformed(number, 1)),
        Some((variables, clauses, rest)) => {
            if next_word(rest).is_some() {
                return Err(ReadRefusal::Malformed(number, 4));
            }
            if variables > MAX_VARIABLES {
                return Err(ReadRefusal::Limit(2, number));
            }
            if clauses > MAX_CLAUSES {
                return Err(ReadRefusal::Limit(3, number));
            }
            Ok(Header { variables, clauses })
        }
    }
}
