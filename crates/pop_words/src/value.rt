// Reads the values of options from arguments.
ghost use Rattle.std.specs.Prelude.{◌≡◌, ◌&&◌, IfOk, Option, option_map, vec_items};
ghost use Rattle.pop_words.specs.Values.{number_between as number_between_of, key_in as key_of, board_in as board_of, switch_in as switch_of, row_in as row_of, rows_in as rows_of, pair_in as pair_of, reports_in as reports_of, only_if, fits_in};

use crate::{BoardKind, Reports};
use hex::FromHex;
use pop_edge::number;
use pop_stacks::Rows;
use std::alloc::{AllocError, Global};

// The largest number of rows, and the largest number of entries in all rows together.
const MAX_ROWS: usize = 1 << 22;

const MAX_NUMBERS: usize = 1 << 20;

/// A number from `low` to `high`.
pub fn number_between(low: u32, high: u32, word: &[u8]) -> Option<u32>
    ensures { result ≡ number_between_of low high word.now }
{
    number(word).filter(|n| low <= *n && *n <= high)
}

/// The 32 bytes that 64 hexadecimal digits denote.
pub fn key_in(word: &[u8]) -> Option<[u8; 32]>
    ensures { result ≡ key_of word.now }
{
    <[u8; 32] as FromHex>::from_hex(word).ok()
}

/// The board with this name.
pub fn board_in(word: &[u8]) -> Option<BoardKind>
    ensures { result ≡ board_of word.now }
{
    if word == "lock".as_bytes() {
        Some(BoardKind::Lock)
    } else if word == "words".as_bytes() {
        Some(BoardKind::Words)
    } else {
        None
    }
}

/// Whether something is on: `on` is true, `off` is false.
pub fn switch_in(word: &[u8]) -> Option<bool>
    ensures { result ≡ switch_of word.now }
{
    if word == "on".as_bytes() {
        Some(true)
    } else if word == "off".as_bytes() {
        Some(false)
    } else {
        None
    }
}

// A row of at most `room` numbers.
fn row_in(alloc: Global, word: &[u8], room: usize) -> Result<Option<Vec<u32>>, AllocError>
    ensures { IfOk result (λ row.
        option_map vec_items row ≡ only_if (fits_in room) (row_of word.now)) }
{
    let mut row = Vec::new(alloc);
    if word.is_empty() {
        return Ok(Some(row));
    }
    for part in word.split(|b| *b == b',') {
        let Some(n) = number(part) else {
            return Ok(None);
        };
        if row.len() >= room {
            return Ok(None);
        }
        row.push(n)?;
    }
    Ok(Some(row))
}

/// Rows joined by `;`. An empty argument has no row. Reading stops at the first part that is
/// invalid or exceeds a limit.
pub fn rows_in(alloc: Global, word: &[u8]) -> Result<Option<Rows>, AllocError>
    ensures { IfOk result (λ rows. rows ≡ rows_of word.now) }
{
    let mut rows = Vec::new(alloc);
    if word.is_empty() {
        return Ok(Some(Rows::of(rows)));
    }
    let mut room = MAX_NUMBERS;
    for part in word.split(|b| *b == b';') {
        let Some(row) = row_in(alloc, part, room)? else {
            return Ok(None);
        };
        if rows.len() >= MAX_ROWS {
            return Ok(None);
        }
        room -= row.len();
        rows.push(row)?;
    }
    Ok(Some(Rows::of(rows)))
}

/// Two numbers joined by `,`.
pub fn pair_in(alloc: Global, word: &[u8]) -> Result<Option<(u32, u32)>, AllocError>
    ensures { IfOk result (λ pair. pair ≡ pair_of word.now) }
{
    let Some(numbers) = row_in(alloc, word, 2)? else {
        return Ok(None);
    };
    if numbers.len() != 2 {
        return Ok(None);
    }
    Ok(Some((numbers[0], numbers[1])))
}

/// Names of reports joined by `,`, each at most once.
pub fn reports_in(word: &[u8]) -> Option<Reports>
    ensures { result ≡ reports_of word.now }
{
    let mut reports = Reports::none();
    for part in word.split(|b| *b == b',') {
        if part == "totals".as_bytes() && !reports.totals {
            reports.totals = true;
        } else if part == "heights".as_bytes() && !reports.heights {
            reports.heights = true;
        } else if part == "layers".as_bytes() && !reports.layers {
            reports.layers = true;
        } else {
            return None;
        }
    }
    Some(reports)
}
