//! Reads the lines of a head. A line is parsed leniently and then printed again, and it is
//! accepted only if the two are equal.
ghost use Rattle.std.specs.Prelude.{◌≡◌, ◌<◌, ◌≤◌, ◌++◌, ◌↔◌, ℕ, List, drop, true, decimal, Contains, IfOk, IsTrue, MatchOption};
ghost use Rattle.std.specs.List.{find};
ghost use Rattle.std.specs.Str.{bytes_eq};
ghost use Rattle.pop_model.specs.Text.{line as line_of};
ghost use Rattle.hex.specs.Hex.{encode_lower};
ghost use Rattle.pop_stacks.specs.declared.stack_spec.StackSpec.TheVariants.{Key, Given};
ghost use Rattle.pop_words.specs.Options.{command_word, paused};
ghost use Rattle.run_cert.specs.Heads.{command_line, height_line, input_line, root_line, rows_text, stacks_line, IsHeight, MayBeRoot, MayBeSize, MayBeStacks};
ghost use Rattle.run_cert.specs.HeadLines.{Says};

use crate::rows_text::push_rows;
use pop_log::number;
use pop_stacks::{Rows, StackSpec};
use pop_text::Output;
use pop_words::{Command, key_in, rows_in};
use std::alloc::{AllocError, Global};

// The commands that a certificate may have.
const PAUSED: [Command; 4] = [
    Command::Formula,
    Command::Orient,
    Command::Tree,
    Command::Resample,
];

// The bytes between a label at the start of a line and the line end.
fn behind<'a>(label: &[u8], line: &'a [u8]) -> Option<&'a [u8]>
    ensures { MatchOption result ((body : List ℕ) → line.now ≡ line_of (label.now ++ body) → ⊥)
        (λ body. line.now ≡ line_of (label.now ++ body.now)) }
{
    let Some(rest) = line.strip_prefix(label) else {
        return None;
    };
    rest.strip_suffix(b"\n")
}

fn is_between(n: u64, low: u32, high: u32) -> bool
    ensures { IsTrue result ↔ ((low ≤ n) × (n ≤ high)) }
{
    u64::from(low) <= n && n <= u64::from(high)
}

// The number after a label, if it is from `low` to `high`.
fn labeled(label: &[u8], line: &[u8], low: u32, high: u32) -> Option<u32>
    ensures { Says (λ n. (low ≤ n) × (n ≤ high)) (λ n. line_of (label.now ++ decimal n))
        line.now result }
{
    let Some(digits) = behind(label, line) else {
        return None;
    };
    let Some(n) = number(digits) else {
        return None;
    };
    if !is_between(n, low, high) {
        return None;
    }
    Some(n as u32)
}

/// The height that a line states.
pub(crate) fn height_in(line: &[u8]) -> Option<u32>
    ensures { Says IsHeight height_line line.now result }
{
    labeled(b"height ", line, 1, (1 << 31) - 1)
}

/// The root of a tree that a line states.
pub(crate) fn root_in(line: &[u8]) -> Option<u32>
    ensures { Says (MayBeRoot true) root_line line.now result }
{
    labeled(b"root ", line, 1, u32::MAX)
}

/// The number of bytes of input that a line states.
pub(crate) fn size_in(line: &[u8]) -> Option<u32>
    ensures { Says MayBeSize input_line line.now result }
{
    labeled(b"input ", line, 0, u32::MAX)
}

// The command with this name, if a certificate may have it.
fn paused_named(word: &[u8]) -> Option<Command>
    ensures { result ≡ find (λ command. bytes_eq (command_word command) word.now) paused }
{
    PAUSED
        .iter()
        .find(|command| command.word().as_bytes() == word)
        .copied()
}

/// The command that the first line states.
pub(crate) fn command_in(line: &[u8]) -> Option<Command>
    ensures { Says (Contains paused) command_line line.now result }
{
    let Some(word) = behind(b"cert 1 ", line) else {
        return None;
    };
    paused_named(word)
}

fn are_same(a: &[u8], b: &[u8]) -> bool
    ensures { IsTrue result ↔ (a.now ≡ b.now) }
{
    a == b
}

// The key that these digits denote.
fn key_of(alloc: Global, digits: &[u8]) -> Result<Option<[u8; 32]>, AllocError>
    ensures { IfOk result (Says (λ key. MayBeStacks (Key key)) encode_lower digits.now) }
{
    let Some(key) = key_in(digits) else {
        return Ok(None);
    };
    let again = hex::encode(alloc, &key)?;
    if !are_same(again.as_bytes(), digits) {
        return Ok(None);
    }
    Ok(Some(key))
}

// The bytes after the first one.
fn behind_first(text: &[u8]) -> &[u8]
    ensures { result.now ≡ drop 1 text.now }
{
    if text.is_empty() {
        return text;
    }
    &text[1..]
}

// The rows that this text denotes, if it is their printed form.
fn rows_of(alloc: Global, text: &[u8]) -> Result<Option<Rows>, AllocError>
    ensures { IfOk result (Says (λ rows. MayBeStacks (Given rows)) rows_text text.now) }
{
    let Some(rows) = rows_in(alloc, behind_first(text))? else {
        return Ok(None);
    };
    let mut out = Output::with_room(alloc, text.len())?;
    push_rows(&mut out, &rows)?;
    let again = out.into_bytes();
    if !are_same(&again, text) {
        return Ok(None);
    }
    Ok(Some(rows))
}

/// The stacks that a line states.
pub(crate) fn stacks_in(alloc: Global, line: &[u8]) -> Result<Option<StackSpec>, AllocError>
    ensures { IfOk result (Says MayBeStacks stacks_line line.now) }
{
    if let Some(digits) = behind(b"key ", line) {
        let key = key_of(alloc, digits)?;
        return Ok(key.map(StackSpec::Key));
    }
    let Some(text) = behind(b"stacks", line) else {
        return Ok(None);
    };
    let rows = rows_of(alloc, text)?;
    Ok(rows.map(StackSpec::Given))
}
