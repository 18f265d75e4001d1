//! Reads certificates line by line.
ghost use Rattle.std.specs.Prelude.{◌≡◌, ◌<◌, ◌++◌, length, IfOk, IfErr, MatchOption};
ghost use Rattle.run_cert.specs.Heads.{height_lines, root_lines, MayBeHeight, MayBeRoot};
ghost use Rattle.run_cert.specs.HeadLines.{IsStart, Reads};
ghost use Rattle.run_cert.specs.Certificates.{IsCertOf};
ghost use Rattle.run_cert.specs.Refusals.{IsCertRefusal};

use crate::head_lines::{command_in, height_in, root_in, size_in, stacks_in};
use crate::printing::has_root;
use crate::{Cert, CertRefusal};
use pop_log::cut_line;
use pop_stacks::StackSpec;
use pop_words::Command;
use std::alloc::Global;

// The height of given rows, which is the default of `--height`.
const GIVEN_HEIGHT: u32 = 1 << 20;

// The command, the stacks, and the bytes after their lines.
fn read_start(alloc: Global, bytes: &[u8]) -> Result<(Command, StackSpec, &[u8]), CertRefusal>
    ensures start { IfOk result (λ r. IsStart bytes.now r.0 r.1 r.2.now) }
    ensures refusal { IfErr result (IsCertRefusal bytes.now) }
{
    let (line, rest) = cut_line(bytes);
    let Some(command) = command_in(line) else {
        return Err(CertRefusal::Malformed(1, 21));
    };
    let (line, rest) = cut_line(rest);
    let Some(stacks) = stacks_in(alloc, line)? else {
        return Err(CertRefusal::Malformed(2, 21));
    };
    Ok((command, stacks, rest))
}

// The height of these stacks, the number of its lines, and the bytes after them.
fn read_height<'b>(stacks: &StackSpec, bytes: &'b [u8]) -> Option<(u32, u8, &'b [u8])>
    ensures { Reads (MayBeHeight stacks.now) (height_lines stacks.now) bytes.now result }
{
    match stacks {
        StackSpec::Key(_) => {
            let (line, rest) = cut_line(bytes);
            let Some(height) = height_in(line) else {
                return None;
            };
            Some((height, 1, rest))
        }
        StackSpec::Given(_) => Some((GIVEN_HEIGHT, 0, bytes)),
    }
}

// The root, if there is one, the number of its lines, and the bytes after them.
fn read_root(rooted: bool, bytes: &[u8]) -> Option<(u32, u8, &[u8])>
    ensures { Reads (MayBeRoot rooted) (root_lines rooted) bytes.now result }
{
    if !rooted {
        return Some((1, 0, bytes));
    }
    let (line, rest) = cut_line(bytes);
    let Some(root) = root_in(line) else {
        return None;
    };
    Some((root, 1, rest))
}

// The first `size` bytes of a text, and those after them.
fn cut_input(text: &[u8], size: u32) -> Option<(&[u8], &[u8])>
    ensures { MatchOption result (length text.now < size)
        (λ r. (text.now ≡ r.0.now ++ r.1.now) × (length r.0.now ≡ size)) }
{
    if text.len() < size as usize {
        return None;
    }
    Some(text.split_at(size as usize))
}

/// Reads a certificate. It accepts exactly the texts of certificates. It copies neither the input
/// nor the text of the log, and does not check that text.
pub fn read_cert(alloc: Global, bytes: &[u8]) -> Result<Cert<'_>, CertRefusal>
    ensures cert { IfOk result (IsCertOf bytes.now) }
    ensures refusal { IfErr result (IsCertRefusal bytes.now) }
{
    let (command, stacks, rest) = read_start(alloc, bytes)?;
    let Some((height, height_lines, rest)) = read_height(&stacks, rest) else {
        return Err(CertRefusal::Malformed(3, 21));
    };
    let Some((root, root_lines, rest)) = read_root(has_root(command), rest) else {
        return Err(CertRefusal::Malformed(3 + u64::from(height_lines), 21));
    };
    let place = 3 + u64::from(height_lines) + u64::from(root_lines);
    let (line, rest) = cut_line(rest);
    let Some(size) = size_in(line) else {
        return Err(CertRefusal::Malformed(place, 21));
    };
    let Some((input, log_text)) = cut_input(rest, size) else {
        return Err(CertRefusal::Malformed(place, 22));
    };
    Ok(Cert {
        command,
        stacks,
        height,
        root,
        input,
        log_text,
    })
}
