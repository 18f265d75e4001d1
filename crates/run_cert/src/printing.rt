//! Prints certificates.
ghost use Rattle.std.specs.Prelude.{◌≡◌, ◌<◌, ◌^◌, ◌++◌, length, decimal, IfOk, OnOk};
ghost use Rattle.std.specs.List.{concat};
ghost use Rattle.pop_model.specs.Text.{line};
ghost use Rattle.run_cert.specs.Heads.{command_line, has_root as has_root_of, head_lines, height_lines, root_lines, stacks_line};
ghost use Rattle.run_cert.specs.Certificates.{cert_of, cert_text, head_of, height_said, root_said};

use crate::rows_text::push_rows;
use pop_stacks::StackSpec;
use pop_text::Output;
use pop_words::{Command, Job};
use std::alloc::{AllocError, Global};

// The room for a head without rows.
const HEAD_ROOM: usize = 256;

/// Whether the head of a command has a root.
pub(crate) fn has_root(command: Command) -> bool
    ensures { result ≡ has_root_of command }
{
    command == Command::Tree
}

// A label and a number on a line.
fn push_labeled(out: &mut Output, label: &[u8], number: u64) -> Result<(), AllocError>
    ensures { OnOk result (out.new ≡ out.old ++ line (label.now ++ decimal number)) }
{
    out.push(label)?;
    out.push_number(number)?;
    out.push(b"\n")
}

// The line of a command.
fn push_command(out: &mut Output, command: Command) -> Result<(), AllocError>
    ensures { OnOk result (out.new ≡ out.old ++ command_line command) }
{
    out.push(b"cert 1 ")?;
    out.push(command.word().as_bytes())?;
    out.push(b"\n")
}

// The line of stacks.
fn push_stacks(alloc: Global, out: &mut Output, stacks: &StackSpec) -> Result<(), AllocError>
    ensures { OnOk result (out.new ≡ out.old ++ stacks_line stacks.now) }
{
    match stacks {
        StackSpec::Key(key) => {
            let digits = hex::encode(alloc, key)?;
            out.push(b"key ")?;
            out.push(digits.as_bytes())?;
            out.push(b"\n")
        }
        StackSpec::Given(rows) => {
            out.push(b"stacks")?;
            push_rows(out, rows)?;
            out.push(b"\n")
        }
    }
}

// The line of the height of these stacks, if they have one.
fn push_height(out: &mut Output, stacks: &StackSpec, height: u32) -> Result<(), AllocError>
    ensures { OnOk result (out.new
        ≡ out.old ++ concat (height_lines stacks.now (height_said stacks.now height))) }
{
    match stacks {
        StackSpec::Key(_) => push_labeled(out, b"height ", u64::from(height)),
        StackSpec::Given(_) => Ok(()),
    }
}

// The line of the root, if there is one.
fn push_root(out: &mut Output, rooted: bool, root: u32) -> Result<(), AllocError>
    ensures { OnOk result (out.new
        ≡ out.old ++ concat (root_lines rooted (root_said rooted root))) }
{
    if rooted {
        push_labeled(out, b"root ", u64::from(root))?;
    }
    Ok(())
}

// The head of a job, for this many bytes of input.
fn head_text(alloc: Global, job: &Job, size: u64) -> Result<Vec<u8>, AllocError>
    ensures { IfOk result (λ head. head.items ≡ concat (head_lines (head_of job.now size))) }
{
    let mut out = Output::with_room(alloc, HEAD_ROOM)?;
    push_command(&mut out, job.command)?;
    push_stacks(alloc, &mut out, &job.stacks)?;
    push_height(&mut out, &job.stacks, job.height)?;
    push_root(&mut out, has_root(job.command), job.root)?;
    push_labeled(&mut out, b"input ", size)?;
    Ok(out.into_bytes())
}

/// The text of a certificate. It has the job's command, stacks, height and root, then the input,
/// which has fewer than 2^32 bytes, and then the text of the log.
pub fn print_cert(
    alloc: Global,
    job: &Job,
    input: &[u8],
    log_text: &[u8],
) -> Result<Vec<u8>, AllocError>
    requires short { length input.now < 2 ^ 32 }
    ensures text { IfOk result (λ bytes.
        bytes.items ≡ cert_text (cert_of job.now input.now log_text.now)) }
{
    let head = head_text(alloc, job, input.len() as u64)?;
    let room = head.len().saturating_add(input.len());
    let mut out = Output::with_room(alloc, room.saturating_add(log_text.len()))?;
    out.push(&head)?;
    out.push(input)?;
    out.push(log_text)?;
    Ok(out.into_bytes())
}
