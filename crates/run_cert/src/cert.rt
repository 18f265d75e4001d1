ghost use Rattle.std.specs.Prelude.{◌≡◌};

use pop_stacks::StackSpec;
use pop_words::Command;
use std::marker::Model;

/// A certificate that was read. It borrows its input and the text of its log from the bytes that
/// were read. Contracts see its head, its input and the text of its log.
#[derive(Drop)]
pub struct Cert<'b> {
    pub(crate) command: Command,
    pub(crate) stacks: StackSpec,
    pub(crate) height: u32,
    pub(crate) root: u32,
    pub(crate) input: &'b [u8],
    pub(crate) log_text: &'b [u8],
}

impl<'b> Model for Cert<'b> {
    ghost use Rattle.std.specs.Prelude.{length};
    ghost use Rattle.run_cert.specs.Certificates.{Certificate};

    ghost Value = { Certificate };

    ghost view = { λ a. record {
      head = record {
        command = a.command;
        stacks = a.stacks;
        height = a.height;
        root = a.root;
        size = length a.input.now;
      };
      input = a.input.now;
      log_text = a.log_text.now;
    } };
}

impl<'b> Cert<'b> {
    /// The command: `formula`, `orient`, `tree` or `resample`.
    pub fn command(&self) -> Command
        ensures { result ≡ self.now.head.command }
    {
        self.command
    }

    /// The source of the stack entries.
    pub fn spec(&self) -> &StackSpec
        ensures { result.now ≡ self.now.head.stacks }
    {
        &self.stacks
    }

    /// The number of entries of each keyed stack, from 1 to 2^31 - 1. It is 2^20 if rows are
    /// given.
    pub fn height(&self) -> u32
        ensures { result ≡ self.now.head.height }
    {
        self.height
    }

    /// The root of a tree, from 1 to 2^32 - 1. It is 1 for any other command.
    pub fn root(&self) -> u32
        ensures { result ≡ self.now.head.root }
    {
        self.root
    }

    /// The bytes of the input, fewer than 2^32.
    pub fn input(&self) -> &'b [u8]
        ensures { result.now ≡ self.now.input }
    {
        self.input
    }

    /// The bytes after the input, which should be the text of a log.
    pub fn log_text(&self) -> &'b [u8]
        ensures { result.now ≡ self.now.log_text }
    {
        self.log_text
    }
}
