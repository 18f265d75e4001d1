ghost use Rattle.std.specs.Prelude.{◌≡◌, ◌≤◌, ◌+◌, true, IfErr, IfNone, IfOk, IfSome, OnOk, None, Some, Err};
ghost use Rattle.std.specs.Io.KnownBytes.{IsAtEnd};
ghost use Rattle.pop_model.specs.Faults.{Rose};
ghost use Rattle.pop_edge.specs.declared.refusal.ReadRefusal.TheVariants.{ReadFault};
ghost use Rattle.pop_edge.specs.Lines.{text_limit};

use crate::splitter::Splitter;
use crate::{Next, ReadRefusal, Source};
use std::alloc::{AllocError, Global};
use std::marker::Model;

/// The lines of a source, one after another. Every call must be given the same source.
#[derive(Drop)]
pub struct Lines {
    splitter: Splitter,
    // The error of an earlier call.
    kept: Option<ReadRefusal>,
}

impl Model for Lines {
    ghost use Rattle.pop_edge.specs.LineState.{LineState};
    ghost use Rattle.pop_edge.specs.Splitting.{IsSplitter, rest_of};

    ghost Value = { LineState };

    ghost view = { λ l. record {
      rest = rest_of l.splitter;
      line = l.splitter.line.items;
      number = l.splitter.number;
      taken = l.splitter.taken;
      ended = l.splitter.ended;
      kept = l.kept;
    } };

    ghost invariant = { λ l. IsSplitter l.splitter };
}

impl Lines {
    ghost use Rattle.pop_edge.specs.LineState.{IsNext, Repeats, fresh, opening};
    ghost use Rattle.pop_edge.specs.NeededReads.{ReadsAsNeeded};

    /// No line was read yet. Allocates the memory for one read.
    pub fn new(alloc: Global) -> Result<Lines, AllocError>
        ensures { IfOk result (λ lines. lines ≡ opening) }
    {
        Ok(Lines {
            splitter: Splitter::new(alloc)?,
            kept: None,
        })
    }

    /// The line returned last, without its line end. It is empty before the first line.
    pub fn line(&self) -> &[u8]
        ensures { result.now ≡ self.now.line }
    {
        &self.splitter.line
    }

    /// The number of the line returned last, from 1, or 0 before the first line.
    pub fn number(&self) -> u64
        ensures { result ≡ self.now.number }
    {
        self.splitter.number
    }

    /// Returns the next line, `Next::End` after the last one, or an error. It reads only while no
    /// whole line is at hand, and never after a read that returned 0 bytes or failed.
    ///
    /// Errors: `Limit(1, line)` after all lines before the one with the first byte past the limit;
    /// `ReadFault` if the source failed and no whole line is at hand. After an error each call
    /// returns the same error and reads nothing.
    pub fn next<S: Source>(&mut self, source: &mut S) -> Result<Next, ReadRefusal>
        ensures kept { IfSome self.old.kept (λ refusal.
            Repeats self.old self.new (S.left source.old) (S.left source.new) result refusal) }
        ensures unread { IfSome self.old.kept (λ _. source.new ≡ source.old) }
        ensures next { IfNone self.old.kept
            (IsNext self.old (fresh self.new) (S.left source.old) (S.left source.new) result) }
        ensures reads { IfNone self.old.kept (ReadsAsNeeded S.read_gives self.old (fresh self.new)
            (S.left source.old) (S.left source.new) source.old source.new result) }
        ensures keeps { IfErr result (λ refusal. self.new.kept ≡ Some refusal) }
        ensures goes_on { OnOk result (self.new.kept ≡ None) }

        ensures at_end { (self.old.ended ≡ true → IsAtEnd (S.left source.old))
            → self.new.ended ≡ true → IsAtEnd (S.left source.new) }
        ensures bound { self.new.number ≤ text_limit + 4096 }

        ensures later { S.faults source.old ≤ S.faults source.new }
        ensures fault { IfNone self.old.kept
            (result ≡ Err ReadFault → Rose (S.faults source.old) (S.faults source.new)) }
    {
        if let Some(refusal) = self.kept {
            return Err(refusal);
        }
        let result = self.splitter.next(source);
        if let Err(refusal) = result {
            self.kept = Some(refusal);
        }
        result
    }
}
