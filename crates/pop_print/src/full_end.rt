//! An end that is printed in full.
ghost use Rattle.std.specs.Prelude.{◌≡◌, ◌++◌, OnOk};
ghost use Rattle.pop_print.specs.Ends.{AreFactsOf, IsPrintable};
ghost use Rattle.pop_print.specs.Output.{found_lines, used_line, pops_line};

use crate::Facts;
use crate::counts::push_used;
use crate::line::push_line;
use crate::sample::push_sample;
use crate::stuck::push_stuck;
use confluence_core::End;
use pop_instance::Instance;
use pop_text::Output;
use std::alloc::{AllocError, Global};
use std::snapshot::Snapshot;

/// An end, with its instance and what the input says about it.
#[derive(Drop)]
pub(crate) struct FullEnd<'e> {
    pub facts: &'e Facts,
    pub instance: &'e Instance,
    pub end: &'e End,
}

impl<'e> FullEnd<'e> {
    // Adds the result: the sample, or the events that occur.
    fn push_found(&self, alloc: Global, out: &mut Output) -> Result<(), AllocError>
        requires facts { AreFactsOf self.now.facts.now self.now.instance.now }
        requires end { IsPrintable self.now.instance.now self.now.end.now.cursors
            self.now.end.now.stuck self.now.end.now.values }
        ensures { OnOk result (out.new ≡ out.old ++ found_lines self.now.facts.now
            self.now.instance.now.family self.now.end.now.values self.now.end.now.stuck) }
    {
        if self.end.stuck.len() == 0 {
            out.push(b"s SAMPLE\n")?;
            push_sample(
                alloc,
                out,
                self.facts,
                Snapshot::of(self.instance),
                self.end,
            )
        } else {
            out.push(b"s EXHAUSTED\n")?;
            push_stuck(out, self.facts, self.instance.family(), &self.end.stuck)
        }
    }

    /// Adds the text of the end: the result, the cursors, the number of pops. The entries of the
    /// instance are not read, since the end has the values.
    pub fn push(&self, alloc: Global, out: &mut Output) -> Result<(), AllocError>
        requires facts { AreFactsOf self.now.facts.now self.now.instance.now }
        requires end { IsPrintable self.now.instance.now self.now.end.now.cursors
            self.now.end.now.stuck self.now.end.now.values }
        ensures { OnOk result (out.new ≡ out.old ++ (found_lines self.now.facts.now
            self.now.instance.now.family self.now.end.now.values self.now.end.now.stuck
            ++ used_line self.now.end.now.cursors ++ pops_line self.now.end.now.pops)) }
    {
        self.push_found(alloc, out)?;
        push_used(out, &self.end.cursors, self.instance.stacks().count())?;
        push_line(out, b"pops ", self.end.pops)
    }
}
