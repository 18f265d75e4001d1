//! Makes runs on the calling thread.
ghost use Rattle.std.specs.Prelude.{IfOk};
ghost use Rattle.confluence_core.specs.Kept.{keeps_log};
ghost use Rattle.run_makers.specs.Makers.{IsRunTo, MayGoOn, IsBroughtOn};

use crate::maker::Maker;
use crate::opening::Opening;
use crate::stretch::{Stretch, index_of};
use confluence_core::{Indexed, Reached};
use pop_batch::{Ends, batch_alone};
use pop_instance::{Index, Instance};
use pop_print::{Facts, text_of_batch_alone};
use pop_stacks::Reader;
use pop_workers::Outcome;
use prs_rounds::{RoundEnd, run_rounds_alone};
use std::alloc::{AllocError, Global};

/// The maker that uses only the calling thread. It does the work of every crew, without a board
/// and without a gate.
#[derive(Drop)]
pub struct Alone;

// A run from zeros at the last height; the instance is raised to it at once. Its entries do not
// depend on the height, so no result shows that there were no stages.
fn run_alone(opening: Opening) -> Result<(Outcome, Instance), AllocError>
    ensures { IfOk result (IsRunTo opening.growing (keeps_log opening.keep)) }
{
    let Opening {
        alloc,
        crew,
        growing,
        keep,
    } = opening;
    let (instance, at_hand) = growing.raised_with_index();
    let reached = Reached::opening(alloc, &instance, keep)?;
    let run = finish_alone(Stretch {
        alloc,
        crew,
        instance: &instance,
        at_hand,
        reached,
    })?;
    Ok((run, instance))
}

// Continues a run to its end, and returns its result.
fn finish_alone(stretch: Stretch) -> Result<Outcome, AllocError>
    requires { MayGoOn stretch.instance.now stretch.at_hand stretch.reached }
    ensures { IfOk result (IsBroughtOn stretch.entry.instance.now stretch.entry.reached) }
{
    let Stretch {
        alloc,
        instance,
        at_hand,
        reached,
        ..
    } = stretch;
    let index = index_of(alloc, instance, at_hand)?;
    let mut reader = Reader::keeping(alloc, instance.stacks())?;
    Indexed::of(instance, &index).run(alloc, &mut reader, reached)
}

impl Maker for Alone {
    ghost fits = { λ _. Unit {0} };

    fn run(&self, opening: Opening) -> Result<(Outcome, Instance), AllocError> {
        run_alone(opening)
    }

    fn finish(&self, stretch: Stretch) -> Result<Outcome, AllocError> {
        finish_alone(stretch)
    }

    fn batch(&self, alloc: Global, instance: &Instance, count: u32) -> Result<Ends, AllocError> {
        batch_alone(alloc, instance, count)
    }

    fn text_of_batch(
        &self,
        alloc: Global,
        facts: &Facts,
        instance: &Instance,
        ends: &Ends,
    ) -> Result<Vec<u8>, AllocError> {
        text_of_batch_alone(alloc, facts, instance, ends)
    }

    fn rounds(
        &self,
        alloc: Global,
        instance: &Instance,
        index: &Index,
    ) -> Result<RoundEnd, AllocError> {
        run_rounds_alone(alloc, instance, index)
    }
}
