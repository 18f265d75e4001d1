//! Makes runs by closures.
use crate::maker::Maker;
use crate::opening::Opening;
use crate::stages::Stages;
use crate::stretch::Stretch;
use confluence_core::Reached;
use pop_batch::{Ends, batch};
use pop_instance::{Index, Instance};
use pop_print::{Facts, text_of_batch};
use pop_workers::Outcome;
use prs_rounds::{RoundEnd, run_rounds};
use std::alloc::{AllocError, Global};
use std::thread::Threads;

/// A maker with a runtime, whose threads make batches and rounds, and with closures that make a
/// run in stages or continue one to its end. Inside a trait method `G: Sync` is not available, so
/// the gate cannot be shared with other threads there. A closure written at a place with this
/// bound can capture the gate.
#[derive(Drop)]
pub struct By<'r, 'a, 'b, R, A, B> {
    pub rt: &'r R,
    pub stages: &'a A,
    pub finish: &'b B,
}

impl<
    'r,
    'a,
    'b,
    R: Threads + Sync,
    A: Fn(Stages) -> Result<(Outcome, Instance), AllocError>,
    B: Fn(Stretch) -> Result<Outcome, AllocError>,
> Maker for By<'r, 'a, 'b, R, A, B> {
    ghost use Rattle.std.specs.Prelude.{IfOk};
    ghost use Rattle.std.specs.Thread.{IsSync};
    ghost use Rattle.run_makers.specs.Makers.{MayGrow, IsRunInStages, MayGoOn, IsBroughtOn};

    // Threads may share the runtime, and the closures may be called and keep the contracts.
    ghost fits = { λ by. IsSync R.row
        × ((s : _) → MayGrow s → A.pre by.stages.now s)
        × ((s r : _) → A.post by.stages.now s r → IfOk r (IsRunInStages s))
        × ((s : _) → MayGoOn s.instance.now s.at_hand s.reached → B.pre by.finish.now s)
        × ((s r : _) → B.post by.finish.now s r
        → IfOk r (IsBroughtOn s.instance.now s.reached)) };

    // If the instance grows, its run is made in stages, which build their own indexes.
    fn run(&self, opening: Opening) -> Result<(Outcome, Instance), AllocError> {
        let Opening {
            alloc,
            crew,
            growing,
            keep,
        } = opening;
        let (instance, last, at_hand) = growing.into_parts();
        if let Some(last) = last {
            drop(at_hand);
            return (self.stages)(Stages {
                alloc,
                crew,
                instance,
                last,
                keep,
            });
        }
        let reached = Reached::opening(alloc, &instance, keep)?;
        let run = (self.finish)(Stretch {
            alloc,
            crew,
            instance: &instance,
            at_hand,
            reached,
        })?;
        Ok((run, instance))
    }

    fn finish(&self, stretch: Stretch) -> Result<Outcome, AllocError> {
        (self.finish)(stretch)
    }

    // Each sample is run on one thread, in parallel with others.
    fn batch(&self, alloc: Global, instance: &Instance, count: u32) -> Result<Ends, AllocError> {
        batch(self.rt, alloc, instance, count)
    }

    // Each end is printed on one thread, in parallel with others.
    fn text_of_batch(
        &self,
        alloc: Global,
        facts: &Facts,
        instance: &Instance,
        ends: &Ends,
    ) -> Result<Vec<u8>, AllocError> {
        text_of_batch(self.rt, alloc, facts, instance, ends)
    }

    // The rounds judge events in parallel.
    fn rounds(
        &self,
        alloc: Global,
        instance: &Instance,
        index: &Index,
    ) -> Result<RoundEnd, AllocError> {
        run_rounds(self.rt, alloc, instance, index)
    }
}
