//! The trait of makers of runs.
ghost use Rattle.std.specs.Prelude.{◌≡◌, ℕ, length, IfOk};
ghost use Rattle.pop_model.specs.Stacks.{IsKeyed, variables_of};
ghost use Rattle.pop_model.specs.Extremal.{IsExtremal};
ghost use Rattle.confluence_core.specs.Kept.{keeps_log};
ghost use Rattle.pop_batch.specs.Batches.{AreEnds};
ghost use Rattle.prs_rounds.specs.Rounds.{IsRoundsEnd};
ghost use Rattle.prs_rounds.specs.Units.{IsIndexOf};
ghost use Rattle.pop_print.specs.Ends.{AreFactsOf};
ghost use Rattle.pop_print.specs.Batches.{batch_text};
ghost use Rattle.pop_print.specs.Rounds.{IsShownAt};
ghost use Rattle.run_makers.specs.Makers.{IsRunTo, MayGoOn, IsBroughtOn};

use crate::opening::Opening;
use crate::stretch::Stretch;
use pop_batch::Ends;
use pop_instance::{Index, Instance};
use pop_print::Facts;
use pop_workers::Outcome;
use prs_rounds::RoundEnd;
use std::alloc::{AllocError, Global};

/// Makes runs, on the threads that it has.
pub trait Maker {
    // What must be known of a maker before it is called.
    ghost fits: { Self → Type 0 };

    /// A run from zeros to an end at the last height, and the instance at that height.
    fn run(&self, opening: Opening) -> Result<(Outcome, Instance), AllocError>
        requires fits { fits self.now }
        ensures { IfOk result (IsRunTo opening.growing (keeps_log opening.keep)) };

    /// Continues a run to its end, and returns its result.
    fn finish(&self, stretch: Stretch) -> Result<Outcome, AllocError>
        requires fits { fits self.now }
        requires may { MayGoOn stretch.instance.now stretch.at_hand stretch.reached }
        ensures { IfOk result
            (IsBroughtOn stretch.entry.instance.now stretch.entry.reached) };

    /// The ends of this many samples of the instance under a key. Each is run on one thread.
    fn batch(&self, alloc: Global, instance: &Instance, count: u32) -> Result<Ends, AllocError>
        requires fits { fits self.now }
        requires keyed { IsKeyed instance.now.stacks.origin }
        requires extremal { IsExtremal instance.now.family }
        ensures { IfOk result (AreEnds instance.now count) };

    /// The text of the ends of a batch.
    fn text_of_batch(
        &self,
        alloc: Global,
        facts: &Facts,
        instance: &Instance,
        ends: &Ends,
    ) -> Result<Vec<u8>, AllocError>
        requires fits { fits self.now }
        requires facts { AreFactsOf facts.now instance.now }
        requires ends { (count : ℕ) × AreEnds instance.now count ends.now }
        ensures { IfOk result (λ bytes. bytes.items
            ≡ batch_text facts.now instance.now ends.now) };

    /// The run of the instance by rounds, with the index of its listed events.
    fn rounds(
        &self,
        alloc: Global,
        instance: &Instance,
        index: &Index,
    ) -> Result<RoundEnd, AllocError>
        requires fits { fits self.now }
        requires index { IsIndexOf instance.now.family index.now }
        requires variables { length index.now ≡ variables_of instance.now.stacks }
        ensures end { IfOk result
            (λ end. IsRoundsEnd instance.now end.cursors end.rounds end.stuck end.short) }
        ensures shown { IfOk result (λ end. IsShownAt instance.now end.cursors end.stuck
            end.values.items) };
}
