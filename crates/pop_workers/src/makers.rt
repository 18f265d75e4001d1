ghost use Rattle.std.specs.Prelude.{◌≡◌, ◌<◌, ◌≤◌, ℕ, Bool, List, length, IfOk, IfSome, OnOk};
ghost use Rattle.std.specs.Option.{is_some};
ghost use Rattle.pop_model.specs.Stacks.{variables_of};
ghost use Rattle.pop_model.specs.Popping.{AreWithin, AreValuesAt};
ghost use Rattle.pop_model.specs.Runs.{IsStuckList};
ghost use Rattle.pop_instance.specs.Index.{IsFamilyIndex};
ghost use Rattle.claim_words.specs.Passes.{instance_of};
ghost use Rattle.confluence_core.specs.Runs.{IsRunOf, ended};
ghost use Rattle.confluence_core.specs.Stretches.{CanGoOn, GoesOn, HasCome, HasEnded, IsReached, IsTold};
ghost use Rattle.pop_workers.specs.AtWork.{IsIdleOn, IsSoleOn, IsAtEnd};
ghost use Rattle.pop_workers.specs.Serving.{Serves};

use crate::book_work::BookWork;
use crate::claimed::left_by;
use crate::lock::Lock;
use crate::tools::Tools;
use crate::words::work_by;
use crate::workers::Workers;
use crate::{Gate, Outcome};
use claim_words::{Board, Pass};
use confluence_core::{Indexed, Reached, Stuck};
use pop_instance::{Cursors, Index, Instance, Values};
use pop_stacks::Reader;
use std::alloc::{AllocError, Global};
use std::marker::{Brand, Model};
use std::mem;
use std::snapshot::Snapshot;
use std::thread::Threads;

/// Who brings runs to their ends. One worker is the caller, after the gate and without a board.
/// Several share a book under a lock, if a call gets one, and otherwise they claim words of a
/// board. What several leave, the calling thread pops. The values at an end are looked up by the
/// readers of all who claimed words, which keep what they saw.
///
/// They were made for an instance, and serve it for the same sample at each height, so also once
/// its stacks are raised. Contracts see that instance.
#[derive(Drop)]
pub struct Makers<'c, R, G> {
    crew: Workers<'c, R, G>,
    index: Option<Index>,
    reader: Reader,
    others: Vec<Reader>,
    made_for: Snapshot<Instance>,
}

impl<'c, R, G> Model for Makers<'c, R, G> {
    ghost use Rattle.std.specs.Prelude.{ℕ, ◌<◌, ◌≤◌, All};
    ghost use Rattle.pop_model.specs.Instances.{Instance as ModelInstance};
    ghost use Rattle.pop_stacks.specs.Readers.{Belongs};
    ghost use Rattle.pop_instance.specs.Index.{IsFamilyIndex};

    ghost Value = { ModelInstance };

    ghost view = { λ a. a.made_for.value };

    ghost invariant = { λ a. (0 < a.crew.workers) × (a.crew.workers ≤ 64)
        × IsFamilyIndex a.made_for.value.family a.index
        × Belongs a.made_for.value.stacks a.reader
        × All (Belongs a.made_for.value.stacks) a.others.items };
}

impl<'c, R, G> Makers<'c, R, G> {
    /// A crew for an instance.
    pub fn of(
        alloc: Global,
        instance: &Instance,
        crew: Workers<'c, R, G>,
    ) -> Result<Makers<'c, R, G>, AllocError>
        requires some { 0 < crew.workers }
        requires most { crew.workers ≤ 64 }
        ensures { IfOk result (λ makers. makers ≡ instance.now) }
    {
        let index = instance.index(alloc)?;
        Makers::with(alloc, instance, index, crew)
    }

    /// The same with the index of the family, which is at hand.
    pub fn with(
        alloc: Global,
        instance: &Instance,
        index: Option<Index>,
        crew: Workers<'c, R, G>,
    ) -> Result<Makers<'c, R, G>, AllocError>
        requires index { IsFamilyIndex instance.now.family index }
        requires some { 0 < crew.workers }
        requires most { crew.workers ≤ 64 }
        ensures { IfOk result (λ makers. makers ≡ instance.now) }
    {
        Ok(Makers {
            crew,
            index,
            reader: Reader::keeping(alloc, instance.stacks())?,
            others: Vec::new(alloc),
            made_for: Snapshot::of(instance),
        })
    }

    // Continues a run to its end on the calling thread, and finds the events that are stuck there.
    fn end(
        &mut self,
        alloc: Global,
        instance: &Instance,
        reached: Reached,
    ) -> Result<(Reached, Stuck), AllocError>
        requires serves { Serves instance.now self.old }
        requires reached { HasCome instance.now reached }
        ensures on { IfOk result (λ stage. GoesOn instance.now reached stage.0) }
        ensures end { IfOk result (λ stage. HasEnded instance.now stage.0 stage.1) }
        ensures made_for { self.new ≡ self.old }
    {
        let over = Indexed::of(instance, &self.index);
        over.finish(alloc, &mut self.reader, reached)
    }

    // Like `end`, after a stretch that the workers made from the state of the run.
    fn end_behind(
        &mut self,
        alloc: Global,
        instance: &Instance,
        reached: Reached,
        more: Reached,
    ) -> Result<(Reached, Stuck), AllocError>
        requires serves { Serves instance.now self.old }
        requires reached { HasCome instance.now reached }
        requires more { IsReached instance.now reached.cursors (is_some reached.log) more }
        ensures on { IfOk result (λ stage. GoesOn instance.now reached stage.0) }
        ensures end { IfOk result (λ stage. HasEnded instance.now stage.0 stage.1) }
        ensures made_for { self.new ≡ self.old }
    {
        let _units = instance.units();
        let joined = reached.join(more)?;
        self.end(alloc, instance, joined)
    }

    /// The result of a run at its state, with the events that are stuck there. The values are read
    /// here.
    pub(crate) fn tell(
        self,
        alloc: Global,
        instance: &Instance,
        end: (Reached, Stuck),
    ) -> Result<Outcome, AllocError>
        requires serves { Serves instance.now self }
        requires can { CanGoOn instance.now end.0 }
        requires stuck { IsStuckList instance.now end.0.cursors end.1 }
        ensures { IfOk result
            (λ run. IsTold instance.now end.0 run × (run.end.stuck ≡ end.1)) }
    {
        let (reached, stuck) = end;
        let values = self.values(alloc, instance, &reached.cursors)?;
        Ok(reached.told(stuck, values))
    }

    // The value of each variable at its cursor. After this the readers are no longer used.
    fn values(
        self,
        alloc: Global,
        instance: &Instance,
        cursors: &Cursors,
    ) -> Result<Values, AllocError>
        requires serves { Serves instance.now self }
        requires count { variables_of instance.now.stacks ≡ length cursors.now }
        requires within { AreWithin instance.now.stacks cursors.now }
        ensures values { IfOk result (AreValuesAt instance.now.stacks cursors.now) }
    {
        let Makers {
            index,
            mut reader,
            others: mut readers,
            ..
        } = self;
        drop(index);
        if readers.is_empty() {
            return Values::at(alloc, instance.stacks(), &mut reader, cursors);
        }
        readers.insert(0, reader)?;
        Values::at_by(alloc, instance.stacks(), &mut readers, cursors)
    }
}

impl<'c, R: Threads + Sync, G: Gate + Sync> Makers<'c, R, G> {
    /// Continues a run to its end, and finds the events that are stuck there. Several workers
    /// claim words.
    pub(crate) fn claimed_stage(
        &mut self,
        alloc: Global,
        instance: &Instance,
        reached: Reached,
    ) -> Result<(Reached, Stuck), AllocError>
        requires serves { Serves instance.now self.old }
        requires reached { HasCome instance.now reached }
        ensures on { IfOk result (λ stage. GoesOn instance.now reached stage.0) }
        ensures end { IfOk result (λ stage. HasEnded instance.now stage.0 stage.1) }
        ensures made_for { self.new ≡ self.old }
    {
        if self.crew.workers == 1 {
            self.crew.gate.at(0, 0);
            return self.end(alloc, instance, reached);
        }
        let more = self.claim(alloc, instance, &reached)?;
        self.end_behind(alloc, instance, reached, more)
    }

    // The state of a run after the workers have popped on a board that starts from it.
    fn claim(
        &mut self,
        alloc: Global,
        instance: &Instance,
        reached: &Reached,
    ) -> Result<Reached, AllocError>
        requires serves { Serves instance.now self.old }
        requires reached { HasCome instance.now reached.now }
        ensures more { IfOk result
            (IsReached instance.now reached.now.cursors (is_some reached.now.log)) }
        ensures made_for { self.new ≡ self.old }
    {
        let _units = instance.units();
        let (from, keep) = (&reached.cursors, reached.keep());
        let (board, mut pass) = Board::start(alloc, instance, from, keep)?;
        self.work_on(alloc, instance, &board, &mut pass)?;
        match board.close(pass) {
            Ok(closed) => left_by(alloc, closed),
            Err((_, _, failed)) => Err(failed),
        }
    }

    // Lets the workers pop on a board to its end. Worker 0 continues with the reader that has the
    // newest cache.
    fn work_on<'i>(
        &mut self,
        alloc: Global,
        instance: &'i Instance,
        board: &Board<'i>,
        pass: &mut Pass,
    ) -> Result<(), AllocError>
        requires serves { Serves instance.now self.old }
        requires board { instance_of board.now ≡ instance.now }
        requires pass { IsSoleOn board.now pass.old }
        ensures pass { IsIdleOn board.now pass.new }
        ensures end { OnOk result (IsAtEnd board.now pass.new) }
        ensures made_for { self.new ≡ self.old }
    {
        let Workers { rt, gate, workers } = self.crew;
        let crew = Workers { rt, gate, workers };
        let reader = mem::replace(&mut self.reader, Reader::new(instance.stacks()));
        let mut tools = Tools::with(alloc, instance, 0, reader)?;
        let (index, lent) = (&self.index, &mut tools);
        let others = work_by::<Brand, R, G>(alloc, crew, board, pass, instance, index, lent);
        let Ok(others) = others else {
            drop(tools);
            return Err(AllocError);
        };
        self.reader = tools.reader;
        self.others = others;
        Ok(())
    }

    /// Continues a run to an end, and finds the events that are stuck there. Several workers share
    /// a book if there is a lock, and claim words otherwise. After an error nothing is left of the
    /// run.
    pub fn stage<L: Lock>(
        &mut self,
        alloc: Global,
        instance: &Instance,
        reached: Reached,
        lock: Option<&L>,
    ) -> Result<(Reached, Stuck), AllocError>
        requires serves { Serves instance.now self.old }
        requires reached { HasCome instance.now reached }
        requires lock { IfSome lock (λ l. L.fits l.now) }
        ensures on { IfOk result (λ stage. GoesOn instance.now reached stage.0) }
        ensures end { IfOk result (λ stage. HasEnded instance.now stage.0 stage.1) }
        ensures made_for { self.new ≡ self.old }
    {
        match lock {
            Some(lock) if self.crew.workers > 1 => {
                let more = lock.work(BookWork {
                    alloc,
                    workers: self.crew.workers,
                    instance,
                    reached: &reached,
                })?;
                self.end_behind(alloc, instance, reached, more)
            }
            _ => self.claimed_stage(alloc, instance, reached),
        }
    }

    /// Continues a run to its end, and returns its result. Several workers share a book if there is
    /// a lock, and claim words otherwise.
    pub fn run<L: Lock>(
        self,
        alloc: Global,
        instance: &Instance,
        reached: Reached,
        lock: Option<&L>,
    ) -> Result<Outcome, AllocError>
        requires serves { Serves instance.now self }
        requires reached { HasCome instance.now reached }
        requires lock { IfSome lock (λ l. L.fits l.now) }
        ensures on { IfOk result (λ run. GoesOn instance.now reached (ended run)) }
        ensures run { (start : List ℕ) → (keeps : Bool) → IsReached instance.now start keeps reached
            → IfOk result (IsRunOf instance.now start keeps) }
    {
        let mut makers = self;
        let Ok(end) = makers.stage(alloc, instance, reached, lock) else {
            drop(makers);
            return Err(AllocError);
        };
        makers.tell(alloc, instance, end)
    }
}
