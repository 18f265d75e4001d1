ghost use Rattle.std.specs.Prelude.{◌≡◌, ◌<◌, OnOk, OnErr, IfOk, [], length};
ghost use Rattle.pop_model.specs.Stacks.{variables_of};
ghost use Rattle.pop_model.specs.Popping.{AreWithin, Occurs, IsPoppable};
ghost use Rattle.pop_model.specs.Families.{IsEvent, units_of};
ghost use Rattle.pop_model.specs.Families.Family.{Listed as ListedEvents, Cycles as CycleEvents};
ghost use Rattle.pop_model.specs.Runs.{start_of};
ghost use Rattle.pop_stacks.specs.Readers.{Belongs};
ghost use Rattle.lock_board.specs.Books.{IsBook};
ghost use Rattle.lock_board.specs.Attempts.{IsAnswer, IsAnswerOf, PopsEvent};

use crate::cycle_from::cycle_from;
use crate::{Attempt, Site};
use confluence_core::{CurrentArrows, Log, Record};
use pop_instance::{Arrows, Cube, Cursors, Events, Family, Instance};
use pop_stacks::Reader;
use std::alloc::{AllocError, Global};
use std::marker::{Model, PhantomData};

/// The book: the pops of an instance so far, as cursors and a log, which threads share under a
/// lock. Its site gives the instance and the cursors that it starts from.
#[derive(Drop)]
pub struct Book<'i, N: Site> {
    instance: &'i Instance,
    cursors: Cursors,
    log: Log,
    site: PhantomData<N>,
}

impl<'i, N: Site> Model for Book<'i, N> {
    ghost use Rattle.std.specs.Prelude.{◌≡◌};
    ghost use Rattle.lock_board.specs.Books.{Progress, IsBook};

    ghost Value = { Progress };

    ghost view = { λ a. record { cursors = a.cursors; log = a.log } };

    ghost invariant = { λ a. (a.instance.now ≡ N.instance)
        × IsBook N.instance N.start (record { cursors = a.cursors; log = a.log }) };
}

impl<'i, N: Site> Book<'i, N> {
    /// The book before any pop, starting from zeros.
    pub fn new(alloc: Global, instance: &'i Instance) -> Result<Book<'i, N>, AllocError>
        requires site { instance.now ≡ N.instance }
        requires start { N.start ≡ start_of N.instance }
        ensures { IfOk result (λ book. book ≡ record { cursors = N.start; log = [] }) }
    {
        let _units = instance.units();
        let zeros = Cursors::zeros(alloc, instance.stacks().count())?;
        Book::start_at(alloc, instance, &zeros)
    }

    /// The book before any pop, starting from these cursors, which must be below the heights.
    pub fn start_at(
        alloc: Global,
        instance: &'i Instance,
        from: &Cursors,
    ) -> Result<Book<'i, N>, AllocError>
        requires site { instance.now ≡ N.instance }
        requires start { from.now ≡ N.start }
        requires count { variables_of instance.now.stacks ≡ length from.now }
        requires within { AreWithin instance.now.stacks from.now }
        ensures { IfOk result (λ book. book ≡ record { cursors = N.start; log = [] }) }
    {
        Ok(Book {
            instance,
            cursors: from.copy(alloc)?,
            log: Log::new(alloc),
            site: PhantomData,
        })
    }

    /// The cursors after all pops of the log.
    pub fn cursors(&self) -> &Cursors
        ensures cursors { result.now ≡ self.now.cursors }
        ensures book { IsBook N.instance N.start self.now }
    {
        &self.cursors
    }

    /// The records of all pops.
    pub fn log(&self) -> &Log
        ensures log { result.now ≡ self.now.log }
        ensures book { IsBook N.instance N.start self.now }
    {
        &self.log
    }

    /// The cursors and the log. It allocates nothing.
    pub fn into_parts(self) -> (Cursors, Log)
        ensures cursors { result.0 ≡ self.entry.cursors }
        ensures log { result.1 ≡ self.entry.log }
        ensures book { IsBook N.instance N.start self.entry }
    {
        let Book {
            instance: _,
            cursors,
            log,
            site: _,
        } = self;
        (cursors, log)
    }

    /// Pops the event of a unit, if it is poppable. For a listed family that is the event at this
    /// place. For a cycle family it is the cycle that the current arrows reach from this variable.
    /// Every result except `Popped` leaves the book unchanged.
    pub fn attempt(&mut self, alloc: Global, reader: &mut Reader, unit: u32) -> Attempt
        requires known { unit < units_of N.instance.family }
        requires belongs { Belongs N.instance.stacks reader.old }
        ensures answer { IsAnswer N.instance self.old self.new unit result }
        ensures reader { reader.new ≡ reader.old }
    {
        let instance = self.instance;
        match instance.family() {
            Family::Listed(events) => self.attempt_listed(alloc, reader, events, unit),
            Family::Cycles(arrows) => self.attempt_cycle(alloc, reader, arrows, unit),
        }
    }

    // Pops the listed event of a unit, if it is poppable.
    fn attempt_listed(
        &mut self,
        alloc: Global,
        reader: &mut Reader,
        events: &Events,
        unit: u32,
    ) -> Attempt
        requires family { N.instance.family ≡ ListedEvents events.now }
        requires known { unit < units_of N.instance.family }
        requires belongs { Belongs N.instance.stacks reader.old }
        ensures answer { IsAnswer N.instance self.old self.new unit result }
        ensures reader { reader.new ≡ reader.old }
    {
        let _count = events.count();
        let cube = events.cube(unit);
        let _units = self.instance.units();
        if !self.cursors.occurs(self.instance.stacks(), reader, cube) {
            return Attempt::Absent;
        }
        self.attempt_event(alloc, reader, unit, cube)
    }

    // Pops the cycle that the arrows reach from a unit, if it is poppable.
    fn attempt_cycle(
        &mut self,
        alloc: Global,
        reader: &mut Reader,
        arrows: &Arrows,
        unit: u32,
    ) -> Attempt
        requires family { N.instance.family ≡ CycleEvents arrows.now }
        requires known { unit < units_of N.instance.family }
        requires belongs { Belongs N.instance.stacks reader.old }
        ensures answer { IsAnswer N.instance self.old self.new unit result }
        ensures reader { reader.new ≡ reader.old }
    {
        let _units = self.instance.units();
        let current = CurrentArrows::of(self.instance.stacks(), arrows);
        match cycle_from(alloc, &current, reader, &self.cursors, unit) {
            Ok(Some(cube)) => {
                let (least, _) = cube.pair(0);
                self.attempt_event(alloc, reader, least, &cube)
            }
            Ok(None) => Attempt::Absent,
            Err(_) => Attempt::OutOfMemory,
        }
    }

    // Pops an event that occurs, if it is poppable.
    fn attempt_event(
        &mut self,
        alloc: Global,
        reader: &mut Reader,
        unit: u32,
        cube: &Cube,
    ) -> Attempt
        requires event { IsEvent N.instance.family (record { unit = unit; cube = cube.now }) }
        requires occurs { Occurs N.instance.stacks self.old.cursors cube.now }
        requires belongs { Belongs N.instance.stacks reader.old }
        ensures answer { IsAnswerOf N.instance self.old self.new
            (record { unit = unit; cube = cube.now }) result }
        ensures reader { reader.new ≡ reader.old }
    {
        let _units = self.instance.units();
        if !self.cursors.poppable(self.instance.stacks(), reader, cube) {
            return Attempt::Stuck;
        }
        match self.pop(alloc, unit, cube) {
            Ok(()) => Attempt::Popped,
            Err(_) => Attempt::OutOfMemory,
        }
    }

    // Pops a poppable event, and adds its record at the end of the log.
    fn pop(&mut self, alloc: Global, unit: u32, cube: &Cube) -> Result<(), AllocError>
        requires event { IsEvent N.instance.family (record { unit = unit; cube = cube.now }) }
        requires poppable { IsPoppable N.instance.stacks self.old.cursors cube.now }
        ensures popped { OnOk result (PopsEvent N.instance self.old self.new
            (record { unit = unit; cube = cube.now })) }
        ensures kept { OnErr result (self.new ≡ self.old) }
    {
        let _units = self.instance.units();
        let popped = Record::at(alloc, unit, cube, &self.cursors)?;
        self.log.push(popped)?;
        self.cursors.pop(cube);
        Ok(())
    }
}
