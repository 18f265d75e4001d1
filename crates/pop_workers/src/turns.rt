ghost use Rattle.std.specs.Prelude.{◌≡◌, ◌<◌, IfSome};

use worker_hints::Worker;

/// The units that a worker tries, turn by turn. They are the units with the worker's number as the
/// remainder modulo the number of workers, from the lowest on. The worker repeats them until it
/// popped nothing from the first to the last.
#[derive(Drop)]
pub(crate) struct Turns {
    worker: Worker,
    units: u32,
    next: u32,
    popped: bool,
}

impl Turns {
    /// The turns of this worker, over this many units.
    pub fn of(worker: Worker, units: u32) -> Turns
        ensures { result.units ≡ units }
    {
        Turns {
            worker,
            units,
            next: worker.number,
            popped: false,
        }
    }

    /// The unit of the next turn, or None if the worker ends.
    pub fn next(&mut self) -> Option<u32>
        ensures known { IfSome result (λ unit. unit < self.old.units) }
        ensures units { self.new.units ≡ self.old.units }
    {
        if self.next >= self.units && self.popped {
            self.next = self.worker.number;
            self.popped = false;
        }
        if self.next >= self.units {
            return None;
        }
        let unit = self.next;
        self.next = unit.saturating_add(self.worker.workers);
        Some(unit)
    }

    /// Notes that an event of the unit returned last was popped.
    pub fn note_pop(&mut self)
        ensures { self.new.units ≡ self.old.units }
    {
        self.popped = true;
    }
}
