//! Hints: units at which an event may be poppable. Each worker has a deque of hints. If it is
//! empty, the worker steals from the deques of the others. If it met another worker in its last
//! turn, it takes another hint first. If a hint is lost, no event is lost.
ghost use Rattle.std.specs.Prelude.{◌≡◌, ℕ, ◌+◌, ◌*◌, ◌/◌, All, ◌<◌, ◌≤◌, IfSome, length};

use crate::Worker;
use crossbeam_deque::protocol::{Outcome, Protocol};
use crossbeam_deque::{Steal, Stealer, Worker as Deque};
use std::alloc::{AllocError, Global};
use std::marker::{Brand, PhantomData};

/// The number of units, chosen by the function that makes the deques.
pub trait Range {
    ghost units: { ℕ };
}

impl Range for Brand {
    ghost units = { 0 };
}

/// The rule of the deques: they hold only units.
pub struct AreUnits<W> {
    range: PhantomData<W>,
}

impl<W: Range> Protocol<u32, ()> for AreUnits<W> {
    ghost holds = { λ items _. All (λ unit. unit < W.units) items };

    ghost first = { tt };

    ghost guest = { tt };
}

impl<W: Range> Outcome<u32, ()> for AreUnits<W> {
    ghost then = { λ _ items _. All (λ unit. unit < W.units) items };
}

/// The hints of a worker. It takes the last one from its deque first.
pub type Own<W> = Deque<u32, Global, (), AreUnits<W>>;

/// The deque of a worker, as the others see it.
pub type Other<W> = Stealer<u32, Global, (), AreUnits<W>>;

// How often a worker tries again to steal from a deque that others steal from at the same time.
const MOST_LOOKS: u32 = 64;

/// The first hints of a worker: one block of all units. It takes the lowest first.
pub fn deal<W: Range>(alloc: Global, worker: Worker, units: u32) -> Result<Own<W>, AllocError>
    requires range { units ≡ W.units }
    requires worker { worker.number < worker.workers }
{
    let first = block_start(worker.number, worker.workers, units);
    let end = block_start(worker.number + 1, worker.workers, units);
    let mut own = Deque::lifo_as(alloc, (end - first) as usize)?;
    for unit in (first..end).rev() {
        give(&mut own, unit);
    }
    Ok(own)
}

/// Adds a hint, which its worker takes next. If memory runs out, the hint is lost.
pub fn give<W: Range>(own: &mut Own<W>, unit: u32)
    requires { unit < W.units }
{
    let _ = own.push_as::<AreUnits<W>>(unit);
}

/// Adds hints, one after another.
pub fn give_all<W: Range>(own: &mut Own<W>, units: &[u32])
    requires { All (λ unit. unit < W.units) units.now }
{
    for unit in units {
        give(own, *unit);
    }
}

/// The next hint of a worker: the last one in its own deque, or otherwise one that it steals. None
/// if all deques were empty.
///
/// `met` is the hint of the last turn if the worker met another worker in it; this hint is in no
/// deque. In that case the next hint is the first one in its own deque, or otherwise one that it
/// steals. After that `met` is added to its deque. If there is no other hint, `met` itself is
/// returned.
pub fn next<W: Range>(
    own: &mut Own<W>,
    all: &[Other<W>],
    worker: u32,
    met: Option<u32>,
) -> Option<u32>
    requires worker { worker < length all.now }
    requires met { IfSome met (λ unit. unit < W.units) }
    ensures { IfSome result (λ unit. unit < W.units) }
{
    let Some(unit) = met else {
        let last = own.pop_as::<AreUnits<W>>();
        return or_stolen(last, all, worker);
    };
    let first = steal_from(&all[worker as usize]);
    let other = or_stolen(first, all, worker);
    if other.is_none() {
        return met;
    }
    give(own, unit);
    other
}

// This hint, or otherwise the first one of the deque of another worker. The search starts with the
// worker after this one.
fn or_stolen<W: Range>(hint: Option<u32>, all: &[Other<W>], worker: u32) -> Option<u32>
    requires worker { worker < length all.now }
    requires hint { IfSome hint (λ unit. unit < W.units) }
    ensures { IfSome result (λ unit. unit < W.units) }
{
    if hint.is_some() {
        return hint;
    }
    let place = worker as usize;
    match steal(&all[place + 1..]) {
        Some(unit) => Some(unit),
        None => steal(&all[..place]),
    }
}

// The start of the block of a worker, if all units are divided into `workers` blocks as evenly as
// possible.
fn block_start(number: u32, workers: u32, units: u32) -> u32
    requires some { 0 < workers }
    requires number { number ≤ workers }
    ensures start { result ≡ number * units / workers }
    ensures within { result ≤ units }
{
    (number as u64 * units as u64 / workers as u64) as u32
}

// A hint of the first deque that has one.
fn steal<W: Range>(others: &[Other<W>]) -> Option<u32>
    ensures { IfSome result (λ unit. unit < W.units) }
{
    for other in others {
        let stolen = steal_from(other);
        if stolen.is_some() {
            return stolen;
        }
    }
    None
}

// A hint of a deque. None if it was empty, or if others were always faster.
fn steal_from<W: Range>(other: &Other<W>) -> Option<u32>
    ensures { IfSome result (λ unit. unit < W.units) }
{
    let mut pass = other.pass();
    for _ in 0..MOST_LOOKS {
        match other.steal_as::<AreUnits<W>>(&mut pass) {
            Steal::Success(unit) => return Some(unit),
            Steal::Empty => return None,
            Steal::Retry => {}
        }
    }
    None
}
