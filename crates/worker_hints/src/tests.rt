//! Tests which hint is next.
ghost use Rattle.std.specs.Prelude.{◌≡◌, ◌<◌, length, IfOk, IfSome};
ghost use Rattle.std.specs.Bool.{OnTrue};

use crate::{Other, Own, Range, Worker, deal, next};
use std::alloc::{AllocError, Global};
use std::marker::Brand;
use std::process::Abort;
use std::test::Fail;

// The first hints of one of two workers, of four units.
fn hints_of<W: Range>(alloc: Global, number: u32) -> Result<Own<W>, AllocError>
    requires range { W.units ≡ 4 }
    requires worker { number < 2 }
{
    deal(alloc, Worker { number, workers: 2 }, 4)
}

// The hint of a meeting, if there was one, and the next hint. Worked by hand. The worker starts
// with 0 and 1, the other one with 2 and 3, and the first hint of each deque is its largest. After
// each meeting another hint is next, as long as there is one, and then the hint of the meeting.
static NEXT: [(Option<u32>, Option<u32>); 9] = [
    (None, Some(0)),
    (Some(0), Some(1)),
    (None, Some(0)),
    (Some(0), Some(3)),
    (Some(3), Some(0)),
    (None, Some(3)),
    (None, Some(2)),
    (Some(2), Some(2)),
    (None, None),
];

// Whether a meeting, if there was one, was at one of four units.
fn is_known(met: Option<u32>) -> bool
    ensures { OnTrue result (IfSome met (λ unit. unit < 4)) }
{
    match met {
        Some(unit) => unit < 4,
        None => true,
    }
}

// Compares a hint with the expected one.
fn same_hint(rt: &impl Abort, found: Option<u32>, want: Option<u32>, place: u64) {
    assert_eq!(rt; found, want, "hint {place}");
}

// Takes the hints of the table in turn.
fn takes_in_turn<W: Range>(rt: &impl Abort, own: &mut Own<W>, all: &[Other<W>])
    requires range { W.units ≡ 4 }
    requires workers { length all.now ≡ 2 }
{
    for (i, (met, want)) in NEXT.iter().enumerate() {
        let known = is_known(*met);
        assert!(rt; known);
        same_hint(rt, next(own, all, 0, *met), *want, i as u64);
    }
}

// Two deques, for the two workers to steal from.
fn for_both<W: Range>(
    alloc: Global,
    own: &Own<W>,
    other: &Own<W>,
) -> Result<Vec<Other<W>>, AllocError>
    ensures { IfOk result (λ all. length all.items ≡ 2) }
{
    let mut all = Vec::with_capacity(alloc, 2)?;
    all.push_reserved(own.stealer()?);
    all.push_reserved(other.stealer()?);
    Ok(all)
}

// Takes the hints of two workers, for the chosen number of units.
fn takes_of_two<W: Range>(rt: &impl Abort, alloc: Global) -> Result<(), Fail>
    requires range { W.units ≡ 4 }
{
    let mut own: Own<W> = hints_of(alloc, 0)?;
    let other: Own<W> = hints_of(alloc, 1)?;
    let all = for_both(alloc, &own, &other)?;
    takes_in_turn(rt, &mut own, &all);
    Ok(())
}

#[test]
fn behind_a_meeting_another_hint_comes(rt: HostRuntime) -> Result<(), Fail> {
    takes_of_two::<Brand>(&rt, rt.alloc())
}
