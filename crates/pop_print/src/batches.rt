//! The ends of a batch as text.
ghost use Rattle.std.specs.Prelude.{◌≡◌, ◌<◌, ◌≤◌, ◌++◌, ℕ, List, length, take, flat_map, OnOk, IfOk};
ghost use Rattle.std.specs.List.{enumerate_from};
ghost use Rattle.pop_batch.specs.Batches.{IsSampleEnd, AreEnds};
ghost use Rattle.pop_print.specs.Ends.{AreFactsOf};
ghost use Rattle.pop_print.specs.Batches.{numbered_text, batch_text, IsOfPlace, AreOfPlaces};

use crate::Facts;
use crate::full_end::FullEnd;
use crate::line::push_line;
use crate::printing::room_for;
use confluence_core::End;
use pop_batch::Ends;
use pop_instance::Instance;
use pop_text::Output;
use rayon::prelude::*;
use std::alloc::{AllocError, Global};
use std::thread::Threads;

// About how many bytes of text make a separate thread worthwhile.
const WORTH: usize = 1 << 16;

// About how many bytes of text are printed in separate buffers before they are added to the whole.
const BESIDE: usize = 1 << 25;

// Adds the line with the number of sample j, and the end after it.
fn push_numbered(
    alloc: Global,
    out: &mut Output,
    facts: &Facts,
    instance: &Instance,
    j: u32,
    end: &End,
) -> Result<(), AllocError>
    requires facts { AreFactsOf facts.now instance.now }
    requires end { IsSampleEnd instance.now j end.now }
    ensures { OnOk result
        (out.new ≡ out.old ++ numbered_text facts.now instance.now (j, end.now)) }
{
    // Read for its contract, which bounds the units, and so all names, by their type.
    let _units = instance.units();
    push_line(out, b"sample ", u64::from(j))?;
    FullEnd {
        facts,
        instance,
        end,
    }
    .push(alloc, out)
}

// About the number of bytes of the text of this many ends, estimated from one.
fn room_for_all(facts: &Facts, instance: &Instance, count: u32) -> usize {
    let of_one = room_for(facts, instance.stacks().count());
    of_one.saturating_mul(count as usize).saturating_add(32)
}

// How many samples, at least 1, have about this many bytes of text, if one sample has `of_one`.
fn samples_in(bytes: usize, of_one: usize) -> u32
    ensures one { 0 < result }
{
    (bytes / of_one.max(1)).clamp(1, 65536) as u32
}

// The text of sample j with its number, in a buffer of its own.
fn numbered(
    alloc: Global,
    facts: &Facts,
    instance: &Instance,
    ends: &Ends,
    j: u32,
) -> Result<Vec<u8>, AllocError>
    requires facts { AreFactsOf facts.now instance.now }
    requires ends { (count : ℕ) × AreEnds instance.now count ends.now }
    requires known { j < length ends.now }
    ensures { IfOk result (λ text. IsOfPlace facts.now instance.now ends.now j text) }
{
    let mut out = Output::with_room(alloc, room_for_all(facts, instance, 1))?;
    push_numbered(alloc, &mut out, facts, instance, j, ends.at(j))?;
    Ok(out.into_bytes())
}

// The texts of the ends from sample `from` up to, but without, sample `to`. If there are enough
// samples, each text is made by the next free thread.
fn numbered_each<R: Threads + Sync>(
    rt: &R,
    alloc: Global,
    facts: &Facts,
    instance: &Instance,
    ends: &Ends,
    from: u32,
    to: u32,
    least: u32,
) -> Result<Vec<Vec<u8>>, AllocError>
    requires facts { AreFactsOf facts.now instance.now }
    requires ends { (count : ℕ) × AreEnds instance.now count ends.now }
    requires known { to ≤ length ends.now }
    ensures { IfOk result (λ texts. AreOfPlaces facts.now instance.now ends.now from to texts.items) }
{
    (from..to)
        .into_par_iter()
        .with_min_len(least as usize)
        .map(
            |j: u32| -> Result<Vec<u8>, AllocError>
                requires { AreFactsOf facts.now instance.now
                    × ((count : ℕ) × AreEnds instance.now count ends.now) × (j < length ends.now) }
                ensures { IfOk result
                    (λ text. IsOfPlace facts.entry.now instance.entry.now ends.entry.now j text) }
            { numbered(alloc, facts, instance, ends, j) },
        )
        .collect::<Result<Vec<Vec<u8>>, AllocError>>(rt, alloc)?
}

// Adds texts one after another.
fn push_each(out: &mut Output, texts: &[Vec<u8>]) -> Result<(), AllocError>
    ensures { OnOk result (out.new ≡ out.old ++ flat_map (λ text. text.items) texts.now) }
{
    for k in 0..texts.len() {
        out.push(&texts[k])?;
    }
    Ok(())
}

// Adds the texts of the ends from sample `from` up to, but without, sample `to`.
fn push_stretch<R: Threads + Sync>(
    rt: &R,
    alloc: Global,
    out: &mut Output,
    facts: &Facts,
    instance: &Instance,
    ends: &Ends,
    from: u32,
    to: u32,
    least: u32,
) -> Result<(), AllocError>
    requires facts { AreFactsOf facts.now instance.now }
    requires ends { (count : ℕ) × AreEnds instance.now count ends.now }
    requires order { from ≤ to }
    requires known { to ≤ length ends.now }
    ensures { OnOk result ((before : List ℕ) → out.old ≡ before ++ flat_map
        (numbered_text facts.now instance.now) (take from (enumerate_from 0 ends.now))
        → out.new ≡ before ++ flat_map
        (numbered_text facts.now instance.now) (take to (enumerate_from 0 ends.now))) }
{
    let texts = numbered_each(rt, alloc, facts, instance, ends, from, to, least)?;
    push_each(out, &texts)
}

/// The text of the ends of a batch of the instance, in one buffer. It has the line `batch` with
/// the number of ends. For each end there is the line `sample` with its number, from 0. Then the
/// whole end follows, as `text` prints it if no grid was made. A limited number of ends is printed
/// in parallel at a time, so that little memory is used in addition to the whole.
pub fn text_of_batch<R: Threads + Sync>(
    rt: &R,
    alloc: Global,
    facts: &Facts,
    instance: &Instance,
    ends: &Ends,
) -> Result<Vec<u8>, AllocError>
    requires facts { AreFactsOf facts.now instance.now }
    requires ends { (count : ℕ) × AreEnds instance.now count ends.now }
    ensures { IfOk result (λ bytes. bytes.items ≡ batch_text facts.now instance.now ends.now) }
{
    let count = ends.len();
    let of_one = room_for_all(facts, instance, 1);
    let least = samples_in(WORTH, of_one);
    let stretch = samples_in(BESIDE, of_one);
    let mut out = Output::with_room(alloc, room_for_all(facts, instance, count))?;
    push_line(&mut out, b"batch ", u64::from(count))?;
    let mut from = 0;
    while from < count {
        let to = from + stretch.min(count - from);
        push_stretch(rt, alloc, &mut out, facts, instance, ends, from, to, least)?;
        from = to;
    }
    Ok(out.into_bytes())
}

/// The text that `text_of_batch` makes, printed one end after another on the calling thread.
pub fn text_of_batch_alone(
    alloc: Global,
    facts: &Facts,
    instance: &Instance,
    ends: &Ends,
) -> Result<Vec<u8>, AllocError>
    requires facts { AreFactsOf facts.now instance.now }
    requires ends { (count : ℕ) × AreEnds instance.now count ends.now }
    ensures { IfOk result (λ bytes. bytes.items ≡ batch_text facts.now instance.now ends.now) }
{
    let mut out = Output::with_room(alloc, room_for_all(facts, instance, ends.len()))?;
    push_line(&mut out, b"batch ", u64::from(ends.len()))?;
    for j in 0..ends.len() {
        push_numbered(alloc, &mut out, facts, instance, j, ends.at(j))?;
    }
    Ok(out.into_bytes())
}
