ghost use Rattle.std.specs.Prelude.{◌≡◌, ◌<◌, ◌++◌, length, flat_map, All, IfOk, OnOk};
ghost use Rattle.pop_instance.specs.Family.{family_of};
ghost use Rattle.pop_log.specs.LayeredTexts.{layered_head, layered_line, written};
ghost use Rattle.pop_log.specs.PlacedRecords.{placed_of};
ghost use Rattle.pop_log.specs.Printable.{IsPrintable};

use crate::Names;
use crate::placed_record::PlacedRecord;
use crate::printing::{number_of_event, push_entries};
use pop_instance::Family;
use pop_text::Output;
use std::alloc::AllocError;

// About the number of bytes of a line.
const LINE: usize = 48;

// For how many records the room is reserved at a time.
const AHEAD: usize = 32;

// About the number of bytes of the lines of these records. Each record has its layer and its
// number. Each of its pairs has an entry, and a name about as long as that of the first.
fn room_for_lines(placed: &[PlacedRecord]) -> usize {
    let mut room = 0usize;
    for i in 0..placed.len() {
        let cube = placed[i].popped.cube();
        let pairs = cube.len() as usize;
        let (v, _) = cube.pair(0);
        let digits = if v < 10_000 { 4 } else { 7 };
        room = room.saturating_add((pairs + 2) * (digits + 4));
    }
    room
}

// Reserves room for the lines of the next `AHEAD` records, before the first of them. The records
// of a layer are anywhere in memory. If several are read in one loop, the processor fetches them
// together, and not one after another as they are printed.
fn look_ahead(out: &mut Output, placed: &[PlacedRecord], i: usize) -> Result<(), AllocError>
    requires { i < length placed.now }
    ensures { out.new ≡ out.old }
{
    if i % AHEAD != 0 {
        return Ok(());
    }
    let next = &placed[i..];
    out.reserve(room_for_lines(&next[..next.len().min(AHEAD)]))
}

// The line of a record with its layer.
fn push_placed(
    out: &mut Output,
    names: &Names,
    family: &Family,
    placed: &PlacedRecord,
) -> Result<(), AllocError>
    requires { IsPrintable (family_of family.now) placed.now.popped.now.event }
    ensures { OnOk result (out.new ≡ out.old
        ++ layered_line (written names.now (family_of family.now) (placed_of placed.now))) }
{
    out.push(b"pop ")?;
    out.push_number(placed.layer)?;
    out.push_spaced(u64::from(number_of_event(names, family, placed.unit)))?;
    push_entries(out, names, placed.popped)?;
    out.push(b"\n")
}

// The line of each record.
fn push_all_placed(
    out: &mut Output,
    names: &Names,
    family: &Family,
    placed: &[PlacedRecord],
) -> Result<(), AllocError>
    requires { All (λ p. IsPrintable (family_of family.now) p.popped.now.event) placed.now }
    ensures { OnOk result (out.new ≡ out.old
        ++ flat_map (λ p. layered_line (written names.now (family_of family.now) (placed_of p)))
        placed.now) }
{
    for i in 0..placed.len() {
        look_ahead(out, placed, i)?;
        push_placed(out, names, family, &placed[i])?;
    }
    Ok(())
}

/// A text, followed by the first line and the line of each record.
pub(crate) fn text_behind(
    names: &Names,
    family: &Family,
    placed: &[PlacedRecord],
    text: Vec<u8>,
) -> Result<Vec<u8>, AllocError>
    requires { All (λ p. IsPrintable (family_of family.now) p.popped.now.event) placed.now }
    ensures { IfOk result (λ bytes. bytes.items ≡ text.items ++ layered_head (length placed.now)
        ++ flat_map (λ p. layered_line (written names.now (family_of family.now) (placed_of p)))
        placed.now) }
{
    let mut out = Output::behind(text);
    out.reserve(placed.len().saturating_mul(LINE))?;
    out.push(b"log 2 ")?;
    out.push_number(placed.len() as u64)?;
    out.push(b"\n")?;
    push_all_placed(&mut out, names, family, placed)?;
    Ok(out.into_bytes())
}
