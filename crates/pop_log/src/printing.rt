ghost use Rattle.std.specs.Prelude.{◌≡◌, ◌<◌, ◌^◌, ◌++◌, map, flat_map, All, IfOk, OnOk};
ghost use Rattle.std.specs.List.{zip as zip_lists};
ghost use Rattle.pop_model.specs.Text.{spaced};
ghost use Rattle.pop_model.specs.Popping.{NamesBelow, variables};
ghost use Rattle.pop_model.specs.Families.{units_of};
ghost use Rattle.pop_model.specs.Logs.{IsLegal};
ghost use Rattle.pop_model.specs.Runs.{start_of};
ghost use Rattle.pop_instance.specs.Family.{family_of};
ghost use Rattle.pop_log.specs.LogTexts.{log_text, record_line};
ghost use Rattle.pop_log.specs.Printable.{IsPrintable};
ghost use Rattle.pop_log.specs.Printed.{joined, name_of, number_of, printed};

use crate::Names;
use confluence_core::{Log, Record};
use itoa::Buffer;
use pop_instance::{Family, Instance};
use pop_text::Output;
use std::alloc::{AllocError, Global};

/// The printed number of an event, by its unit. A listed event has its own number, and a cycle has
/// the name of its lowest variable.
pub fn number_of_event(names: &Names, family: &Family, unit: u32) -> u32
    requires known { unit < units_of (family_of family.now) }
    ensures { result ≡ number_of names.now (family_of family.now) unit }
{
    match family {
        Family::Listed(events) => events.number(unit),
        Family::Cycles(arrows) => {
            // Read for its contract, which says that each variable has a name.
            let _count = arrows.count();
            names.name(unit)
        }
    }
}

/// The name of each variable of a record, with the entry that its pop used.
pub(crate) fn push_entries(
    out: &mut Output,
    names: &Names,
    popped: &Record,
) -> Result<(), AllocError>
    requires { NamesBelow popped.now.event.cube (2 ^ 31) }
    ensures { OnOk result (out.new ≡ out.old ++ spaced (map (joined 58) (zip_lists
        (map (name_of names.now) (variables popped.now.event.cube)) popped.now.entries))) }
{
    let cube = popped.cube();
    for i in 0..cube.len() {
        let (v, _) = cube.pair(i);
        out.push_pair(u64::from(names.name(v)), b':', u64::from(popped.entry(i)))?;
    }
    Ok(())
}

// The line of a record.
fn push_record(
    out: &mut Output,
    names: &Names,
    family: &Family,
    popped: &Record,
) -> Result<(), AllocError>
    requires { IsPrintable (family_of family.now) popped.now.event }
    ensures { OnOk result (out.new
        ≡ out.old ++ record_line (printed names.now (family_of family.now) popped.now)) }
{
    out.push(b"pop ")?;
    out.push_number(u64::from(number_of_event(names, family, popped.unit())))?;
    push_entries(out, names, popped)?;
    out.push(b"\n")
}

// The line of each record.
fn push_records(
    out: &mut Output,
    names: &Names,
    family: &Family,
    log: &Log,
) -> Result<(), AllocError>
    requires { All (λ r. IsPrintable (family_of family.now) r.event) log.now }
    ensures { OnOk result (out.new ≡ out.old
        ++ flat_map (λ r. record_line (printed names.now (family_of family.now) r)) log.now) }
{
    for t in 0..log.len() {
        push_record(out, names, family, log.at(t))?;
    }
    Ok(())
}

// About the number of bytes of the text. Each record has its number. Each of its pairs has a name
// and an entry, usually of one or two digits.
fn room_for(count: u32, log: &Log) -> usize {
    let digits = Buffer::new().format(count).len();
    let mut room = 32usize;
    for t in 0..log.len() {
        let pairs = log.at(t).cube().len() as usize;
        room = room.saturating_add((pairs + 2) * (digits + 4));
    }
    room
}

/// The text of a legal log. Its first line is `log 1 P` with the number of records. Each record
/// has a line `pop E V:K V:K ..` with the number of its event. For each variable, in rising order,
/// it has the name and the entry that the pop used.
pub fn print_log(
    alloc: Global,
    instance: &Instance,
    names: &Names,
    log: &Log,
) -> Result<Vec<u8>, AllocError>
    requires { IsLegal instance.now (start_of instance.now) log.now }
    ensures { IfOk result (λ bytes. bytes.items ≡ log_text names.now instance.now log.now) }
{
    // Read for its contract, which says that the events fit the stacks, and so have names.
    let _units = instance.units();
    let mut out = Output::with_room(alloc, room_for(instance.stacks().count(), log))?;
    out.push(b"log 1 ")?;
    out.push_number(log.len())?;
    out.push(b"\n")?;
    push_records(&mut out, names, instance.family(), log)?;
    Ok(out.into_bytes())
}
