ghost use Rattle.std.specs.Prelude.{◌≡◌, ◌++◌, map, All, IfOk};
ghost use Rattle.pop_model.specs.Popping.{NamesBelow};
ghost use Rattle.pop_model.specs.Logs.{IsLegal};
ghost use Rattle.pop_model.specs.Runs.{start_of};
ghost use Rattle.pop_log.specs.Layered.{AreSorted, IsLayered};
ghost use Rattle.pop_log.specs.LayeredTexts.{IsLayeredText};

use crate::Names;
use crate::layered_printing::text_behind;
use crate::placed_record::PlacedRecord;
use crate::sorting::sorted;
use confluence_core::{Log, Record};
use pop_instance::Instance;
use std::alloc::{AllocError, Global};
use std::marker::Model;

/// The records of a log in its layered order (the Foata normal form: Cartier and Foata 1969), each
/// with its layer. They are sorted by layer, then by unit, then by their order in the log. They
/// are borrowed from the log and not copied. Contracts see a list of records with their layers.
#[derive(Drop)]
pub struct LayeredLog<'l> {
    placed: Vec<PlacedRecord<'l>>,
}

impl<'l> Model for LayeredLog<'l> {
    ghost use Rattle.std.specs.Prelude.{List, map};
    ghost use Rattle.pop_log.specs.Layers.{Placed};
    ghost use Rattle.pop_log.specs.PlacedRecords.{placed_of};

    ghost Value = { List Placed };

    ghost view = { λ a. map placed_of a.placed.items };
}

impl<'l> LayeredLog<'l> {
    ghost use Rattle.pop_log.specs.LayeredTexts.{placed_text};

    /// The layered order of a log. All variables are below the count. In addition to the time for
    /// the layers, it takes time n log n for n records.
    pub fn of(alloc: Global, count: u32, log: &'l Log) -> Result<LayeredLog<'l>, AllocError>
        requires { All (λ r. NamesBelow r.event.cube count) log.now }
        ensures { IfOk result (AreSorted log.now) }
    {
        let placed = sorted(alloc, count, log)?;
        Ok(LayeredLog { placed })
    }

    /// A log of copies of these records, in this order.
    pub fn copy(&self, alloc: Global) -> Result<Log, AllocError>
        ensures { IfOk result (λ log. log ≡ map (λ p. p.0) self.now) }
    {
        Ok(Log::of(copies(alloc, &self.placed)?))
    }

    /// The text of these records, if they are a legal log. Its first line is `log 2 P` with the
    /// number of records. Each record has a line `pop Y E V:K V:K ..`, with its layer and what
    /// `print_log` prints for it.
    pub fn print(
        &self,
        alloc: Global,
        instance: &Instance,
        names: &Names,
    ) -> Result<Vec<u8>, AllocError>
        requires { IsLegal instance.now (start_of instance.now) (map (λ p. p.0) self.now) }
        ensures { IfOk result (λ bytes. bytes.items ≡ placed_text names.now instance.now self.now) }
    {
        self.print_behind(Vec::new(alloc), instance, names)
    }

    /// The text of `print`, added after the bytes of `text`. They are not copied if there is
    /// enough room.
    pub fn print_behind(
        &self,
        text: Vec<u8>,
        instance: &Instance,
        names: &Names,
    ) -> Result<Vec<u8>, AllocError>
        requires { IsLegal instance.now (start_of instance.now) (map (λ p. p.0) self.now) }
        ensures { IfOk result (λ bytes. bytes.items
            ≡ text.items ++ placed_text names.now instance.now self.now) }
    {
        // Read for its contract, which says that the events fit the stacks, and so have names.
        let _units = instance.units();
        text_behind(names, instance.family(), &self.placed, text)
    }
}

// Copies of the records.
fn copies(alloc: Global, placed: &[PlacedRecord]) -> Result<Vec<Record>, AllocError>
    ensures { IfOk result (λ records. records.items ≡ map (λ p. p.popped.now) placed.now) }
{
    let mut records = Vec::with_capacity(alloc, placed.len())?;
    for i in 0..placed.len() {
        records.push(placed[i].popped.copy(alloc)?)?;
    }
    Ok(records)
}

/// The layered log: copies of the records in the order of `LayeredLog`. All variables are below
/// the count.
pub fn layered(alloc: Global, count: u32, log: &Log) -> Result<Log, AllocError>
    requires { All (λ r. NamesBelow r.event.cube count) log.now }
    ensures { IfOk result (IsLayered log.now) }
{
    let placed = LayeredLog::of(alloc, count, log)?;
    placed.copy(alloc)
}

/// The text of a legal log in its layered order, as `LayeredLog::print` makes it. No record is
/// copied.
pub fn print_layered(
    alloc: Global,
    instance: &Instance,
    names: &Names,
    log: &Log,
) -> Result<Vec<u8>, AllocError>
    requires { IsLegal instance.now (start_of instance.now) log.now }
    ensures { IfOk result (λ bytes. IsLayeredText names.now instance.now log.now bytes.items) }
{
    // Read for its contract, which says that the events fit the stacks.
    let _units = instance.units();
    let placed = LayeredLog::of(alloc, instance.stacks().count(), log)?;
    placed.print(alloc, instance, names)
}
