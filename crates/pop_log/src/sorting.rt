ghost use Rattle.std.specs.Prelude.{◌≡◌, length, map, All, IfOk};
ghost use Rattle.std.specs.List.{zip as zip_lists};
ghost use Rattle.pop_model.specs.Popping.{NamesBelow};
ghost use Rattle.pop_log.specs.Layered.{AreSorted};
ghost use Rattle.pop_log.specs.PlacedRecords.{placed_of};

use crate::layering::layers;
use crate::placed_record::PlacedRecord;
use confluence_core::Log;
use std::alloc::{AllocError, Global};

/// The records of a log with their layers, in the layered order.
pub(crate) fn sorted<'l>(
    alloc: Global,
    count: u32,
    log: &'l Log,
) -> Result<Vec<PlacedRecord<'l>>, AllocError>
    requires { All (λ r. NamesBelow r.event.cube count) log.now }
    ensures { IfOk result (λ placed. AreSorted log.now (map placed_of placed.items)) }
{
    let layers = layers(alloc, count, log)?;
    let mut placed = with_layers(alloc, log, &layers)?;
    placed.sort_by_key(|p| (p.layer, p.unit))?;
    Ok(placed)
}

// The records with their layers, in the order of the log.
fn with_layers<'l>(
    alloc: Global,
    log: &'l Log,
    layers: &[u64],
) -> Result<Vec<PlacedRecord<'l>>, AllocError>
    requires each { length layers.now ≡ length log.now }
    ensures { IfOk result (λ placed. map placed_of placed.items
        ≡ zip_lists log.now layers.now) }
{
    let mut placed = Vec::with_capacity(alloc, layers.len())?;
    for i in 0..log.len() {
        placed.push(PlacedRecord::of(log.at(i), layers[i as usize]))?;
    }
    Ok(placed)
}
