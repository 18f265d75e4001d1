ghost use Rattle.std.specs.Prelude.{◌≡◌, ◌⊎◌, ◌<◌, ◌↔◌, [], length, All, IfErr, IfOk, IsTrue, MatchOption, OnOk};
ghost use Rattle.std.specs.List.{zip as zip_lists};
ghost use Rattle.pop_model.specs.Popping.{NamesBelow};
ghost use Rattle.pop_model.specs.Logs.{IsLegal};
ghost use Rattle.pop_model.specs.Runs.{start_of};
ghost use Rattle.pop_log.specs.Layered.{AreInLayers, FollowsAt, IsFirstUnlayered};
ghost use Rattle.pop_log.specs.Reading.{AreSaid, IsLayerRefusal};

use crate::LogRefusal;
use crate::layering::layers;
use crate::log_version::LogVersion;
use confluence_core::Log;
use pop_instance::Instance;
use std::alloc::{AllocError, Global};

/// Rejects a log of version 2 that is not in layered order or does not state its layers correctly.
pub(crate) fn check_layers(
    alloc: Global,
    instance: &Instance,
    version: LogVersion,
    log: &Log,
    said: &[u64],
) -> Result<(), LogRefusal>
    requires legal { IsLegal instance.now (start_of instance.now) log.now }
    requires each { length said.now ≡ length log.now }
    ensures layered { OnOk result (AreSaid version log.now said.now) }
    ensures refusal { IfErr result (IsLayerRefusal version log.now said.now) }
{
    match version {
        LogVersion::Ordered => Ok(()),
        LogVersion::Layered => {
            // Read for its contract, which says that the events fit the stacks.
            let _units = instance.units();
            match first_unlayered(alloc, instance.stacks().count(), log, said)? {
                None => Ok(()),
                Some(place) => Err(LogRefusal::Unlayered(place)),
            }
        }
    }
}

// The place of the first record that states a wrong layer, or has a layer and unit that do not
// follow those of the record before it. None if the log is in layered order with correct layers.
fn first_unlayered(
    alloc: Global,
    count: u32,
    log: &Log,
    said: &[u64],
) -> Result<Option<u64>, AllocError>
    requires below { All (λ r. NamesBelow r.event.cube count) log.now }
    requires each { length said.now ≡ length log.now }
    ensures { IfOk result (λ found. MatchOption found
        (AreInLayers [] (zip_lists log.now said.now))
        (IsFirstUnlayered (zip_lists log.now said.now))) }
{
    let layers = layers(alloc, count, log)?;
    for i in 0..log.len() {
        if said[i as usize] != layers[i as usize] {
            return Ok(Some(i));
        }
        if !follows(log, said, i) {
            return Ok(Some(i));
        }
    }
    Ok(None)
}

// Whether the layer and unit of a record follow those of the record before it.
fn follows(log: &Log, said: &[u64], i: u64) -> bool
    requires within { i < length log.now }
    requires each { length said.now ≡ length log.now }
    ensures { IsTrue result ↔ FollowsAt (zip_lists log.now said.now) i }
{
    if i == 0 {
        return true;
    }
    let before = log.at(i - 1).unit();
    comes_before(
        said[i as usize - 1],
        before,
        said[i as usize],
        log.at(i).unit(),
    )
}

// Whether a pair of layer and unit comes before another.
fn comes_before(layer: u64, unit: u32, next: u64, next_unit: u32) -> bool
    ensures { IsTrue result
        ↔ ((layer < next) ⊎ ((layer ≡ next) × (unit < next_unit))) }
{
    layer < next || (layer == next && unit < next_unit)
}
