ghost use Rattle.std.specs.Prelude.{◌≡◌};

use confluence_core::Record;

/// A record of a log with its layer and its unit. The unit is stored so that a sort does not have
/// to look it up.
#[derive(Drop)]
pub(crate) struct PlacedRecord<'l> {
    pub popped: &'l Record,
    pub layer: u64,
    pub unit: u32,
    ghost unit_is: { unit ≡ popped.now.event.unit },
}

impl<'l> PlacedRecord<'l> {
    ghost use Rattle.pop_log.specs.PlacedRecords.{placed_of};

    /// The record with this layer.
    pub fn of(popped: &'l Record, layer: u64) -> PlacedRecord<'l>
        ensures { placed_of result ≡ (popped.now, layer) }
    {
        PlacedRecord {
            popped,
            layer,
            unit: popped.unit(),
        }
    }
}
