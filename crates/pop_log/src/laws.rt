//! Theorems about logs. The contract of each function states one.
ghost use Rattle.pop_model.specs.Instances.{IsInstance};
ghost use Rattle.pop_log.specs.Candidates.{NumbersFit};
ghost use Rattle.pop_log.specs.Laws.{ExactReading, LayeredInLayers, LayeredLegal, LayersApart, OneLayeredLog, OneLayering, OneLog, OnePlacedLog, OneRead, OneReading, OneRefusal, ReadBack, SortedInLayers, SwapKeepsLayers};

use crate::candidates::greatest_number;
use pop_instance::Instance;

/// Two records of one layer share no variable.
pub fn layers_apart()
    ensures { LayersApart }
{}

/// A log has at most one list of layers.
pub fn one_layering()
    ensures { OneLayering }
{}

/// If two neighbours that share no variable are swapped, no record changes its layer.
pub fn swap_keeps_layers()
    ensures { SwapKeepsLayers }
{}

/// The layered log of a legal log is legal and has the same replay.
pub fn layered_legal()
    ensures { LayeredLegal }
{}

/// The layered log of a legal log is in layered order. Its layers are those of its records in
/// their new order, and the pairs of layer and unit rise.
pub fn layered_in_layers()
    ensures { LayeredInLayers }
{}

/// A log in layered order is its own layered log.
pub fn sorted_in_layers()
    ensures { SortedInLayers }
{}

/// On an extremal instance all runs from the same cursors to an end have the same layered log,
/// with the same layers.
pub fn one_layered_log()
    ensures { OneLayeredLog }
{}

/// A legal log is determined by what is printed for its records.
pub fn one_reading()
    ensures { OneReading }
{}

/// An instance has fewer than 2^31 variables and units, and its listed events have numbers of 32
/// bits.
pub fn numbers_fit(instance: &Instance)
    ensures instance { IsInstance instance.now }
    ensures numbers { NumbersFit instance.now.family }
{
    let _units = instance.units();
    let _greatest = greatest_number(instance.family());
}

/// A text of version 1 denotes at most one legal log of an instance. A text of version 2 denotes
/// at most one legal log in layered order. So a text is read as at most one log.
pub fn one_log(instance: &Instance)
    ensures ordered { OneLog instance.now }
    ensures layered { OnePlacedLog instance.now }
    ensures read { OneRead instance.now }
{
    numbers_fit(instance);
}

/// The layered text of a legal log is read as its layered log, if it has at most 2^28 bytes.
pub fn read_back()
    ensures { ReadBack }
{}

/// The text of a legal log of an instance, of either version and with at most 2^28 bytes, is
/// rejected only if memory runs out.
pub fn exact_reading(instance: &Instance)
    ensures { ExactReading instance.now }
{
    numbers_fit(instance);
}

/// A text is rejected in one way only, unless memory runs out: it is too long, or one line is
/// invalid, or one record is.
pub fn one_refusal(instance: &Instance)
    ensures { OneRefusal instance.now }
{
    numbers_fit(instance);
}
