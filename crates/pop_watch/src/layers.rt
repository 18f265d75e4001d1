ghost use Rattle.std.specs.Prelude.{◌≡◌, ◌<◌, ◌+◌, [], ◌∷◌, length, map, slice_index, count_by, not, ◌==◌, All, IfOk};
ghost use Rattle.std.specs.List.{range_with_len};
ghost use Rattle.pop_watch.specs.Watching.{layer_at, layer_put, places_with, used_places};

use crate::Watch;
use crate::numbers::numbers_line;
use confluence_core::Record;
use pop_instance::Cube;
use std::alloc::{AllocError, Global};

/// The observer of kind 3: the layers of the log (the depth in the Foata normal form: Cartier and
/// Foata 1969). Place 0 of its state is the largest layer. Place 1 + v is the layer of the last
/// record that named variable v, or 0. Layers are capped at 2^64 - 1.
#[derive(Debug, Drop)]
pub struct Layers {
    places: Vec<u64>,
}

impl Layers {
    /// An observer without records. Unlike those of the other kinds it allocates memory, here and
    /// for each record.
    pub fn new(alloc: Global) -> Result<Layers, AllocError>
        ensures kind { IfOk result (λ w. ⟦<Layers as Watch>⟧.kind w ≡ 3) }
        ensures state { IfOk result (λ w. ⟦<Layers as Watch>⟧.state w ≡ 0 ∷ []) }
    {
        Ok(Layers {
            places: vec![in alloc; 0u64; 1]?,
        })
    }
}

impl Watch for Layers {
    ghost kind = { λ _. 3 };

    ghost state = { λ a. a.places.items };

    fn kind(&self) -> u32 {
        3
    }

    fn tell(&mut self, popped: &Record) -> Result<(), AllocError> {
        let cube = popped.cube();
        let layer = layer_of(&self.places, cube);
        let size = size_with(&self.places, cube);
        // Read for its contract, which says that there is a pair.
        let _len = cube.len();
        self.places.resize(size, 0)?;
        put_layer(&mut self.places, cube, layer);
        Ok(())
    }

    fn report(&self, alloc: Global) -> Result<Vec<u8>, AllocError> {
        let numbers = [number_at(&self.places, 0), used(&self.places)];
        numbers_line(alloc, b"report layers", &numbers)
    }
}

// The number at a place, or 0 if the place is missing.
fn number_at(places: &[u64], at: usize) -> u64
    ensures { result ≡ slice_index places.now at }
{
    if at < places.len() { places[at] } else { 0 }
}

// One more than the largest number at the places of the variables.
fn layer_of(places: &[u64], cube: &Cube) -> u64
    ensures { result ≡ layer_at places.now cube.now }
{
    let mut greatest = 0u64;
    for i in 0..cube.len() {
        let (v, _) = cube.pair(i);
        greatest = greatest.max(number_at(places, v as usize + 1));
    }
    greatest.saturating_add(1)
}

// The number of places after each variable has one.
fn size_with(places: &[u64], cube: &Cube) -> usize
    ensures { result ≡ places_with places.now cube.now }
{
    let mut size = places.len();
    for i in 0..cube.len() {
        let (v, _) = cube.pair(i);
        size = size.max(v as usize + 2);
    }
    size
}

// Stores a layer at the places of the variables. Place 0 gets the layer too, if it is larger than
// the number there.
fn put_layer(places: &mut [u64], cube: &Cube, layer: u64)
    requires some { 0 < length places.old }
    requires room { All (λ p. p.0 + 1 < length places.old) cube.now }
    ensures { places.new
        ≡ map (layer_put places.old cube.now layer) (range_with_len 0 (length places.old)) }
{
    for i in 0..cube.len() {
        let (v, _) = cube.pair(i);
        places[v as usize + 1] = layer;
    }
    places[0] = places[0].max(layer);
}

// The number of places after the first with a number that is not 0.
fn used(places: &[u64]) -> u64
    ensures { result ≡ used_places places.now }
{
    if places.is_empty() {
        return 0;
    }
    not_zeros(&places[1..])
}

// How many of the numbers are not 0.
fn not_zeros(numbers: &[u64]) -> u64
    ensures { result ≡ count_by (λ n. not (n == 0)) numbers.now }
{
    let mut count = 0u64;
    for i in 0..numbers.len() {
        if numbers[i] != 0 {
            count += 1;
        }
    }
    count
}
