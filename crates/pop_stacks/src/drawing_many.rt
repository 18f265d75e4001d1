// Computes the values of many entries at once: of the 32 of a group, or of the eight of a block.
// Each step goes over all of them in a loop of constant length. Except in the binary search, no
// branch depends on the words. `at` is the place of the first entry's words.
ghost use Rattle.std.specs.Prelude.{◌≡◌, ◌<◌, ◌≤◌, ◌+◌, ◌-◌, ◌*◌, ℕ, [], ◌∷◌, length, slice_index};
ghost use Rattle.pop_stacks.specs.Draws.{differences, past, RisesFrom, AreDrawn, AreScaled, AreFirstAbove, MayPass};
ghost use Rattle.pop_stacks.specs.KeptValues.{AreBelow};

use crate::drawing::{first_above, scale};

// Up to this many sums are passed one after another. If there are more, binary search takes fewer
// steps.
const FEW: usize = 24;

/// The values that these words select for a variable with two values of weight 1: the top bit of
/// each number.
pub fn draw_pairs<const N: usize>(words: &[u32; 64], at: usize) -> [u8; N]
    requires { at + 2 * N ≤ 64 }
    ensures { AreDrawn (1 ∷ 1 ∷ []) words.now at N result }
{
    let mut values = [0; N];
    for i in 0..N {
        values[i] = (words[at + 2 * i + 1] >> 31) as u8;
    }
    values
}

// The numbers of the entries, scaled to a total.
fn scale_all<const N: usize>(words: &[u32; 64], at: usize, total: u32) -> [u32; N]
    requires place { at + 2 * N ≤ 64 }
    requires some { 0 < total }
    ensures scaled { AreScaled total words.now at N result }
    ensures below { AreBelow total N result }
{
    let mut numbers = [0; N];
    for i in 0..N {
        numbers[i] = scale(words[at + 2 * i], words[at + 2 * i + 1], total);
    }
    numbers
}

// The same numbers as bytes.
fn narrow<const N: usize>(numbers: &[u32; N]) -> [u8; N]
    requires { AreBelow 256 N numbers.now }
    ensures { (i : ℕ) → i < N → slice_index result i ≡ slice_index numbers.now i }
{
    let mut values = [0; N];
    for i in 0..N {
        values[i] = numbers[i] as u8;
    }
    values
}

// Each place, increased by 1 if this sum is not above its number. It is not inlined: otherwise the
// compiler would prepare the loop over the sums for many sums at once, and there are few.
#[inline(never)]
fn pass<const N: usize>(sum: u32, numbers: &[u32; N], places: &[u8; N]) -> [u8; N]
    requires { AreBelow 255 N places.now }
    ensures { (i : ℕ) → i < N → slice_index result i
        ≡ past sum (slice_index numbers.now i) (slice_index places.now i) }
{
    let mut moved = [0; N];
    for i in 0..N {
        moved[i] = places[i] + (sum <= numbers[i]) as u8;
    }
    moved
}

// The place of the first sum above each number, found by passing the sums before it.
fn pass_all<const N: usize>(sums: &[u32], numbers: &[u32; N]) -> [u8; N]
    requires { MayPass sums.now N numbers.now }
    ensures { AreFirstAbove sums.now numbers.now N result }
{
    let mut places = [0; N];
    for j in 0..sums.len() - 1 {
        places = pass(sums[j], numbers, &places);
    }
    places
}

// The place of the first sum above each number, found by binary search.
fn halve_all<const N: usize>(sums: &[u32], numbers: &[u32; N]) -> [u8; N]
    requires { MayPass sums.now N numbers.now }
    ensures { AreFirstAbove sums.now numbers.now N result }
{
    let mut places = [0; N];
    for i in 0..N {
        places[i] = first_above(sums, numbers[i]) as u8;
    }
    places
}

/// The values that these words select under the weights with these running sums.
pub fn draw_all<const N: usize>(sums: &[u32], words: &[u32; 64], at: usize) -> [u8; N]
    requires place { at + 2 * N ≤ 64 }
    requires some { 0 < length sums.now }
    requires small { length sums.now ≤ 256 }
    requires rising { RisesFrom 0 sums.now }
    ensures { AreDrawn (differences 0 sums.now) words.now at N result }
{
    let total = sums[sums.len() - 1];
    let numbers = scale_all(words, at, total);
    // Weights of 1 have the running sums 1, 2, 3 and so on.
    if total as usize == sums.len() {
        return narrow(&numbers);
    }
    if sums.len() <= FEW {
        return pass_all(sums, &numbers);
    }
    halve_all(sums, &numbers)
}
