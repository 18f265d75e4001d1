// Machine words with one bit of each of at most 32 values.
ghost use Rattle.std.specs.Prelude.{◌≡◌, ◌<◌, ◌≤◌, ◌+◌, ℕ, slice_index};
ghost use Rattle.std.specs.Int.{bit_at};

/// Bit number `bit` of each value. The bit of the first value becomes the lowest bit.
pub fn plane<const N: usize>(values: &[u8; N], bit: u32) -> u32
    requires few { N ≤ 32 }
    requires bit { bit < 8 }
    ensures { (i : ℕ) → i < N → bit_at result i ≡ bit_at (slice_index values.now i) bit }
{
    let mut bits: u32 = 0;
    for i in 0..N {
        if (values[i] >> bit) & 1 == 1 {
            bits |= 1 << i;
        }
    }
    bits
}

/// The bits of a word below a place, followed by those of another word from that place on.
#[inline]
pub fn behind(bits: u32, place: u32, more: u32) -> u32
    requires { place < 32 }
    ensures first { (i : ℕ) → i < place → bit_at result i ≡ bit_at bits i }
    ensures more { (i : ℕ) → place + i < 32 → bit_at result (place + i) ≡ bit_at more i }
{
    (bits & ((1 << place) - 1)) | (more << place)
}
