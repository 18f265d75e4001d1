// The block function of ChaCha20 on one block of each of four streams at a time, one stream in
// each lane. The generator of `rand_chacha` puts four blocks of one stream there instead.
// Contracts use its definition of a block, so the words made here are proved to be the same.
ghost use Rattle.std.specs.Prelude.{◌≡◌, ℕ, ◌+◌, ◌*◌, ◌/◌, ◌%◌, ◌^◌, ◌<◌, slice_index};
ghost use Rattle.rand_chacha.specs.Block.{add32, xor_rotate, quarter_round, column_round, diagonal_round, initial_state, block_word};
ghost use Rattle.rand_chacha.specs.Lanes.{lane};

use std::simd::u32x4;

#[inline(always)]
fn add(a: u32x4, b: u32x4) -> u32x4
    ensures { (j : ℕ) → j < 4 → slice_index result j ≡ add32 (slice_index a j) (slice_index b j) }
{
    a + b
}

#[inline(always)]
fn xor_rotate(a: u32x4, b: u32x4, k: u32) -> u32x4
    requires { (0 < k) × (k < 32) }
    ensures { (j : ℕ) → j < 4 → slice_index result j ≡ xor_rotate (slice_index a j) (slice_index b j) k }
{
    let x = a ^ b;
    (x << u32x4::splat(k)) | (x >> u32x4::splat(32 - k))
}

#[inline(always)]
fn quarter_round(a: u32x4, b: u32x4, c: u32x4, d: u32x4) -> (u32x4, u32x4, u32x4, u32x4)
    ensures { (j : ℕ) → j < 4
        → (slice_index result.0 j, slice_index result.1 j, slice_index result.2 j, slice_index result.3 j)
        ≡ quarter_round (slice_index a j) (slice_index b j) (slice_index c j) (slice_index d j) }
{
    let a1 = add(a, b);
    let d1 = xor_rotate(d, a1, 16);
    let c1 = add(c, d1);
    let b1 = xor_rotate(b, c1, 12);
    let a2 = add(a1, b1);
    let d2 = xor_rotate(d1, a2, 8);
    let c2 = add(c1, d2);
    let b2 = xor_rotate(b1, c2, 7);
    (a2, b2, c2, d2)
}

#[inline(always)]
fn column_round(x: [u32x4; 16]) -> [u32x4; 16]
    ensures { (j : ℕ) → j < 4 → lane j result ≡ column_round (lane j x) }
{
    let [
        x0,
        x1,
        x2,
        x3,
        x4,
        x5,
        x6,
        x7,
        x8,
        x9,
        x10,
        x11,
        x12,
        x13,
        x14,
        x15,
    ] = x;
    let (x0, x4, x8, x12) = quarter_round(x0, x4, x8, x12);
    let (x1, x5, x9, x13) = quarter_round(x1, x5, x9, x13);
    let (x2, x6, x10, x14) = quarter_round(x2, x6, x10, x14);
    let (x3, x7, x11, x15) = quarter_round(x3, x7, x11, x15);
    [
        x0, x1, x2, x3, x4, x5, x6, x7, x8, x9, x10, x11, x12, x13, x14, x15,
    ]
}

#[inline(always)]
fn diagonal_round(x: [u32x4; 16]) -> [u32x4; 16]
    ensures { (j : ℕ) → j < 4 → lane j result ≡ diagonal_round (lane j x) }
{
    let [
        x0,
        x1,
        x2,
        x3,
        x4,
        x5,
        x6,
        x7,
        x8,
        x9,
        x10,
        x11,
        x12,
        x13,
        x14,
        x15,
    ] = x;
    let (x0, x5, x10, x15) = quarter_round(x0, x5, x10, x15);
    let (x1, x6, x11, x12) = quarter_round(x1, x6, x11, x12);
    let (x2, x7, x8, x13) = quarter_round(x2, x7, x8, x13);
    let (x3, x4, x9, x14) = quarter_round(x3, x4, x9, x14);
    [
        x0, x1, x2, x3, x4, x5, x6, x7, x8, x9, x10, x11, x12, x13, x14, x15,
    ]
}

#[inline(always)]
fn states(key: &[u32; 8], block: u64, stream: u64) -> [u32x4; 16]
    requires { stream + 3 < 2 ^ 64 }
    ensures { (j : ℕ) → j < 4 → lane j result ≡ initial_state key.now block (stream + j) }
{
    let s1 = stream + 1;
    let s2 = stream + 2;
    let s3 = stream + 3;
    [
        u32x4::splat(0x6170_7865),
        u32x4::splat(0x3320_646e),
        u32x4::splat(0x7962_2d32),
        u32x4::splat(0x6b20_6574),
        u32x4::splat(key[0]),
        u32x4::splat(key[1]),
        u32x4::splat(key[2]),
        u32x4::splat(key[3]),
        u32x4::splat(key[4]),
        u32x4::splat(key[5]),
        u32x4::splat(key[6]),
        u32x4::splat(key[7]),
        u32x4::splat(low(block)),
        u32x4::splat(high(block)),
        u32x4::from_array([low(stream), low(s1), low(s2), low(s3)]),
        u32x4::from_array([high(stream), high(s1), high(s2), high(s3)]),
    ]
}

#[inline(always)]
fn low(x: u64) -> u32
    ensures { result ≡ x % 2 ^ 32 }
{
    (x & 0xffff_ffff) as u32
}

#[inline(always)]
fn high(x: u64) -> u32
    ensures { result ≡ x / 2 ^ 32 }
{
    (x >> 32) as u32
}

/// Writes block number `block` of each of the four streams from `stream` on, one after another.
pub fn blocks(double_rounds: u32, key: &[u32; 8], block: u64, stream: u64, out: &mut [u32; 64])
    requires { stream + 3 < 2 ^ 64 }
    ensures { (j k : ℕ) → j < 4 → k < 16
        → slice_index out.new (16 * j + k) ≡ block_word double_rounds key.now block (stream + j) k }
{
    let first = states(key, block, stream);
    let mut x = first;
    'rounds: for _round in 0..double_rounds {
        x = diagonal_round(column_round(x));
    }
    'words: for k in 0..16 {
        let [w0, w1, w2, w3] = add(x[k], first[k]).to_array();
        out[k] = w0;
        out[16 + k] = w1;
        out[32 + k] = w2;
        out[48 + k] = w3;
    }
}
