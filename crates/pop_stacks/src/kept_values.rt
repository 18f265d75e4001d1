ghost use Rattle.std.specs.Prelude.{◌≡◌, ◌<◌, ◌≤◌, ◌^◌, ℕ, ◌↔◌, IfOk, IsTrue, Some, None};

use crate::bit_line::{self, BitLine};
use crate::bit_planes::plane;
use crate::byte_line::{self, ByteLine};
use crate::quad_line::{self, QuadLine};
use crate::refill::BLOCKS;
use std::alloc::{AllocError, Global};

/// A cache of values. For each variable with a line it keeps values of the group of entries that
/// was read last. These go up to the last block that was drawn.
#[derive(Drop)]
pub enum KeptValues {
    /// No variable has a line.
    Nothing,
    /// A line for each variable. It is not used for a variable with more than two values.
    Bits(Vec<BitLine>),
    /// A line for each variable. It is not used for a variable with more than four values.
    Quads(Vec<QuadLine>),
    /// A line for each variable. It is not used for a variable with more than 256 values.
    Bytes(Vec<ByteLine>),
}

impl KeptValues {
    ghost use Rattle.pop_stacks.specs.KeptValues.{kept_at, keeps, CanKeep, AreBelow, HasPlaces, Replaces, Appends, Awaits, mark_at};

    /// Empty lines for this many variables, for values 0 and 1.
    pub fn bits(alloc: Global, count: u32) -> Result<KeptValues, AllocError>
        ensures { IfOk result (λ kept. (v k : ℕ) → kept_at kept v k ≡ None) }
    {
        let lines = vec![in alloc; bit_line::EMPTY; count as usize]?;
        Ok(KeptValues::Bits(lines))
    }

    /// Empty lines for this many variables, for values below 4.
    pub fn quads(alloc: Global, count: u32) -> Result<KeptValues, AllocError>
        ensures { IfOk result (λ kept. (v k : ℕ) → kept_at kept v k ≡ None) }
    {
        let lines = vec![in alloc; quad_line::EMPTY; count as usize]?;
        Ok(KeptValues::Quads(lines))
    }

    /// Empty lines for this many variables, for values below 256.
    pub fn bytes(alloc: Global, count: u32) -> Result<KeptValues, AllocError>
        ensures { IfOk result (λ kept. (v k : ℕ) → kept_at kept v k ≡ None) }
    {
        let lines = vec![in alloc; byte_line::EMPTY; count as usize]?;
        Ok(KeptValues::Bytes(lines))
    }

    /// The value of entry k of variable v, if it is kept.
    pub fn value(&self, v: u32, k: u32) -> Option<u32>
        ensures { result ≡ kept_at self.now v k }
    {
        match self {
            KeptValues::Nothing => None,
            KeptValues::Bits(lines) => BitLine::value_in(lines, v, k),
            KeptValues::Quads(lines) => QuadLine::value_in(lines, v, k),
            KeptValues::Bytes(lines) => ByteLine::value_in(lines, v, k),
        }
    }

    /// Whether variable v has a line with room for values below `domain`.
    pub fn can_keep(&self, v: u32, domain: u32) -> bool
        ensures { IsTrue result ↔ CanKeep self.now v domain }
    {
        match self {
            KeptValues::Nothing => false,
            KeptValues::Bits(lines) => (v as usize) < lines.len() && domain <= 2,
            KeptValues::Quads(lines) => (v as usize) < lines.len() && domain <= 4,
            KeptValues::Bytes(lines) => (v as usize) < lines.len() && domain <= 256,
        }
    }

    /// Whether `can_keep` holds and this block of variable v is the next one to keep. The first
    /// block of a later group replaces the values that are kept, so it counts only if it was asked
    /// for.
    pub fn awaits(&self, v: u32, domain: u32, block: u32, asked: bool) -> bool
        ensures { IsTrue result ↔ Awaits self.now v domain block asked }
    {
        self.can_keep(v, domain)
            && (asked || block == 0 || block % BLOCKS != 0)
            && match self {
                KeptValues::Nothing => false,
                KeptValues::Bits(lines) => lines[v as usize].mark == block,
                KeptValues::Quads(lines) => lines[v as usize].mark == block,
                KeptValues::Bytes(lines) => lines[v as usize].mark == block,
            }
    }

    /// Keeps the values of the next block of variable v, which are below `domain`. They follow the
    /// kept values of the same group; those of another group are dropped.
    pub fn append(&mut self, v: u32, domain: u32, block: u32, values: &[u8; 8])
        requires known { CanKeep self.old v domain }
        requires next { mark_at self.old v ≡ Some block }
        requires below { AreBelow domain 8 values.now }
        requires small { block < 2 ^ 28 }
        ensures appended { Appends self.old self.new v block values.now }
        ensures keeping { keeps self.new ≡ keeps self.old }
    {
        match self {
            KeptValues::Nothing => {}
            KeptValues::Bits(lines) => lines[v as usize] = lines[v as usize].with(block, values),
            KeptValues::Quads(lines) => lines[v as usize] = lines[v as usize].with(block, values),
            KeptValues::Bytes(lines) => lines[v as usize] = lines[v as usize].with(block, values),
        }
    }

    /// Replaces what is kept of variable v by these values, which are below `domain`. The mark
    /// says which entries they are.
    pub fn keep(&mut self, v: u32, domain: u32, mark: u32, values: &[u8; 32])
        requires known { CanKeep self.old v domain }
        requires below { AreBelow domain 32 values.now }
        requires places { HasPlaces mark 32 }
        ensures replaced { Replaces self.old self.new v mark values.now }
        ensures keeping { keeps self.new ≡ keeps self.old }
    {
        match self {
            KeptValues::Nothing => {}
            KeptValues::Bits(lines) => {
                let bits = plane(values, 0);
                lines[v as usize] = BitLine { mark, bits };
            }
            KeptValues::Quads(lines) => {
                lines[v as usize] = QuadLine::of(mark, values);
            }
            KeptValues::Bytes(lines) => {
                lines[v as usize] = ByteLine::of(mark, values);
            }
        }
    }
}
