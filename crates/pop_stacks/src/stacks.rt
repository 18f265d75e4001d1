ghost use Rattle.std.specs.Prelude.{◌≡◌, ◌<◌, ◌≤◌, ◌^◌, ◌↔◌, ℕ, [], ◌∷◌, OnOk, IfOk, IfErr, IsTrue};
ghost use Rattle.pop_model.specs.Stacks.{variables_of, domain_of, height_of, value_at, stream_of, IsKeyed, stacks_for, stacks_raised, IsTable};

use crate::kept_values::KeptValues;
use crate::key_stream::KeyStream;
use crate::refill::{BLOCK, BLOCKS, GROUP};
use crate::sums::Sums;
use crate::{StackFault, StackSpec, Weights};
use std::alloc::{AllocError, Global};
use std::marker::Model;

/// The stacks of all variables. Variables and entries count from 0.
#[derive(Drop)]
pub struct Stacks {
    spec: StackSpec,
    // The number of the sample. Under a key each sample has its own streams.
    sample: u32,
    sums: Sums,
    height: u32,
}

// The number of the stream of variable v in a sample.
fn stream_number(sample: u32, v: u32) -> u64
    ensures { result ≡ stream_of sample v }
{
    sample as u64 * 0x1_0000_0000 + v as u64
}

impl Model for Stacks {
    ghost use Rattle.pop_model.specs.Stacks.{StackTable, IsTable};
    ghost use Rattle.pop_stacks.specs.Tables.{sample_origin, sample_table};
    ghost use Rattle.pop_stacks.specs.Faults.{HasSoundRows};

    ghost Value = { StackTable };

    ghost view = { λ a. sample_table a.sample a.spec a.height a.sums };

    ghost invariant = { λ a. IsTable (sample_table a.sample a.spec a.height a.sums)
        × HasSoundRows (sample_origin a.sample a.spec a.height) a.sums };
}

impl Stacks {
    ghost use Rattle.pop_stacks.specs.Tables.{origin_of, table_of};
    ghost use Rattle.pop_stacks.specs.Faults.{IsSound, IsCause};
    ghost use Rattle.pop_stacks.specs.Readers.{Streams, KeepsOfKeys};
    ghost use Rattle.pop_stacks.specs.KeptValues.{keeps, KeepsValues};

    /// The stacks with entries of this source, under these weights. Under a key each variable has
    /// `height` entries. With given rows a variable has as many entries as its row, and `height`
    /// has no effect.
    pub fn new(spec: StackSpec, weights: Weights, height: u32) -> Result<Stacks, StackFault>
        requires some { 0 < height }
        requires short { height < 2 ^ 31 }
        ensures made { IfOk result (λ stacks. stacks ≡ table_of spec height weights) }
        ensures sound { OnOk result (IsSound (origin_of spec height) weights) }

        // The first fault in the order of `StackFault`, at its lowest place.
        ensures cause { IfErr result (IsCause (origin_of spec height) weights) }
    {
        if let Err(fault) = spec.check(&weights, height) {
            drop(spec);
            drop(weights);
            return Err(fault);
        }
        match Sums::of(weights) {
            Err(v) => {
                drop(spec);
                Err(StackFault::WeightSum(v))
            }
            Ok(sums) => Ok(Stacks {
                spec,
                sample: 0,
                sums,
                height,
            }),
        }
    }

    /// The stacks of sample j under the same key and weights. Each sample has its own streams.
    pub fn for_sample(&self, alloc: Global, j: u32) -> Result<Stacks, AllocError>
        requires keyed { IsKeyed self.now.origin }
        ensures { IfOk result (λ stacks. stacks ≡ stacks_for j self.now) }
    {
        let StackSpec::Key(key) = &self.spec else {
            unreachable!();
        };
        let sums = self.sums.copy(alloc)?;
        Ok(Stacks {
            spec: StackSpec::Key(*key),
            sample: j,
            sums,
            height: self.height,
        })
    }

    /// Gives each variable this height, which must be at least the present one. It allocates
    /// nothing. A reader of these stacks can continue to read them.
    pub fn raise(&mut self, height: u32)
        requires keyed { IsKeyed self.old.origin }
        requires higher { (v : ℕ) → height_of self.old v ≤ height }
        requires short { height < 2 ^ 31 }
        ensures { self.new ≡ stacks_raised height self.old }
    {
        self.height = height;
    }

    /// The number of variables.
    pub fn count(&self) -> u32
        ensures count { result ≡ variables_of self.now }
        ensures table { IsTable self.now }
    {
        self.sums.count()
    }

    /// The number of entries of variable v.
    pub fn height(&self, v: u32) -> u32
        requires { v < variables_of self.now }
        ensures { result ≡ height_of self.now v }
    {
        match &self.spec {
            StackSpec::Key(_) => self.height,
            StackSpec::Given(rows) => rows.row(v).len() as u32,
        }
    }

    /// The number of values of variable v.
    pub fn domain(&self, v: u32) -> u32
        requires { v < variables_of self.now }
        ensures { result ≡ domain_of self.now v }
    {
        self.sums.slots(v)
    }

    /// Whether every variable has at most this many values.
    pub fn have_at_most(&self, values: u32) -> bool
        ensures { IsTrue result
            ↔ ((v : ℕ) → v < variables_of self.now → domain_of self.now v ≤ values) }
    {
        self.sums.have_at_most(values)
    }

    // The key stream of keyed stacks. With given rows it is an arbitrary one that is never read.
    pub(crate) fn stream(&self) -> KeyStream
        ensures { Streams self.now.origin result }
    {
        match &self.spec {
            StackSpec::Key(key) => KeyStream::new(*key),
            StackSpec::Given(_) => KeyStream::new([0; 32]),
        }
    }

    // An empty cache for the values of each variable. Given rows need none.
    pub(crate) fn room_for_values(&self, alloc: Global) -> Result<KeptValues, AllocError>
        ensures none { IfOk result (KeepsValues self.now) }
        ensures of_keys { IfOk result (λ kept. KeepsOfKeys self.now.origin (keeps kept)) }
    {
        if let StackSpec::Given(_) = &self.spec {
            return Ok(KeptValues::Nothing);
        }
        let count = self.sums.count();
        if self.sums.have_at_most(2) {
            return KeptValues::bits(alloc, count);
        }
        if self.sums.have_at_most(4) {
            return KeptValues::quads(alloc, count);
        }
        KeptValues::bytes(alloc, count)
    }

    // Entry k of variable v, if the line of v keeps the entries before the block of k. The block
    // is drawn for four variables at once, for a quarter of a refill each. Another variable keeps
    // its block only if it is the next one: no line drops values for a block that it was not asked
    // for. This is apart from `value`, since the other cases there need no room for lanes.
    #[inline(never)]
    fn begin(&self, stream: &KeyStream, kept: &mut KeptValues, v: u32, k: u32) -> u32
        requires keyed { IsKeyed self.now.origin }
        requires streams { Streams self.now.origin stream.now }
        requires kept { KeepsValues self.now kept.old }
        requires variable { v < variables_of self.now }
        requires short { k < 2 ^ 31 }
        ensures value { result ≡ value_at self.now v k }
        ensures within { result < domain_of self.now v }
        ensures kept { KeepsValues self.now kept.new }
        ensures keeping { keeps kept.new ≡ keeps kept.old }
    {
        let first = v - v % 4;
        let block = k / BLOCK;
        let mut words = [0; 64];
        stream.read_block(stream_number(self.sample, first), block, &mut words);
        let end = self.sums.count().min(first + 4);
        for u in first..end {
            let domain = self.sums.slots(u);
            if kept.awaits(u, domain, block, u == v) {
                let values: [u8; 8] = self.sums.draw_many(u, &words, 16 * (u - first) as usize);
                kept.append(u, domain, block, &values);
            }
        }
        let at = (16 * (v - first) + 2 * (k % BLOCK)) as usize;
        self.sums.draw(v, words[at], words[at + 1])
    }

    // Entry k of variable v. If there is a line for the values of its group, they are kept.
    #[inline(never)]
    pub(crate) fn value(&self, stream: &mut KeyStream, kept: &mut KeptValues, v: u32, k: u32) -> u32
        requires streams { Streams self.now.origin stream.old }
        requires kept { KeepsValues self.now kept.old }
        requires variable { v < variables_of self.now }
        requires place { k < height_of self.now v }
        requires short { k < 2 ^ 31 }
        ensures value { result ≡ value_at self.now v k }
        ensures within { result < domain_of self.now v }
        ensures same { stream.new ≡ stream.old }
        ensures kept { KeepsValues self.now kept.new }
        ensures keeping { keeps kept.new ≡ keeps kept.old }
    {
        match &self.spec {
            StackSpec::Key(_) => {
                let domain = self.sums.slots(v);
                if kept.awaits(v, domain, k / BLOCK, true) {
                    return self.begin(stream, kept, v, k);
                }
                if kept.can_keep(v, domain) {
                    let mut words = [0; 64];
                    stream.read(stream_number(self.sample, v), k / GROUP, &mut words);
                    let values: [u8; 32] = self.sums.draw_many(v, &words, 0);
                    kept.keep(v, domain, BLOCKS * (k / GROUP) + BLOCKS, &values);
                    return values[(k % GROUP) as usize] as u32;
                }
                let (low, high) = stream.words(stream_number(self.sample, v), k);
                self.sums.draw(v, low, high)
            }
            StackSpec::Given(rows) => rows.row(v)[k as usize],
        }
    }
}
