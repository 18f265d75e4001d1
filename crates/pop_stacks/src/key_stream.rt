ghost use Rattle.std.specs.Prelude.{◌≡◌, ◌<◌, ◌+◌, ◌*◌, ◌^◌, ℕ};
ghost use Rattle.rand_chacha.specs.ChaCha.{word_at, key_of};

use crate::lanes::blocks;
use crate::refill::{GROUP, NONE, Refill, read_group};
use rand_chacha::ChaCha20Rng;
use rand_core::SeedableRng;
use rand_core::utils::read_u32;
use std::marker::Model;

// ChaCha20 has ten double rounds.
const DOUBLE_ROUNDS: u32 = 10;

// The number of refills that are kept, each at its stream's number modulo this.
const KEPT: usize = 16;

/// The key stream of ChaCha20, with the last refills of some variables. They are kept because most
/// entries are read more than once, and a change of stream costs a refill. Contracts see the words
/// of the key.
#[derive(Drop)]
pub struct KeyStream {
    rng: ChaCha20Rng,
    // The words of the key.
    key: [u32; 8],
    kept: [Refill; KEPT],
}

impl Model for KeyStream {
    ghost use Rattle.std.specs.Prelude.{◌≡◌, ℕ, List, All};
    ghost use Rattle.pop_stacks.specs.Words.{HoldsWords};

    ghost Value = { List ℕ };

    ghost view = { λ a. a.rng.key };

    ghost invariant = { λ a. (a.key ≡ a.rng.key) × All (HoldsWords a.rng.key) a.kept };
}

impl KeyStream {
    ghost use Rattle.pop_stacks.specs.Words.{AreWordsOf, AreBlockWords};

    /// The key stream of this key of 32 bytes.
    pub fn new(key: [u8; 32]) -> KeyStream
        ensures { result ≡ key_of key }
    {
        KeyStream {
            rng: ChaCha20Rng::from_seed(key),
            key: [
                read_u32(&key, 0),
                read_u32(&key, 1),
                read_u32(&key, 2),
                read_u32(&key, 3),
                read_u32(&key, 4),
                read_u32(&key, 5),
                read_u32(&key, 6),
                read_u32(&key, 7),
            ],
            kept: [NONE; KEPT],
        }
    }

    /// Reads one block of 16 words of each of four streams, `stream` and the next three, one
    /// stream after another. It takes the time of one refill.
    pub fn read_block(&self, stream: u64, block: u32, words: &mut [u32; 64])
        requires { stream + 3 < 2 ^ 64 }
        ensures { AreBlockWords self.now stream block words.new }
    {
        blocks(DOUBLE_ROUNDS, &self.key, block as u64, stream, words);
    }

    /// Reads the words of a group of entries of a stream, without keeping them.
    pub fn read(&mut self, stream: u64, group: u32, words: &mut [u32; 64])
        requires { group < 2 ^ 26 }
        ensures words { AreWordsOf self.old stream group words.new }
        ensures same { self.new ≡ self.old }
    {
        read_group(&mut self.rng, stream, group, words);
    }

    /// The two words of entry k of a stream, low word first.
    pub fn words(&mut self, stream: u64, k: u32) -> (u32, u32)
        requires { k < 2 ^ 31 }
        ensures low { result.0 ≡ word_at 10 self.old stream (2 * k) }
        ensures high { result.1 ≡ word_at 10 self.old stream (2 * k + 1) }
        ensures same { self.new ≡ self.old }
    {
        let group = k / GROUP;
        let place = 2 * (k % GROUP) as usize;
        let refill = &mut self.kept[stream as usize % KEPT];
        if !refill.filled || refill.stream != stream || refill.group != group {
            refill.filled = true;
            refill.stream = stream;
            refill.group = group;
            read_group(&mut self.rng, stream, group, &mut refill.words);
        }
        (refill.words[place], refill.words[place + 1])
    }
}
