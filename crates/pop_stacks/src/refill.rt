ghost use Rattle.std.specs.Prelude.{◌≡◌, ◌<◌, ◌≤◌, ◌+◌, ◌^◌};
ghost use Rattle.pop_stacks.specs.Words.{AreRead, AreWordsOf};

use rand_chacha::ChaCha20Rng;
use rand_core::utils::NextWord;

/// The number of entries of one refill of the cipher. A refill makes four blocks of 16 words, and
/// an entry has two words.
pub const GROUP: u32 = 32;

/// The number of entries of one block of the cipher.
pub const BLOCK: u32 = 8;

/// The number of blocks of a group.
pub const BLOCKS: u32 = 4;

/// The words of one group of entries of a stream.
#[derive(Clone, Copy)]
pub struct Refill {
    /// Whether it holds words yet.
    pub filled: bool,
    pub stream: u64,
    /// The entries are those from 32 * group on.
    pub group: u32,
    pub words: [u32; 64],
}

/// A refill that holds no words.
pub const NONE: Refill = Refill {
    filled: false,
    stream: 0,
    group: 0,
    words: [0; 64],
};

// Reads one more word, to place `at` of the array.
#[inline(always)]
fn read_word(rng: &mut ChaCha20Rng, words: &mut [u32; 64], at: usize)
    requires room { at < 64 }
    requires place { rng.old.word_pos + 1 < 2 ^ 68 }
    requires read { AreRead rng.old at words.old }
    ensures read { AreRead rng.new (at + 1) words.new }
    ensures place { rng.new ≡ record rng.old { word_pos = rng.old.word_pos + 1 } }
{
    words[at] = rng.next_word();
}

// Reads four more words.
#[inline(always)]
fn read_four(rng: &mut ChaCha20Rng, words: &mut [u32; 64], at: usize)
    requires room { at + 4 ≤ 64 }
    requires place { rng.old.word_pos + 4 < 2 ^ 68 }
    requires read { AreRead rng.old at words.old }
    ensures read { AreRead rng.new (at + 4) words.new }
    ensures place { rng.new ≡ record rng.old { word_pos = rng.old.word_pos + 4 } }
{
    read_word(rng, words, at);
    read_word(rng, words, at + 1);
    read_word(rng, words, at + 2);
    read_word(rng, words, at + 3);
}

// Reads sixteen more words, which are a block.
#[inline(always)]
fn read_block(rng: &mut ChaCha20Rng, words: &mut [u32; 64], at: usize)
    requires room { at + 16 ≤ 64 }
    requires place { rng.old.word_pos + 16 < 2 ^ 68 }
    requires read { AreRead rng.old at words.old }
    ensures read { AreRead rng.new (at + 16) words.new }
    ensures place { rng.new ≡ record rng.old { word_pos = rng.old.word_pos + 16 } }
{
    read_four(rng, words, at);
    read_four(rng, words, at + 4);
    read_four(rng, words, at + 8);
    read_four(rng, words, at + 12);
}

/// Reads the words of a group of entries of a stream, by one refill of the cipher. The position is
/// set before the stream. Both are at the start of a block, so setting them causes no refill.
pub fn read_group(rng: &mut ChaCha20Rng, stream: u64, group: u32, words: &mut [u32; 64])
    requires { group < 2 ^ 26 }
    ensures words { AreWordsOf rng.old.key stream group words.new }
    ensures key { rng.new.key ≡ rng.old.key }
{
    rng.set_word_pos(64 * group as u128);
    rng.set_stream(stream);
    // Written out instead of a loop. This way the compiler sees that only the first word causes a
    // refill, and moves the other words many at a time.
    let mut read = [0; 64];
    read_block(rng, &mut read, 0);
    read_block(rng, &mut read, 16);
    read_block(rng, &mut read, 32);
    read_block(rng, &mut read, 48);
    *words = read;
}
