//! The words of the key stream, as entries show them.
use crate::readers::look_afresh;
use crate::tables::weights;
use pop_stacks::{StackSpec, Stacks};
use std::alloc::Global;
use std::process::Abort;

// RFC 8439, A.1, vectors 1 and 2: the key of zeros, stream 0, blocks 0 and 1. The low word of each
// entry is first.
static WORDS: [(u32, u32); 16] = [
    (0xade0b876, 0x903df1a0),
    (0xe56a5d40, 0x28bd8653),
    (0xb819d2bd, 0x1aed8da0),
    (0xccef36a8, 0xc70d778b),
    (0x7c5941da, 0x8d485751),
    (0x3fe02477, 0x374ad8b8),
    (0xf4b8436a, 0x1ca11815),
    (0x69b687c3, 0x8665eeb2),
    (0xbee7079f, 0x7a385155),
    (0x7c97ba98, 0x0d082d73),
    (0xa0290fcb, 0x6965e348),
    (0x3e53c612, 0xed7aee32),
    (0x7621b729, 0x434ee69c),
    (0xb03371d5, 0xd539d874),
    (0x281fed31, 0x45fb0a51),
    (0x1f0ae1ac, 0x6f4d794b),
];

// The stacks of variable 0 under the key of zeros and two weights with the largest possible sum,
// 2^32 - 1.
fn stacks(rt: &impl Abort, alloc: Global, first: u32) -> Stacks {
    let weights = weights(rt, alloc, &[&[first, u32::MAX - first]]);
    Stacks::new(StackSpec::Key([0; 32]), weights, 64).expect(rt, "stacks")
}

// Compares entry k of these stacks.
fn is_value(rt: &impl Abort, alloc: Global, k: u32, first: u32, value: u32) {
    let stacks = stacks(rt, alloc, first);
    look_afresh(rt, &stacks, 0, k, value);
    drop(stacks);
}

// The two words of an entry were scaled by that sum by hand. The result is the high word, or one
// less if the low word is not above it. If the first weight is this number, the value is the
// second one. If the first weight is one more, the value is the first one.
#[test]
fn the_words_are_those_of_the_standard(rt: HostRuntime) {
    let alloc = rt.alloc();
    for (k, (low, high)) in WORDS.iter().enumerate() {
        let scaled = high.saturating_sub((low <= high) as u32);
        let next = scaled.checked_add(1).expect(&rt, "a lesser number");
        is_value(&rt, alloc, k as u32, scaled, 1);
        is_value(&rt, alloc, k as u32, next, 0);
    }
}
