ghost use Rattle.std.specs.Prelude.{◌≡◌};
ghost use Rattle.pop_stacks.specs.Readers.{Belongs};

use crate::compare::same_at;
use pop_stacks::{Reader, Rows, StackSpec, Stacks, Weights};
use std::alloc::{AllocError, Global};
use std::process::Abort;

// Compares entry k of variable 0.
fn looks(rt: &impl Abort, stacks: &Stacks, reader: &mut Reader, k: u32, value: u32)
    requires { Belongs stacks.now reader.old }
    ensures { reader.new ≡ reader.old }
{
    assert!(rt; 0 < stacks.count());
    assert!(rt; k < stacks.height(0));
    let found = reader.entry(stacks, 0, k);
    same_at(rt, found, value, "entry", k as u64);
}

// Compares entries of stacks under even and under uneven weights, in turn.
fn looks_at_both(rt: &impl Abort, even: &Stacks, uneven: &Stacks, reader: &mut Reader)
    requires even { Belongs even.now reader.old }
    requires uneven { Belongs uneven.now reader.old }
{
    looks(rt, even, reader, 0, 1);
    looks(rt, uneven, reader, 0, 0);
    looks(rt, even, reader, 3, 1);
    looks(rt, uneven, reader, 3, 1);
    looks(rt, uneven, reader, 4, 0);
    looks(rt, even, reader, 4, 1);
}

// The weights 2 and 1 of one variable.
fn two_and_one(alloc: Global) -> Result<Weights, AllocError> {
    let row = Vec::from_slice(alloc, &[2, 1])?;
    let rows = vec![in alloc; row]?;
    Ok(Weights::of(Rows::of(rows)))
}

// The numbers of the entries are the words of RFC 8439, A.1, vector 1. They were scaled to the
// sums of the weights 1 and 1, and 2 and 1, by hand.
#[test]
fn a_plain_reader_serves_stacks_of_the_same_key_with_other_weights(rt: HostRuntime) {
    let weights = two_and_one(rt.alloc()).expect(&rt, "memory");
    let uneven = Stacks::new(StackSpec::Key([0; 32]), weights, 8).expect(&rt, "memory");
    let even = Stacks::new(StackSpec::Key([0; 32]), Weights::pairs(1), 8).expect(&rt, "memory");
    let mut reader = Reader::new(&even);
    looks_at_both(&rt, &even, &uneven, &mut reader);
    drop(reader);
    drop(even);
    drop(uneven);
}
