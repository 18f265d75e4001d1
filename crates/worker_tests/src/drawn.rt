//! Random arrows towards a root.
ghost use Rattle.std.specs.Prelude.{◌<◌, ◌≤◌, ◌^◌, length, All};
ghost use Rattle.pop_instance.specs.Arrows.{heads_of};

use pop_instance::{Arrows, Family};
use std::alloc::Global;
use std::process::Abort;
use test_instances::below;

// The heads of this many variables. Each has an arrow to a lower variable or to the root, and one
// to itself or a higher variable.
fn heads(rt: &impl Abort, alloc: Global, state: &mut u64, count: u32) -> Vec<Vec<Option<u32>>>
    requires some { 0 < count }
    requires few { count < 1000 }
    ensures short { length result.items ≤ count }
    ensures short_rows { All (λ row. length row < 2 ^ 31) (heads_of result.items) }
{
    let mut heads = Vec::new(alloc);
    for v in 0..count {
        let before = below(state, v + 1).checked_sub(1);
        let behind = v + below(state, count - v);
        let row = Vec::from_slice(alloc, &[before, Some(behind)]).expect(rt, "memory");
        heads.push(row).expect(rt, "memory");
    }
    heads
}

/// The cycles of the arrows with the heads of `heads`.
pub(crate) fn arrows(rt: &impl Abort, alloc: Global, state: &mut u64, count: u32) -> Family {
    assert!(rt; 0 < count);
    assert!(rt; count < 1000);
    let heads = heads(rt, alloc, state, count);
    Family::Cycles(Arrows::new(heads).expect(rt, "arrows"))
}
