//! The source of the entries of stacks.
ghost use Rattle.std.specs.Prelude.{◌≡◌, ◌<◌, ◌≤◌, ◌^◌, length, unwrap_or, IfOk, IfErr, OnOk, IfSome, MatchOption};
ghost use Rattle.pop_model.specs.Stacks.{IsKeyed};
ghost use Rattle.pop_stacks.specs.Tables.{origin_of};
ghost use Rattle.pop_stacks.specs.Faults.{IsSound};
ghost use Rattle.job_subjects.specs.Refusals.{IsRefusal};
ghost use Rattle.job_subjects.specs.StackFaults.{AreFaulty};

use crate::refusal::{Refusal, unsound};
use growing_instances::GrowingStacks;
use pop_print::Facts;
use pop_stacks::{StackSpec, Stacks, Weights};
use std::alloc::{AllocError, Global};
use std::marker::Model;

/// The source of the entries of stacks: given rows, or a key with a first and a last height, from
/// 1 to 2^31 - 1. Contracts see the source at the last height.
#[derive(Drop)]
pub struct StackOrigin {
    spec: StackSpec,
    // The height of the stacks when they are made, and their last height.
    first: u32,
    last: u32,
}

impl Model for StackOrigin {
    ghost use Rattle.std.specs.Prelude.{◌<◌, ◌≤◌, ◌^◌};
    ghost use Rattle.pop_model.specs.Stacks.{Origin};
    ghost use Rattle.pop_stacks.specs.Tables.{origin_of};

    ghost Value = { Origin };

    ghost view = { λ a. origin_of a.spec a.last };

    ghost invariant = { λ a. (0 < a.first) × (a.first ≤ a.last) × (a.last < 2 ^ 31) };
}

// The last height, if stacks have to grow to it: they have a key, and it is greater than the first
// height.
fn growth(spec: &StackSpec, first: u32, last: u32) -> Option<u32>
    requires { first ≤ last }
    ensures { MatchOption result (origin_of spec.now first ≡ origin_of spec.now last)
        (λ height. (height ≡ last) × IsKeyed (origin_of spec.now first)) }
{
    match spec {
        StackSpec::Key(_) => { if first < last { Some(last) } else { None } }
        StackSpec::Given(_) => None,
    }
}

/// A copy of these rows, or the same key.
pub fn copy_spec(alloc: Global, spec: &StackSpec) -> Result<StackSpec, AllocError>
    ensures { IfOk result (λ copy. copy ≡ spec.now) }
{
    match spec {
        StackSpec::Key(key) => Ok(StackSpec::Key(*key)),
        StackSpec::Given(rows) => Ok(StackSpec::Given(rows.copy(alloc)?)),
    }
}

impl StackOrigin {
    /// These rows, or this key with this height. If there is a height to grow to, the stacks grow
    /// to it from the lower of the two heights.
    pub fn new(spec: StackSpec, height: u32, grow: Option<u32>) -> StackOrigin
        requires some { 0 < height }
        requires short { height < 2 ^ 31 }
        requires grow { IfSome grow (λ last. (0 < last) × (last < 2 ^ 31)) }
        ensures { result ≡ origin_of spec (unwrap_or grow height) }
    {
        let last = grow.unwrap_or(height);
        let first = height.min(last);
        StackOrigin { spec, first, last }
    }

    /// The stacks with these weights, at the first height, or their first fault. The facts name
    /// the variable of a fault. Faults do not depend on the height.
    pub fn stacks(self, facts: &Facts, weights: Weights) -> Result<GrowingStacks, Refusal>
        requires few { length weights < 2 ^ 31 }
        ensures made { IfOk result (λ stacks.
            stacks ≡ record { origin = self; weights = weights }) }
        ensures sound { OnOk result (IsSound self weights) }
        ensures fault { IfErr result (IsRefusal (AreFaulty facts.now self weights)) }
    {
        let last = growth(&self.spec, self.first, self.last);
        match Stacks::new(self.spec, weights, self.first) {
            Ok(stacks) => Ok(GrowingStacks::new(stacks, last)),
            Err(fault) => Err(unsound(facts, fault)),
        }
    }
}
