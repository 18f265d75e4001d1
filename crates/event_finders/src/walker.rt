ghost use Rattle.std.specs.Prelude.{◌≡◌, ◌<◌, ◌≤◌, ◌+◌, ◌^◌, ◌++◌, ◌∷◌, [], drop, length, slice_index, IfOk, MatchOption};
ghost use Rattle.pop_model.specs.Popping.{variables};
ghost use Rattle.claim_words.specs.Maps.{times_in};
ghost use Rattle.event_finders.specs.Trails.{IsTrail, resting, stand, last_of};

use pop_instance::Cube;
use std::alloc::{AllocError, Global};
use std::marker::Model;
use std::mem;

/// The memory that a thread keeps for its walks. It is made once, and each walk reuses it.
/// Contracts see its number of variables, and the path of a walk, which is empty between walks.
#[derive(Drop)]
pub struct Walker {
    // The mark of a variable on the path is its place there. The mark of any other variable has no
    // meaning.
    marks: Vec<u32>,
    // Each variable of the path with its cursor.
    path: Vec<(u32, u32)>,
    // The list that is used to collect the pairs of a popped cycle.
    pairs: Vec<(u32, u32)>,
    alloc: Global,
}

impl Model for Walker {
    ghost use Rattle.std.specs.Prelude.{length, vec_capacity};
    ghost use Rattle.event_finders.specs.Trails.{Trail, IsKept};

    ghost Value = { Trail };

    ghost view = { λ a. record { count = length a.marks.items; path = a.path.items } };

    ghost invariant = { λ a. IsKept a.marks.items a.path.items (vec_capacity a.path) };
}

impl Walker {
    /// A walker for this many variables, with room for a path and a cycle of all of them.
    pub fn new(alloc: Global, count: u32) -> Result<Walker, AllocError>
        requires short { count < 2 ^ 31 }
        ensures { IfOk result (λ walker. walker ≡ resting count) }
    {
        let count = count as usize;
        Ok(Walker {
            marks: vec![in alloc; 0; count]?,
            path: Vec::with_capacity(alloc, count)?,
            pairs: Vec::with_capacity(alloc, count)?,
            alloc,
        })
    }

    // The number of variables on the path.
    pub(crate) fn len(&self) -> usize
        ensures len { result ≡ length self.now.path }
        ensures trail { IsTrail self.now.count self.now.path }
    {
        self.path.len()
    }

    // The place of a variable on the path, or None if it is not there. The variable is there only
    // if it is found at the place that its mark gives.
    pub(crate) fn place(&self, v: u32) -> Option<usize>
        requires known { v < self.now.count }
        ensures { MatchOption result (times_in v (variables self.now.path) ≡ 0)
            (λ j. (j < length self.now.path) × (slice_index (variables self.now.path) j ≡ v)) }
    {
        let place = self.marks[v as usize] as usize;
        if place >= self.path.len() {
            return None;
        }
        if self.path[place].0 != v {
            return None;
        }
        Some(place)
    }

    // The variable and the cursor at a place of the path.
    pub(crate) fn at(&self, j: usize) -> (u32, u32)
        requires { j < length self.now.path }
        ensures { result ≡ stand self.now.path j }
    {
        self.path[j]
    }

    // The variable and the cursor at the end of the path.
    pub(crate) fn last(&self) -> (u32, u32)
        requires { 0 < length self.now.path }
        ensures last { result ≡ last_of self.now.path }
        ensures trail { IsTrail self.now.count self.now.path }
    {
        self.path[self.path.len() - 1]
    }

    // The variables and cursors from a place of the path on.
    pub(crate) fn tail(&self, place: usize) -> &[(u32, u32)]
        requires { place ≤ length self.now.path }
        ensures { result.now ≡ drop place self.now.path }
    {
        &self.path[place..]
    }

    // Adds a variable with its cursor at the end of the path.
    pub(crate) fn push(&mut self, v: u32, cursor: u32)
        requires known { v < self.old.count }
        requires fresh { times_in v (variables self.old.path) ≡ 0 }
        ensures path { self.new ≡ record self.old { path = self.old.path ++ (v, cursor) ∷ [] } }
        ensures trail { IsTrail self.new.count self.new.path }
    {
        self.marks[v as usize] = self.path.len() as u32;
        self.path.push_reserved((v, cursor));
    }

    // Removes the last variable of the path. Its mark stays.
    pub(crate) fn pop(&mut self) -> (u32, u32)
        requires { 0 < length self.old.path }
        ensures path { self.old.path ≡ self.new.path ++ result ∷ [] }
        ensures count { self.new.count ≡ self.old.count }
        ensures shorter { length self.old.path ≡ length self.new.path + 1 }
        ensures trail { IsTrail self.new.count self.new.path }
    {
        let Some(last) = self.path.pop() else {
            unreachable!()
        };
        last
    }

    // An empty list for the pairs of a cycle. `keep_pairs_of` gives it back to the walker;
    // otherwise the next cycle starts with a list without capacity.
    pub(crate) fn take_pairs(&mut self) -> Vec<(u32, u32)>
        ensures empty { result.items ≡ [] }
        ensures walker { self.new ≡ self.old }
    {
        let mut pairs = mem::replace(&mut self.pairs, Vec::new(self.alloc));
        pairs.clear();
        pairs
    }

    // Takes back the list of a cube's pairs, so that the next cycle can use its capacity.
    pub(crate) fn keep_pairs_of(&mut self, cube: Cube)
        ensures { self.new ≡ self.old }
    {
        if let Ok(pairs) = cube.into_pairs(self.alloc) {
            self.pairs = pairs;
        }
    }
}
