ghost use Rattle.std.specs.Prelude.{◌≡◌, ◌<◌, length, All, IfOk};
ghost use Rattle.pop_model.specs.Stacks.{variables_of};
ghost use Rattle.pop_model.specs.Popping.{NamesBelow, AreWithin};
ghost use Rattle.prs_rounds.specs.Values.{AreRead, shown_among};

use crate::front::Front;
use pop_instance::Events;
use std::alloc::{AllocError, Global};

/// Reads many variables and judges many events, on several threads or on the calling thread alone.
pub(crate) trait Looker {
    // What must hold of the implementing type, for example that threads may share what it borrows.
    ghost can_look: { Type 0 };

    /// The places, among these and in their order, of the events that occur with these values.
    fn occurring(
        &self,
        alloc: Global,
        events: &Events,
        values: &[u32],
        places: &[u32],
    ) -> Result<Vec<u32>, AllocError>
        requires can_look { can_look }
        requires known { All (λ u. u < length events.now) places.now }
        requires fits { All (λ r. NamesBelow r.1 (length values.now)) events.now }
        ensures { IfOk result (λ found.
            found.items ≡ shown_among values.now events.now places.now) };

    /// The values of these variables at a front.
    fn read(&self, alloc: Global, at: Front, variables: &[u32]) -> Result<Vec<u32>, AllocError>
        requires can_look { can_look }
        requires count { variables_of at.stacks.now ≡ length at.cursors.now }
        requires within { AreWithin at.stacks.now at.cursors.now }
        requires known { All (λ v. v < length at.cursors.now) variables.now }
        ensures len { IfOk result (λ values. length values.items ≡ length variables.now) }
        ensures read { IfOk result (λ values.
            AreRead at.entry.stacks.now at.entry.cursors.now variables.now 0 values.items) };
}
