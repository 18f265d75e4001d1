use crate::front::Front;
use crate::looker::Looker;
use crate::shown::is_shown;
use crate::values::read_each;
use pop_instance::Events;
use std::alloc::{AllocError, Global};

/// Reads and compares on the calling thread alone, one item after another.
#[derive(Drop)]
pub(crate) struct Alone;

impl Looker for Alone {
    ghost can_look = { Unit {0} };

    fn occurring(
        &self,
        alloc: Global,
        events: &Events,
        values: &[u32],
        places: &[u32],
    ) -> Result<Vec<u32>, AllocError> {
        let mut found = Vec::new(alloc);
        for place in places {
            if is_shown(values, events.cube(*place)) {
                found.push(*place)?;
            }
        }
        Ok(found)
    }

    fn read(&self, alloc: Global, at: Front, variables: &[u32]) -> Result<Vec<u32>, AllocError> {
        Ok(read_each(alloc, at, variables)?)
    }
}
