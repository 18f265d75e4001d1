use crate::front::Front;
use crate::looker::Looker;
use crate::shown::occurring;
use crate::values::read;
use pop_instance::Events;
use std::alloc::{AllocError, Global};
use std::thread::Threads;

/// Reads and judges on several threads, if there are many items.
#[derive(Drop)]
pub(crate) struct OnThreads<'a, R> {
    pub rt: &'a R,
}

impl<'a, R: Threads + Sync> Looker for OnThreads<'a, R> {
    ghost use Rattle.std.specs.Thread.{IsSync};

    ghost can_look = { IsSync R.row };

    fn occurring(
        &self,
        alloc: Global,
        events: &Events,
        values: &[u32],
        places: &[u32],
    ) -> Result<Vec<u32>, AllocError> {
        occurring(self.rt, alloc, events, values, places)
    }

    fn read(&self, alloc: Global, at: Front, variables: &[u32]) -> Result<Vec<u32>, AllocError> {
        read(self.rt, alloc, at, variables)
    }
}
