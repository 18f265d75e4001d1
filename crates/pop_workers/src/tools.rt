ghost use Rattle.std.specs.Prelude.{◌≡◌, IfOk};
ghost use Rattle.pop_stacks.specs.Readers.{Belongs};
ghost use Rattle.pop_workers.specs.Attempts.{AreTools, IsWalker};

use event_finders::Walker;
use pop_instance::{Family, Instance};
use pop_stacks::Reader;
use std::alloc::{AllocError, Global};

/// What a worker needs for its searches: its number, a reader with a cache and, for a cycle
/// family, the memory of a walk.
#[derive(Drop)]
pub(crate) struct Tools {
    pub worker: u32,
    pub reader: Reader,
    pub walker: Option<Walker>,
}

impl Tools {
    /// The tools of a worker for the events of an instance. Its reader has an empty cache.
    pub fn of(alloc: Global, instance: &Instance, worker: u32) -> Result<Tools, AllocError>
        ensures tools { IfOk result (λ tools. AreTools instance.now tools.reader tools.walker) }
        ensures worker { IfOk result (λ tools. tools.worker ≡ worker) }
    {
        let reader = Reader::keeping(alloc, instance.stacks())?;
        Tools::with(alloc, instance, worker, reader)
    }

    /// The tools of a worker with this reader.
    pub fn with(
        alloc: Global,
        instance: &Instance,
        worker: u32,
        reader: Reader,
    ) -> Result<Tools, AllocError>
        requires belongs { Belongs instance.now.stacks reader }
        ensures tools { IfOk result (λ tools. AreTools instance.now tools.reader tools.walker) }
        ensures worker { IfOk result (λ tools. tools.worker ≡ worker) }
    {
        let Ok(walker) = walker_for(alloc, instance) else {
            drop(reader);
            return Err(AllocError);
        };
        Ok(Tools {
            worker,
            reader,
            walker,
        })
    }
}

// A walker between walks, for a cycle family.
fn walker_for(alloc: Global, instance: &Instance) -> Result<Option<Walker>, AllocError>
    ensures { IfOk result (IsWalker instance.now) }
{
    let _units = instance.units();
    match instance.family() {
        Family::Listed(_) => Ok(None),
        Family::Cycles(_) => Ok(Some(Walker::new(alloc, instance.stacks().count())?)),
    }
}
