//! A run to continue.
ghost use Rattle.std.specs.Prelude.{IfOk};
ghost use Rattle.pop_instance.specs.Index.{IsFamilyIndex};
ghost use Rattle.growing_instances.specs.Growing.{MayIndex};

use crate::crew::Crew;
use confluence_core::Reached;
use pop_instance::{Index, Instance};
use std::alloc::{AllocError, Global};

/// The state of a run of an instance that is to be continued to its end, with the index of the
/// family if it is at hand.
#[derive(Drop)]
pub struct Stretch<'t> {
    pub alloc: Global,
    pub crew: Crew,
    pub instance: &'t Instance,
    pub at_hand: Option<Index>,
    pub reached: Reached,
}

/// The index of the family: the one that is at hand, or a new one.
pub fn index_of(
    alloc: Global,
    instance: &Instance,
    at_hand: Option<Index>,
) -> Result<Option<Index>, AllocError>
    requires { MayIndex instance.now.family at_hand }
    ensures { IfOk result (IsFamilyIndex instance.now.family) }
{
    match at_hand {
        Some(index) => Ok(Some(index)),
        None => instance.index(alloc),
    }
}
