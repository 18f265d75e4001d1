ghost use Rattle.std.specs.Prelude.{◌≡◌, ◌<◌, ◌++◌, ◌∷◌, [], length, map, slice_get, Some, OnOk, OnErr};
ghost use Rattle.confluence_core.specs.Tickets.{ticket_of};

use crate::Ticketed;
use std::alloc::{AllocError, Global};
use std::marker::Model;

/// Records under their tickets, in any order. Contracts see each as a pair of ticket and record.
#[derive(Drop)]
pub struct Tickets {
    members: Vec<Ticketed>,
}

impl Model for Tickets {
    ghost use Rattle.std.specs.Prelude.{ℕ, List, map};
    ghost use Rattle.pop_model.specs.Logs.{LogRecord};
    ghost use Rattle.confluence_core.specs.Tickets.{ticket_of};

    ghost Value = { List (ℕ × LogRecord) };

    ghost view = { λ a. map ticket_of a.members.items };
}

impl Tickets {
    /// No tickets. It allocates nothing.
    pub fn new(alloc: Global) -> Tickets
        ensures { result ≡ [] }
    {
        Tickets {
            members: Vec::new(alloc),
        }
    }

    /// The number of tickets.
    pub fn len(&self) -> u64
        ensures { result ≡ length self.now }
    {
        self.members.len() as u64
    }

    /// The ticket at place i of the list, counted from 0.
    pub fn at(&self, i: u64) -> &Ticketed
        requires known { i < length self.now }
        ensures { slice_get self.now i ≡ Some (ticket_of result.now) }
    {
        &self.members[i as usize]
    }

    /// Adds a ticket at the end.
    pub fn push(&mut self, member: Ticketed) -> Result<(), AllocError>
        ensures pushed { OnOk result (self.new ≡ self.old ++ ticket_of member ∷ []) }
        ensures kept { OnErr result (self.new ≡ self.old) }
    {
        self.members.push(member)?;
        Ok(())
    }

    /// The tickets as a list. It allocates nothing.
    pub fn into_vec(self) -> Vec<Ticketed>
        ensures { map ticket_of result.items ≡ self }
    {
        let Tickets { members } = self;
        members
    }
}
