ghost use Rattle.std.specs.Prelude.{◌≡◌, ◌<◌, ◌≤◌, ◌+◌, ◌++◌, ◌∷◌, [], ◌^◌, length, map, IfOk, OnOk, OnErr, MatchResult, ⊤, vec_len, vec_capacity};
ghost use Rattle.pop_model.specs.Popping.{IsCube};
ghost use Rattle.claim_words.specs.KeptLogs.{record_of, pairs_in, entries_in};

use confluence_core::{Record, Ticketed, Tickets};
use pop_instance::Cube;
use std::alloc::{AllocError, Global};
use std::marker::Model;

/// The tickets of a pass that keeps a log. They are stored in two arrays that have room for
/// `spare` more pairs.
#[derive(Drop)]
pub(crate) struct KeptLog {
    // Ticket, unit and number of pairs of each record.
    heads: Vec<(u64, u32, u32)>,
    // Variable, value and entry of each pair, record after record.
    uses: Vec<(u32, u32, u32)>,
    // There is room for this many more pairs, and as many records.
    spare: usize,
}

impl Model for KeptLog {
    ghost use Rattle.std.specs.Prelude.{drop, ◌-◌, vec_len, vec_capacity};
    ghost use Rattle.claim_words.specs.KeptLogs.{Kept, AreKept, tickets_of, many_uses};

    ghost Value = { Kept };

    ghost view = { λ a. record {
      tickets = tickets_of a.heads.items a.uses.items;
      loose = drop (many_uses a.heads.items) a.uses.items;
      spare = a.spare;
    } };

    ghost invariant = { λ a. AreKept a.heads.items a.uses.items
        (vec_capacity a.heads - vec_len a.heads) (vec_capacity a.uses - vec_len a.uses) a.spare };
}

impl KeptLog {
    // A log with no tickets. It allocates nothing.
    pub(crate) fn new(alloc: Global) -> KeptLog
        ensures { result ≡ record { tickets = []; loose = []; spare = 0 } }
    {
        KeptLog {
            heads: Vec::new(alloc),
            uses: Vec::new(alloc),
            spare: 0,
        }
    }

    // Makes sure that there is room for this many more pairs, and as many records.
    pub(crate) fn reserve(&mut self, k: usize) -> Result<(), AllocError>
        requires { length self.old.loose ≡ 0 }
        ensures tickets { self.new.tickets ≡ self.old.tickets }
        ensures loose { self.new.loose ≡ self.old.loose }
        ensures room { IfOk result (λ _. k ≤ self.new.spare) }
        ensures more { self.old.spare ≤ self.new.spare }
        ensures kept { OnErr result (self.new.spare ≡ self.old.spare) }
    {
        self.uses.reserve(k)?;
        self.heads.reserve(k)?;
        if self.spare < k {
            self.spare = k;
        }
        Ok(())
    }

    // The number of pairs that there is room for.
    pub(crate) fn spare(&self) -> usize
        ensures { result ≡ self.now.spare }
    {
        self.spare
    }

    // Lowers the promised room to this number of pairs.
    pub(crate) fn lower(&mut self, spare: usize)
        requires { spare ≤ self.old.spare }
        ensures { self.new ≡ record self.old { spare = spare } }
    {
        self.spare = spare;
    }

    // Adds a pair of the next record.
    pub(crate) fn add(&mut self, variable: u32, value: u32, entry: u32)
        requires { 1 ≤ self.old.spare }
        ensures tickets { self.new.tickets ≡ self.old.tickets }
        ensures loose { self.new.loose ≡ self.old.loose ++ (variable, value, entry) ∷ [] }
        ensures spare { self.new.spare + 1 ≡ self.old.spare }
    {
        self.uses.push_reserved((variable, value, entry));
        self.spare -= 1;
    }

    // Makes a record of the pairs added last, with this ticket.
    pub(crate) fn seal(&mut self, ticket: u64, unit: u32, pairs: u32)
        requires cube { IsCube (pairs_in self.old.loose) }
        requires pairs { pairs ≡ length self.old.loose }
        requires short { length self.old.loose < 2 ^ 31 }
        ensures tickets { self.new.tickets
            ≡ self.old.tickets ++ (ticket, record_of unit self.old.loose) ∷ [] }
        ensures loose { self.new.loose ≡ [] }
        ensures spare { self.new.spare ≡ self.old.spare }
    {
        self.heads.push_reserved((ticket, unit, pairs));
    }

    // Takes over the tickets of another log. If memory runs out, the other log is returned.
    pub(crate) fn append(&mut self, other: KeptLog) -> Result<(), (KeptLog, AllocError)>
        requires { (length self.old.loose ≡ 0) × (length other.loose ≡ 0) }
        ensures tickets { OnOk result (self.new.tickets ≡ self.old.tickets ++ other.tickets) }
        ensures loose { OnOk result (length self.new.loose ≡ 0) }
        ensures spare { self.new.spare ≡ self.old.spare }
        ensures kept { MatchResult result (λ _. ⊤) (λ e. (self.new ≡ self.old) × (e.0 ≡ other)) }
    {
        if let Err(failed) = self.heads.reserve(other.heads.len() + self.spare) {
            return Err((other, failed));
        }
        if let Err(failed) = self.uses.reserve(other.uses.len() + self.spare) {
            return Err((other, failed));
        }
        let KeptLog {
            mut heads,
            mut uses,
            spare: _,
        } = other;
        move_all(&mut self.heads, &mut heads);
        move_all(&mut self.uses, &mut uses);
        drop(heads);
        drop(uses);
        Ok(())
    }

    // The tickets, with a copy of each record.
    pub(crate) fn tickets(&self, alloc: Global) -> Result<Tickets, AllocError>
        ensures { IfOk result (λ tickets. tickets ≡ self.now.tickets) }
    {
        let mut tickets = Tickets::new(alloc);
        if let Err(failed) = self.put_tickets(&mut tickets, alloc) {
            drop(tickets);
            return Err(failed);
        }
        Ok(tickets)
    }

    // Adds the tickets to an empty list.
    fn put_tickets(&self, tickets: &mut Tickets, alloc: Global) -> Result<(), AllocError>
        requires { tickets.old ≡ [] }
        ensures { IfOk result (λ _. tickets.new ≡ self.now.tickets) }
    {
        let mut at = 0;
        for head in &self.heads {
            let end = at + head.2 as usize;
            tickets.push(Ticketed {
                ticket: head.0,
                popped: made_record(alloc, head.1, &self.uses[at..end])?,
            })?;
            at = end;
        }
        Ok(())
    }
}

// The record of a unit and these uses.
fn made_record(alloc: Global, unit: u32, uses: &[(u32, u32, u32)]) -> Result<Record, AllocError>
    requires cube { IsCube (pairs_in uses.now) }
    requires short { length uses.now < 2 ^ 31 }
    ensures { IfOk result (λ popped. popped ≡ record_of unit uses.now) }
{
    let entries = entries_of(alloc, uses)?;
    match cube_of(alloc, uses) {
        Ok(cube) => Ok(Record::new(unit, cube, entries)),
        Err(failed) => {
            drop(entries);
            Err(failed)
        }
    }
}

// The cube of these uses.
fn cube_of(alloc: Global, uses: &[(u32, u32, u32)]) -> Result<Cube, AllocError>
    requires cube { IsCube (pairs_in uses.now) }
    requires short { length uses.now < 2 ^ 31 }
    ensures { IfOk result (λ cube. cube ≡ pairs_in uses.now) }
{
    let pairs = pairs_of(alloc, uses)?;
    let Some(cube) = Cube::new(pairs) else {
        unreachable!()
    };
    Ok(cube)
}

// The pairs of variable and value of these uses.
fn pairs_of(alloc: Global, uses: &[(u32, u32, u32)]) -> Result<Vec<(u32, u32)>, AllocError>
    ensures { IfOk result (λ pairs. pairs.items ≡ pairs_in uses.now) }
{
    uses.iter().map(|u| (u.0, u.1)).collect(alloc)
}

// The entries of these uses.
fn entries_of(alloc: Global, uses: &[(u32, u32, u32)]) -> Result<Vec<u32>, AllocError>
    ensures { IfOk result (λ entries. entries.items ≡ entries_in uses.now) }
{
    uses.iter().map(|u| u.2).collect(alloc)
}

// Moves all items to the end of a list that has room for them.
fn move_all<T>(to: &mut Vec<T>, from: &mut Vec<T>)
    requires { vec_len to.old + vec_len from.old ≤ vec_capacity to.old }
    ensures items { to.new.items ≡ to.old.items ++ from.old.items }
    ensures len { vec_len to.new ≡ vec_len to.old + vec_len from.old }
    ensures capacity { vec_capacity to.old ≤ vec_capacity to.new }
{
    if to.append(from).is_err() {
        unreachable!();
    }
}
