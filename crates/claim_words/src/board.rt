ghost use Rattle.std.specs.Prelude.{◌^◌, replicate, ◌++◌, ◌≡◌, ◌+◌, ◌<◌, ◌≤◌, ◌∷◌, length, IfOk, OnErr};
ghost use Rattle.pop_model.specs.Stacks.{variables_of};
ghost use Rattle.pop_model.specs.Popping.{AreWithin};
ghost use Rattle.claim_words.specs.Openings.{marks_in, is_listed};
ghost use Rattle.claim_words.specs.Steps.{fresh};
ghost use Rattle.claim_words.specs.KeptLogs.{HasRoom};

use crate::layout::MARKED;
use crate::logging::{first_log, grow, lower, spare_of};
use crate::plays::Machine;
use crate::{Opening, Pass, View};
use atomic_table::Table;
use confluence_core::Keep;
use pop_instance::{Cursors, Family, Instance};
use std::alloc::{AllocError, Global};

/// A board: machine words that passes claim. They are the number of tickets, the cursor of each
/// variable of an instance and, for a listed family, a mark for each unit. Threads share a board
/// by `&`.
#[derive(Drop)]
pub struct Board<'i> {
    pub(crate) instance: &'i Instance,
    pub(crate) table: Table<(), View, Opening, Machine, Global>,
    pub(crate) count: u32,
    pub(crate) marks: u32,
    pub(crate) listed: bool,
    pub(crate) keep: Keep,
    pub(crate) alloc: Global,
    ghost slotless: { table.shared.table_id.slots ≡ 0 },
    ghost sized: { table.shared.table_id.words ≡ 1 + count + marks },
    ghost counted: { count ≡ variables_of table.shared.key.instance.value.stacks },
    ghost marked: { marks ≡ marks_in table.shared.key.instance.value.family },
    ghost family: { listed ≡ is_listed table.shared.key.instance.value.family },
}

impl<'i> Board<'i> {
    ghost use Rattle.claim_words.specs.Passes.{
      IsOf,
      view,
      spare,
      log_spare,
      keep_of,
      instance_of,
      opening_of,
    };

    /// The board with these cursors, which must be below the heights, and its first pass. The pass
    /// is idle and has all 64 shares. For a listed family all units are marked. The view of a pass
    /// says so if it is the only one and has changed no mark.
    pub fn start(
        alloc: Global,
        instance: &'i Instance,
        from: &Cursors,
        keep: Keep,
    ) -> Result<(Board<'i>, Pass), AllocError>
        requires count { length from.now ≡ variables_of instance.now.stacks }
        requires within { AreWithin instance.now.stacks from.now }
        ensures instance { IfOk result (λ r. instance_of r.0 ≡ instance.now) }
        ensures start { IfOk result (λ r. (opening_of r.0).start.value ≡ from.now) }
        ensures keep { IfOk result (λ r. keep_of r.0 ≡ keep) }
        ensures pass { IfOk result (λ r. IsOf r.0 r.1) }
        ensures fresh { IfOk result (λ r. view r.1 ≡ fresh (opening_of r.0)) }
    {
        let _units = instance.units();
        let count = instance.stacks().count();
        let marks = marks_in(instance);
        let words = opening_words(alloc, from, count, marks)?;
        let opening = Opening::of(instance, from);
        let made = Table::of_words(alloc, &words, &opening);
        drop(words);
        drop(opening);
        let (table, seat) = made?;
        let board = Board {
            instance,
            table,
            count,
            marks,
            listed: is_listed(instance),
            keep,
            alloc,
        };
        let pass = Pass {
            seat,
            held: Vec::new(alloc),
            share: 64,
            log: first_log(alloc, keep),
        };
        Ok((board, pass))
    }

    /// Makes sure that the pass has room for `k` claims and, if it keeps a log, for `k` pairs of
    /// records. These then allocate nothing. If memory runs out, the room stays as it was.
    pub fn reserve(&self, pass: &mut Pass, k: u32) -> Result<(), AllocError>
        requires pass { IsOf self.now pass.old }
        ensures pass { IsOf self.now pass.new }
        ensures room { IfOk result (λ _. k ≤ spare pass.new) }
        ensures log_room { IfOk result (λ _. HasRoom pass.new.log k) }
        ensures more { spare pass.old ≤ spare pass.new }
        ensures kept { OnErr result (spare pass.new ≡ spare pass.old) }
        ensures log_kept { OnErr result (log_spare pass.new ≡ log_spare pass.old) }
        ensures view { view pass.new ≡ view pass.old }
    {
        let before = spare_of(&pass.log);
        grow(&mut pass.log, k as usize)?;
        if let Err(failed) = pass.held.reserve(k as usize) {
            lower(&mut pass.log, before);
            return Err(failed);
        }
        Ok(())
    }
}

// The words of a board at its start: no ticket, these cursors, and all marks set.
fn opening_words(
    alloc: Global,
    from: &Cursors,
    count: u32,
    marks: u32,
) -> Result<Vec<u64>, AllocError>
    requires { count ≡ length from.now }
    ensures { IfOk result (λ words. words.items ≡ (0 ∷ from.now) ++ replicate marks 1) }
{
    let mut words = Vec::with_capacity(alloc, 1 + count as usize + marks as usize)?;
    words.push_reserved(0);
    for v in 0..count {
        words.push_reserved(from.get(v) as u64);
    }
    for unit in 0..marks {
        words.push_reserved(MARKED);
    }
    Ok(words)
}

// The number of units that have a mark.
pub(crate) fn marks_in(instance: &Instance) -> u32
    ensures marks { result ≡ marks_in instance.now.family }
    ensures short { result < 2 ^ 31 }
{
    match instance.family() {
        Family::Listed(events) => events.count(),
        Family::Cycles(_) => 0,
    }
}

// Whether the family of an instance is listed.
fn is_listed(instance: &Instance) -> bool
    ensures { result ≡ is_listed instance.now.family }
{
    match instance.family() {
        Family::Listed(_) => true,
        Family::Cycles(_) => false,
    }
}
