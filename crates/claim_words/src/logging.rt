//! Operations on the log of a pass, which do nothing if no log is kept.
ghost use Rattle.std.specs.Prelude.{◌≡◌, ◌≤◌, ◌∷◌, [], length, false, is_some, IfOk, IfSome, IsOk, OnErr, MatchResult};
ghost use Rattle.confluence_core.specs.Kept.{keeps_log};
ghost use Rattle.claim_words.specs.KeptLogs.{HasTickets, HasRoom, SameTickets, spare_in, Adds, Seals, IsSealable, Unites, IsTold};

use crate::kept_log::KeptLog;
use confluence_core::{Keep, Tickets};
use std::alloc::{AllocError, Global};

// A log with no tickets, if a log is kept.
pub(crate) fn first_log(alloc: Global, keep: Keep) -> Option<KeptLog>
    ensures tickets { HasTickets result [] }
    ensures kept { is_some result ≡ keeps_log keep }
    ensures spare { spare_in result ≡ 0 }
{
    match keep {
        Keep::Nothing => None,
        Keep::Log => Some(KeptLog::new(alloc)),
    }
}

// The number of pairs that there is room for.
pub(crate) fn spare_of(log: &Option<KeptLog>) -> usize
    ensures { result ≡ spare_in log.now }
{
    match log {
        None => 0,
        Some(log) => log.spare(),
    }
}

// Makes sure that there is room for this many pairs.
pub(crate) fn grow(log: &mut Option<KeptLog>, k: usize) -> Result<(), AllocError>
    requires { IfSome log.old (λ l. length l.loose ≡ 0) }
    ensures same { SameTickets log.old log.new }
    ensures room { IfOk result (λ _. HasRoom log.new k) }
    ensures more { spare_in log.old ≤ spare_in log.new }
    ensures kept { OnErr result (spare_in log.new ≡ spare_in log.old) }
{
    match log {
        None => Ok(()),
        Some(log) => log.reserve(k),
    }
}

// Lowers the promised room to this number of pairs.
pub(crate) fn lower(log: &mut Option<KeptLog>, spare: usize)
    requires { spare ≤ spare_in log.old }
    ensures same { SameTickets log.old log.new }
    ensures spare { spare_in log.new ≡ spare }
{
    if let Some(log) = log {
        log.lower(spare);
    }
}

// Adds a pair of the next record.
pub(crate) fn add_use(log: &mut Option<KeptLog>, variable: u32, value: u32, entry: u32)
    requires { HasRoom log.old 1 }
    ensures { Adds log.old log.new ((variable, value, entry) ∷ []) }
{
    if let Some(log) = log {
        log.add(variable, value, entry);
    }
}

// Makes a record of the pairs added last, with this ticket.
pub(crate) fn seal(log: &mut Option<KeptLog>, ticket: u64, unit: u32, pairs: u32)
    requires { IsSealable log.old pairs }
    ensures { Seals log.old log.new ticket unit }
{
    if let Some(log) = log {
        log.seal(ticket, unit, pairs);
    }
}

// Takes over the tickets of the other log. If memory runs out, the other log is returned. This
// cannot happen if the first log is not kept.
pub(crate) fn unite(
    log: &mut Option<KeptLog>,
    other: Option<KeptLog>,
) -> Result<(), (Option<KeptLog>, AllocError)>
    requires { IfSome log.old (λ l. length l.loose ≡ 0) × IfSome other (λ l. length l.loose ≡ 0) }
    ensures both { MatchResult result (λ _. Unites log.old other log.new)
        (λ e. (log.new ≡ log.old) × (e.0 ≡ other)) }
    ensures granted { is_some log.old ≡ false → IsOk result }
{
    let Some(mine) = log else {
        return Ok(());
    };
    let Some(theirs) = other else {
        return Ok(());
    };
    match mine.append(theirs) {
        Ok(()) => Ok(()),
        Err((theirs, failed)) => Err((Some(theirs), failed)),
    }
}

// The tickets, with a copy of each record, if they are kept.
pub(crate) fn told_tickets(
    alloc: Global,
    log: &Option<KeptLog>,
) -> Result<Option<Tickets>, AllocError>
    ensures { IfOk result (IsTold log.now) }
{
    match log {
        None => Ok(None),
        Some(log) => Ok(Some(log.tickets(alloc)?)),
    }
}
