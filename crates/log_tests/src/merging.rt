ghost use Rattle.std.specs.Prelude.{◌≡◌, [], ◌++◌, ◌∷◌};
ghost use Rattle.pop_model.specs.Logs.{LogRecord};
ghost use Rattle.pop_model.specs.Tickets.{AreNumbered};

use crate::records::popped;
use confluence_core::{Log, Ticketed, Tickets};
use pop_log::merge;
use std::alloc::Global;
use std::process::Abort;

// Adds the record of an event of this unit, below 99, under a ticket.
fn push_ticket(rt: &impl Abort, alloc: Global, tickets: &mut Tickets, ticket: u64, unit: u32)
    ensures { (popped : LogRecord) × (tickets.new ≡ tickets.old ++ (ticket, popped) ∷ []) }
{
    let popped = popped(rt, alloc, 99, unit, &[unit]);
    tickets
        .push(Ticketed { ticket, popped })
        .expect(rt, "memory");
}

// Adds the tickets 2, 0 and 1.
fn push_three(rt: &impl Abort, alloc: Global, tickets: &mut Tickets)
    requires { tickets.old ≡ [] }
    ensures { AreNumbered tickets.new }
{
    push_ticket(rt, alloc, tickets, 2, 40);
    push_ticket(rt, alloc, tickets, 0, 60);
    push_ticket(rt, alloc, tickets, 1, 50);
}

// Compares the units of a log.
fn has_units(rt: &impl Abort, log: &Log, units: &[u32]) {
    assert!(rt; log.len() == units.len() as u64);
    for i in 0..log.len() {
        assert!(rt; log.at(i).unit() == units[i as usize], "record {i}");
    }
}

#[test]
fn records_stand_in_the_order_of_their_tickets(rt: HostRuntime) {
    let mut tickets = Tickets::new(rt.alloc());
    push_three(&rt, rt.alloc(), &mut tickets);
    let log = merge(rt.alloc(), tickets).expect(&rt, "memory");
    has_units(&rt, &log, &[60, 50, 40]);
    drop(log);
}

#[test]
fn no_tickets_give_the_empty_log(rt: HostRuntime) {
    let log = merge(rt.alloc(), Tickets::new(rt.alloc())).expect(&rt, "memory");
    has_units(&rt, &log, &[]);
    drop(log);
}
