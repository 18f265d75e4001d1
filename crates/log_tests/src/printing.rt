ghost use Rattle.pop_model.specs.Logs.{IsLegal};
ghost use Rattle.pop_model.specs.Runs.{start_of};

use crate::comparing::same_text;
use crate::instances::of_events;
use crate::runs::log_of_run;
use confluence_core::Log;
use pop_instance::Instance;
use pop_log::{Names, print_layered, print_log};
use std::alloc::Global;
use std::process::Abort;
use test_instances::EventRow;

// The rows and the events of an instance, and the text of the log of its run from zeros: in layers
// or in the order of the log.
struct Case {
    rows: &'static [&'static [u32]],
    events: &'static [EventRow],
    in_layers: bool,
    text: &'static str,
}

// The text of a log, in layers or in its own order.
fn text_of(
    rt: &impl Abort,
    alloc: Global,
    instance: &Instance,
    log: &Log,
    in_layers: bool,
) -> Vec<u8>
    requires { IsLegal instance.now (start_of instance.now) log.now }
{
    if in_layers {
        return print_layered(alloc, instance, &Names::Plain, log).expect(rt, "memory");
    }
    print_log(alloc, instance, &Names::Plain, log).expect(rt, "memory")
}

// The text of the log of a run from zeros.
fn text_of_run(rt: &impl Abort, alloc: Global, instance: &Instance, in_layers: bool) -> Vec<u8> {
    let log = log_of_run(rt, alloc, instance);
    let text = text_of(rt, alloc, instance, &log, in_layers);
    drop(log);
    text
}

// Compares the text of the log of a run from zeros.
fn prints(rt: &impl Abort, alloc: Global, case: &Case) {
    let instance = of_events(rt, alloc, case.rows, case.events);
    let text = text_of_run(rt, alloc, &instance, case.in_layers);
    drop(instance);
    same_text(rt, &text, case.text);
    drop(text);
}

// The variables have the entries 0, 1, 1 and 0, 0, 1. The clauses `1 2` and `-1 2`, under the
// numbers 3 and 4.
static PLAIN: Case = Case {
    rows: &[&[0, 1, 1], &[0, 0, 1]],
    events: &[(3, &[(0, 0), (1, 0)]), (4, &[(0, 1), (1, 0)])],
    in_layers: false,
    text: "log 1 2\npop 3 1:0 2:0\npop 4 1:1 2:1\n",
};

// Worked by hand.
#[test]
fn a_record_has_the_number_of_its_event_and_the_entries_used(rt: HostRuntime) {
    prints(&rt, rt.alloc(), &PLAIN);
}

// The variables have the entries 0, 0, 1 and 0, 1. The clauses `1` and `2`.
static LAYERED: Case = Case {
    rows: &[&[0, 0, 1], &[0, 1]],
    events: &[(1, &[(0, 0)]), (2, &[(1, 0)])],
    in_layers: true,
    text: "log 2 3\npop 1 1 1:0\npop 1 2 2:0\npop 2 1 1:1\n",
};

// Worked by hand: the second pop of the first clause must follow its first, and no other pop
// depends on another.
#[test]
fn a_record_stands_in_its_layer(rt: HostRuntime) {
    prints(&rt, rt.alloc(), &LAYERED);
}
