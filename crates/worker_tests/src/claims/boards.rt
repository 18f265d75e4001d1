//! Boards that threads work on together, to the end of the one-thread run.
ghost use Rattle.std.specs.Prelude.{◌≡◌, ◌+◌, ◌<◌, length, All};
ghost use Rattle.pop_model.specs.Stacks.{variables_of};
ghost use Rattle.claim_words.specs.Passes.{IsOf, IsIdle, IsHelper, IsSole, view, instance_of};

use super::instances::{chain, tree};
use super::working::work;
use crate::comparing::{is_so, same};
use crate::passes::{close, started};
use claim_words::{Board, Closed, Pass};
use confluence_core::{End, Keep, run_first};
use pop_instance::Instance;
use std::alloc::Global;
use std::process::Abort;
use std::thread;
use std::thread::Threads;
use test_instances::are_cursors_alike;

// The number of boards that are tried, and the number of threads on each.
const BOARDS: u32 = 1000;

const THREADS: u32 = 2;

// The largest number of turns of a thread on one board.
const TURNS: u32 = 10000;

// A pass of share 1, for another thread.
fn helper(board: &Board, pass: &mut Pass) -> Pass
    requires pass { IsOf board.now pass.old × IsIdle pass.old }
    requires share { 1 < (view pass.old).share }
    ensures pass { IsOf board.now pass.new × IsIdle pass.new }
    ensures helper { IsHelper board.now result }
    ensures share { (view pass.new).share + 1 ≡ (view pass.old).share }
{
    board.split(pass, 1)
}

// This many passes of share 1.
fn hand_out(
    rt: &impl Abort,
    alloc: Global,
    board: &Board,
    pass: &mut Pass,
    others: u32,
) -> Vec<Pass>
    requires pass { IsOf board.now pass.old × IsIdle pass.old }
    requires share { others < (view pass.old).share }
    ensures pass { IsOf board.now pass.new × IsIdle pass.new }
    ensures passes { All (IsHelper board.now) result.items }
    ensures share { (view pass.new).share + length result.items ≡ (view pass.old).share }
{
    let mut passes = Vec::with_capacity(alloc, others as usize).expect(rt, "memory");
    for _ in 0..others {
        passes.push_reserved(helper(board, pass));
    }
    passes
}

// The work of one thread. It returns its pass.
fn worked(
    rt: &impl Abort,
    alloc: Global,
    board: &Board,
    mut pass: Pass,
    instance: &Instance,
) -> Pass
    requires pass { IsHelper board.now pass }
    requires instance { instance_of board.now ≡ instance.now }
    ensures { IsHelper board.now result }
{
    work(rt, alloc, board, &mut pass, instance, TURNS);
    pass
}

// Joins the passes again.
fn take_back(rt: &impl Abort, board: &Board, pass: &mut Pass, passes: Vec<Pass>)
    requires pass { IsOf board.now pass.old × IsIdle pass.old }
    requires passes { All (IsHelper board.now) passes.items }
    ensures pass { IsOf board.now pass.new × IsIdle pass.new }
{
    for other in passes {
        if board.rejoin(pass, other).is_err() {
            panic!(rt; "out of memory");
        }
    }
}

// Lets the threads work on a board.
fn work_together<R: Threads + Abort + Sync>(
    rt: &R,
    alloc: Global,
    board: &Board,
    pass: &mut Pass,
    instance: &Instance,
)
    requires pass { IsOf board.now pass.old × IsIdle pass.old }
    requires share { (view pass.old).share ≡ 64 }
    requires instance { instance_of board.now ≡ instance.now }
    ensures { IsOf board.now pass.new × IsIdle pass.new }
{
    let passes = hand_out(rt, alloc, board, pass, THREADS);
    let back = thread::map_vec(
        rt,
        passes,
        &|pass: Pass| worked(rt, alloc, board, pass, instance),
    );
    take_back(rt, board, pass, back.expect(rt, "threads"));
}

// Works alone to the end of a board. The pass must have all shares again.
fn work_to_end(rt: &impl Abort, alloc: Global, board: &Board, pass: &mut Pass, instance: &Instance)
    requires pass { IsOf board.now pass.old × IsIdle pass.old }
    requires instance { instance_of board.now ≡ instance.now }
    ensures pass { IsOf board.now pass.new }
    ensures idle { IsIdle pass.new }
    ensures sole { IsSole pass.new }
{
    let at_end = work(rt, alloc, board, pass, instance, TURNS);
    assert!(rt; at_end);
    same(rt, pass.share() as u64, 64, "shares");
}

// Lets the threads work on a board, and then ends it alone.
fn close_together<R: Threads + Abort + Sync>(rt: &R, alloc: Global, instance: &Instance) -> Closed
    ensures { length result.cursors ≡ variables_of instance.now.stacks }
{
    let (board, mut pass) = started(rt, alloc, instance, Keep::Log);
    work_together(rt, alloc, &board, &mut pass, instance);
    work_to_end(rt, alloc, &board, &mut pass, instance);
    close(rt, board, pass)
}

// Compares a closed board with an end: its number of pops, which must be that of its log's
// records.
fn pops_alike(rt: &impl Abort, closed: &Closed, pops: u64) {
    same(rt, closed.pops, pops, "pops");
    let Some(log) = &closed.log else {
        panic!(rt; "no log");
    };
    same(rt, log.len(), pops, "tickets");
}

// Compares a closed board with the end of the one-thread run.
fn ends_as<R: Threads + Abort + Sync>(rt: &R, alloc: Global, instance: &Instance, end: &End)
    requires { variables_of instance.now.stacks ≡ length end.now.cursors }
{
    let closed = close_together(rt, alloc, instance);
    pops_alike(rt, &closed, end.pops);
    let count = instance.stacks().count();
    let are_alike = are_cursors_alike(&closed.cursors, &end.cursors, count);
    is_so(rt, are_alike, "cursors of variables below", count);
    drop(closed);
}

// Compares a closed board with the one-thread run. Returns the number of pops that the threads
// made.
fn ends_alike<R: Threads + Abort + Sync>(rt: &R, alloc: Global, instance: &Instance) -> u64 {
    let end = run_first(alloc, instance).expect(rt, "memory");
    ends_as(rt, alloc, instance, &end);
    let pops = end.pops;
    drop(end);
    pops
}

// The next random instance: a chain for each even board, and a tree for each odd one.
fn instance_for(rt: &impl Abort, alloc: Global, board: u32, state: &mut u64) -> Instance {
    if board % 2 == 0 {
        return chain(rt, alloc, state);
    }
    tree(rt, alloc, state)
}

// Compares the ends of the next board. Returns its number of pops.
fn board_ends_alike<R: Threads + Abort + Sync>(
    rt: &R,
    alloc: Global,
    board: u32,
    state: &mut u64,
) -> u64 {
    let instance = instance_for(rt, alloc, board, state);
    let pops = ends_alike(rt, alloc, &instance);
    drop(instance);
    pops
}

#[test]
fn threads_end_alike_on_boards_of_both_families(rt: HostRuntime) {
    let alloc = rt.alloc();
    let mut state = 2026;
    let mut pops: u64 = 0;
    for board in 0..BOARDS {
        let more = board_ends_alike(&rt, alloc, board, &mut state);
        pops = more.checked_add(pops).expect(&rt, "few pops");
    }
    assert!(&rt; pops > 100, "{pops} pops");
}
