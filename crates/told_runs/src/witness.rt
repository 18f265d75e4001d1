//! The witness tree of a requested pop.
ghost use Rattle.std.specs.Prelude.{◌≡◌, ◌<◌, List, [], length, true, false, Some, IfOk};
ghost use Rattle.pop_model.specs.Stacks.{variables_of};
ghost use Rattle.pop_model.specs.Logs.{IsLegal, replay};
ghost use Rattle.pop_model.specs.Runs.{start_of};
ghost use Rattle.witness_trees.specs.Vertices.{Vertex};
ghost use Rattle.witness_trees.specs.Trees.{IsTree};
ghost use Rattle.witness_trees.specs.TreeTexts.{tree_text, no_witness_text};
ghost use Rattle.told_runs.specs.Witnesses.{TellsWitness};

use confluence_core::Log;
use pop_instance::{Cursors, Instance};
use pop_log::Names;
use std::alloc::{AllocError, Global};
use witness_trees::{find_pop, print_missing, print_tree, tree};

/// What is printed of a log, or a part of it, possibly after an earlier text; and whether the pop
/// of the requested witness is missing.
#[derive(Drop)]
pub struct LogText {
    pub missing: bool,
    pub bytes: Vec<u8>,
}

impl LogText {
    /// Nothing is printed, and nothing is missing.
    pub fn nothing(alloc: Global) -> Result<LogText, AllocError>
        ensures there { IfOk result (λ t. t.missing ≡ false) }
        ensures none { IfOk result (λ t. t.bytes.items ≡ []) }
    {
        Ok(LogText {
            missing: false,
            bytes: Vec::new(alloc),
        })
    }
}

// What is printed if no pop used the entry, which is not below the cursor.
fn tell_missing(alloc: Global, asked: (u32, u32), cursor: u32) -> Result<LogText, AllocError>
    ensures missing { IfOk result (λ w. w.missing ≡ true) }
    ensures text { IfOk result (λ w. w.bytes.items ≡ no_witness_text asked.0 asked.1 cursor) }
{
    let (name, entry) = asked;
    Ok(LogText {
        missing: true,
        bytes: print_missing(alloc, name, entry, cursor)?,
    })
}

// What is printed for the pop that used the entry: the tree of its record.
fn tell_tree(
    alloc: Global,
    instance: &Instance,
    names: &Names,
    log: &Log,
    t: u64,
) -> Result<LogText, AllocError>
    requires legal { IsLegal instance.now (start_of instance.now) log.now }
    requires within { t < length log.now }
    ensures there { IfOk result (λ w. w.missing ≡ false) }
    ensures tree { IfOk result (λ w. (tree : List Vertex) × IsTree log.now t tree
        × (w.bytes.items ≡ tree_text names.now instance.now.family tree)) }
{
    let tree = tree(alloc, log, t)?;
    let text = print_tree(alloc, instance, names, &tree);
    drop(tree);
    Ok(LogText {
        missing: false,
        bytes: text?,
    })
}

/// The witness of the pop that used an entry of the variable with a printed name, in a legal log
/// that leads to these cursors. It is the tree of the pop, or the line that says that there is
/// none.
pub fn witness_of(
    alloc: Global,
    instance: &Instance,
    names: &Names,
    cursors: &Cursors,
    log: &Log,
    asked: (u32, u32),
) -> Result<LogText, AllocError>
    requires count { variables_of instance.now.stacks ≡ length cursors.now }
    requires legal { IsLegal instance.now (start_of instance.now) log.now }
    requires leads { cursors.now ≡ replay (start_of instance.now) log.now }
    ensures { IfOk result (λ w. TellsWitness names.now instance.now.family (Some asked) cursors.now
        log.now w.missing w.bytes.items) }
{
    let (name, entry) = asked;
    let Some(v) = names.variable(name, instance.stacks().count()) else {
        return tell_missing(alloc, asked, 0);
    };
    match find_pop(log, v, entry) {
        None => tell_missing(alloc, asked, cursors.get(v)),
        Some(t) => tell_tree(alloc, instance, names, log, t),
    }
}
