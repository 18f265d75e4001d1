ghost use Rattle.std.specs.Prelude.{◌≡◌, ◌<◌, ◌≤◌, ◌+◌, length, All, IfOk};
ghost use Rattle.pop_model.specs.Stacks.{variables_of};
ghost use Rattle.pop_model.specs.Popping.{AreWithin};
ghost use Rattle.prs_rounds.specs.Values.{AreRead, AreAllRead};

use crate::front::Front;
use pop_stacks::Reader;
use rayon::prelude::*;
use std::alloc::{AllocError, Global};
use std::thread::Threads;

// The number of variables that one thread reads at a time, with a reader of its own. If there are
// no more variables, no thread is started, since that would cost more than it saves.
const PIECE: usize = 512;

/// The values of the variables from place `start` on, as many as `values` has room for.
pub(crate) fn read_piece(at: Front, variables: &[u32], start: usize, values: &mut [u32])
    requires count { variables_of at.stacks.now ≡ length at.cursors.now }
    requires within { AreWithin at.stacks.now at.cursors.now }
    requires known { All (λ v. v < length at.cursors.now) variables.now }
    requires room { start + length values.old ≤ length variables.now }
    ensures len { length values.new ≡ length values.old }
    ensures read { AreRead at.entry.stacks.now at.entry.cursors.now variables.now start values.new }
{
    let mut reader = Reader::new(at.stacks);
    for k in 0..values.len() {
        let v = variables[start + k];
        values[k] = reader.entry(at.stacks, v, at.cursors.get(v));
    }
}

/// The values of these variables at a front, read one after another.
pub(crate) fn read_each(alloc: Global, at: Front, variables: &[u32]) -> Result<Vec<u32>, AllocError>
    requires count { variables_of at.stacks.now ≡ length at.cursors.now }
    requires within { AreWithin at.stacks.now at.cursors.now }
    requires known { All (λ v. v < length at.cursors.now) variables.now }
    ensures { IfOk result (λ values.
        AreAllRead at.entry.stacks.now at.entry.cursors.now variables.now values.items) }
{
    let mut values = vec![in alloc; 0; variables.len()]?;
    read_piece(at, variables, 0, &mut values);
    Ok(values)
}

/// The values of these variables at a front, read in parallel if there are many.
pub(crate) fn read<R: Threads + Sync>(
    rt: &R,
    alloc: Global,
    at: Front,
    variables: &[u32],
) -> Result<Vec<u32>, AllocError>
    requires count { variables_of at.stacks.now ≡ length at.cursors.now }
    requires within { AreWithin at.stacks.now at.cursors.now }
    requires known { All (λ v. v < length at.cursors.now) variables.now }
    ensures len { IfOk result (λ values. length values.items ≡ length variables.now) }
    ensures read { IfOk result (λ values.
        AreRead at.entry.stacks.now at.entry.cursors.now variables.now 0 values.items) }
{
    if variables.len() <= PIECE {
        return Ok(read_each(alloc, at, variables)?);
    }
    let mut values = vec![in alloc; 0; variables.len()]?;
    par_chunks_mut_for_each(
        rt,
        &mut values,
        PIECE,
        |start: usize, piece: &mut [u32]|
            requires { (variables_of at.stacks.now ≡ length at.cursors.now)
                × AreWithin at.stacks.now at.cursors.now
                × All (λ v. v < length at.cursors.now) variables.now
                × (start + length piece.old ≤ length variables.now) }
            ensures { (length piece.new ≡ length piece.old)
                × AreRead at.entry.stacks.now at.entry.cursors.now variables.entry.now start piece.new }
        { read_piece(at, variables, start, piece) },
    );
    Ok(values)
}
