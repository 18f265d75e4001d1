// Lists with an array for each of them.
ghost use Rattle.std.specs.Prelude.{◌≡◌, ◌++◌, ◌∷◌, [], IfOk, OnOk};
ghost use Rattle.pop_rows.specs.Lists.{lists_in};

use std::alloc::{AllocError, Global};

/// A copy of the lists.
pub fn copy_lists<T: Copy>(alloc: Global, lists: &[Vec<T>]) -> Result<Vec<Vec<T>>, AllocError>
    ensures { IfOk result (λ copies. lists_in copies.items ≡ lists_in lists.now) }
{
    let mut copies = Vec::with_capacity(alloc, lists.len())?;
    for v in 0..lists.len() {
        add_copy(alloc, &mut copies, &lists[v])?;
    }
    Ok(copies)
}

// Adds a copy of a list to `copies`.
fn add_copy<T: Copy>(alloc: Global, copies: &mut Vec<Vec<T>>, list: &[T]) -> Result<(), AllocError>
    ensures { OnOk result (lists_in copies.new.items ≡ lists_in copies.old.items ++ list.now ∷ []) }
{
    copies.push(Vec::from_slice(alloc, list)?)?;
    Ok(())
}
