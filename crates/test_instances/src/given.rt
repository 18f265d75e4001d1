use pop_stacks::{Rows, StackSpec, Stacks, Weights};
use std::alloc::Global;
use std::test::Fail;

/// These rows: fewer than 9999, of fewer than 1000 numbers.
pub fn rows(alloc: Global, table: &[&[u32]]) -> Result<Rows, Fail> {
    let mut rows = Vec::new(alloc);
    for row in table {
        if row.len() >= 1000 {
            return Err(Fail::new("a row is too long"));
        }
        rows.push(Vec::from_slice(alloc, row)?)?;
    }
    if rows.len() >= 9999 {
        return Err(Fail::new("too many rows"));
    }
    Ok(Rows::of(rows))
}

/// The stacks of these rows of entries, of variables with two values each.
pub fn stacks(alloc: Global, table: &[&[u32]]) -> Result<Stacks, Fail> {
    let rows = rows(alloc, table)?;
    let weights = Weights::pairs(rows.count());
    Ok(Stacks::new(StackSpec::Given(rows), weights, 1)?)
}

/// The stacks of this many variables with two values each, fewer than 1000, with a height from 1
/// to 999. The key has this byte 32 times.
pub fn keyed(key: u8, count: u32, height: u32) -> Result<Stacks, Fail> {
    if count >= 1000 || height == 0 || height >= 1000 {
        return Err(Fail::new("too many variables, or no such height"));
    }
    Ok(Stacks::new(StackSpec::Key([key; 32]), Weights::pairs(count), height)?)
}
