ghost use Rattle.std.specs.Prelude.{◌≡◌, ◌<◌, ◌^◌, [], length, slice_index, IfOk, IfSome, OnOk};
ghost use Rattle.std.specs.Bool.{OnTrue};
ghost use Rattle.pop_rows.specs.FlatRows.{row_at};
ghost use Rattle.pop_instance.specs.ShiftedRows.{shifted, shifted_rows, AreKinds, IsKind, StaysIn};

use pop_rows::RowList;
use std::alloc::{AllocError, Global};
use std::marker::Model;

/// Rows of numbers that have few patterns, such as the heads of a grid's variables. Rows count
/// from 0; there are at most 2^32 - 1.
#[derive(Drop)]
pub(crate) struct ShiftedRows {
    // The pattern of each row. The numbers of row v are those of its pattern, with v added to
    // each, modulo 2^32.
    kinds: Vec<u8>,
    patterns: RowList,
}

impl Model for ShiftedRows {
    ghost use Rattle.std.specs.Prelude.{ℕ, List};
    ghost use Rattle.pop_instance.specs.ShiftedRows.{shifted_rows, AreKinds};

    ghost Value = { List (List ℕ) };

    ghost view = { λ a. shifted_rows a.kinds.items a.patterns };

    ghost invariant = { λ a. AreKinds a.kinds.items a.patterns };
}

impl ShiftedRows {
    /// These rows by their patterns, or None if they have more than 256. The time is linear in the
    /// numbers, and in the patterns for each row.
    pub fn of(alloc: Global, rows: &RowList) -> Result<Option<ShiftedRows>, AllocError>
        ensures { IfOk result (λ found. IfSome found (λ copy. copy ≡ rows.now)) }
    {
        let mut kinds = Vec::with_capacity(alloc, rows.count() as usize)?;
        let mut patterns = RowList::with_room(alloc, 0, 0)?;
        if add_kinds(alloc, rows, &mut kinds, &mut patterns)? {
            return Ok(Some(ShiftedRows { kinds, patterns }));
        }
        Ok(None)
    }

    /// A copy of these rows.
    pub fn copy(&self, alloc: Global) -> Result<ShiftedRows, AllocError>
        ensures { IfOk result (λ copy. copy ≡ self.now) }
    {
        Ok(ShiftedRows {
            kinds: Vec::from_slice(alloc, &self.kinds)?,
            patterns: self.patterns.copy(alloc)?,
        })
    }

    /// The number of rows.
    #[inline]
    pub fn count(&self) -> u32
        ensures { result ≡ length self.now }
    {
        self.kinds.len() as u32
    }

    /// The length of row v.
    #[inline]
    pub fn row_len(&self, v: u32) -> u32
        requires { v < length self.now }
        ensures { result ≡ length (row_at self.now v) }
    {
        self.pattern(v).len() as u32
    }

    /// Number i of row v, counted from 0.
    #[inline]
    pub fn number(&self, v: u32, i: u32) -> u32
        requires known { v < length self.now }
        requires place { i < length (row_at self.now v) }
        ensures { result ≡ slice_index (row_at self.now v) i }
    {
        v.wrapping_add(self.pattern(v)[i as usize])
    }

    // The pattern of row v.
    #[inline]
    fn pattern(&self, v: u32) -> &[u32]
        requires { v < length self.now }
        ensures pattern { shifted v result.now ≡ row_at self.now v }
        ensures short { length result.now < 2 ^ 32 }
    {
        self.patterns.row(u32::from(self.kinds[v as usize]))
    }
}

// Adds the kind of each row to `kinds`, which is empty at first, and adds the patterns that are
// missing. Returns false if a kind does not fit a byte.
fn add_kinds(
    alloc: Global,
    rows: &RowList,
    kinds: &mut Vec<u8>,
    patterns: &mut RowList,
) -> Result<bool, AllocError>
    requires none { kinds.old.items ≡ [] }
    ensures few { IfOk result (λ all. OnTrue all (AreKinds kinds.new.items patterns.new)) }
    ensures rows { IfOk result
        (λ all. OnTrue all (shifted_rows kinds.new.items patterns.new ≡ rows.now)) }
{
    for v in 0..rows.count() {
        let Some(kind) = kind_in(alloc, patterns, rows.row(v), v)? else {
            return Ok(false);
        };
        kinds.push(kind)?;
    }
    Ok(true)
}

// The place of the pattern of row v. If the pattern is missing, it is added. None if its place
// does not fit a byte.
fn kind_in(
    alloc: Global,
    patterns: &mut RowList,
    row: &[u32],
    v: u32,
) -> Result<Option<u8>, AllocError>
    ensures kind { IfOk result (λ found. IfSome found (IsKind v row.now patterns.new)) }
    ensures kept { OnOk result (StaysIn patterns.old patterns.new) }
{
    if let Some(kind) = find_kind(patterns, row, v) {
        return Ok(u8::try_from(kind).ok());
    }
    let kind = patterns.count();
    patterns.push_row(&pattern_of(alloc, row, v)?)?;
    Ok(u8::try_from(kind).ok())
}

// The first place of the pattern of row v, if it is among the patterns.
fn find_kind(patterns: &RowList, row: &[u32], v: u32) -> Option<u32>
    ensures { IfSome result (IsKind v row.now patterns.now) }
{
    for kind in 0..patterns.count() {
        if is_shifted(patterns.row(kind), row, v) {
            return Some(kind);
        }
    }
    None
}

// Whether row v has this pattern.
fn is_shifted(pattern: &[u32], row: &[u32], v: u32) -> bool
    ensures { OnTrue result (shifted v pattern.now ≡ row.now) }
{
    if pattern.len() != row.len() {
        return false;
    }
    for i in 0..row.len() {
        if v.wrapping_add(pattern[i]) != row[i] {
            return false;
        }
    }
    true
}

// The pattern of row v.
fn pattern_of(alloc: Global, row: &[u32], v: u32) -> Result<Vec<u32>, AllocError>
    ensures { IfOk result (λ pattern. shifted v pattern.items ≡ row.now) }
{
    let mut pattern = Vec::with_capacity(alloc, row.len())?;
    for x in row {
        pattern.push(x.wrapping_sub(v))?;
    }
    Ok(pattern)
}
