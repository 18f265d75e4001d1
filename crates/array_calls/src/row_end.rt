ghost use Rattle.std.specs.Prelude.{◌≡◌, ◌+◌, ◌<◌, ◌≤◌, ℕ, length, slice_index};
ghost use Rattle.array_calls.specs.KeptEnds.{rounded};
ghost use Rattle.array_calls.specs.Rows.{PutsRow};
ghost use Rattle.array_calls.specs.Values.{number_at};

use confluence_core::End;
use pop_instance::{Cursors, Values};
use prs_rounds::RoundEnd;
use std::marker::Model;

// The state of a run, by popping or by rounds.
#[derive(Drop)]
enum KeptEnd {
    Popped(End),
    Rounded(RoundEnd),
}

/// The state of the sample of a row. Contracts see an end. If the sample was made by rounds, its
/// pops are the rounds.
#[derive(Drop)]
pub(crate) struct RowEnd {
    kept: KeptEnd,
}

impl Model for RowEnd {
    ghost use Rattle.confluence_core.specs.declared.end.End.{End as ModelEnd};
    ghost use Rattle.array_calls.specs.KeptEnds.{end_of};

    ghost Value = { ModelEnd };

    ghost view = { λ a. end_of a.kept };
}

impl RowEnd {
    /// An end by popping.
    pub(crate) fn popped(end: End) -> RowEnd
        ensures { result ≡ end }
    {
        RowEnd {
            kept: KeptEnd::Popped(end),
        }
    }

    /// An end by rounds.
    pub(crate) fn rounded(end: RoundEnd) -> RowEnd
        ensures { result ≡ rounded end }
    {
        RowEnd {
            kept: KeptEnd::Rounded(end),
        }
    }

    /// The cursors there.
    pub(crate) fn cursors(&self) -> &Cursors
        ensures { result.now ≡ self.now.cursors }
    {
        match &self.kept {
            KeptEnd::Popped(end) => &end.cursors,
            KeptEnd::Rounded(end) => &end.cursors,
        }
    }

    /// The number of pops, or of rounds, that led there.
    pub(crate) fn pops(&self) -> u64
        ensures { result ≡ self.now.pops }
    {
        match &self.kept {
            KeptEnd::Popped(end) => end.pops,
            KeptEnd::Rounded(end) => end.rounds,
        }
    }

    /// The number of events that occur there.
    pub(crate) fn stuck(&self) -> u64
        ensures { result ≡ length self.now.stuck }
    {
        match &self.kept {
            KeptEnd::Popped(end) => end.stuck.len(),
            KeptEnd::Rounded(end) => end.stuck.len(),
        }
    }

    /// Puts the values of this many variables, which are below 256.
    pub(crate) fn put_values(&self, count: u32, numbers: &mut [u8], at: usize)
        requires count { count ≤ length self.now.values }
        requires small { (v : ℕ) → v < count → slice_index self.now.values v < 256 }
        requires room { at + count ≤ length numbers.old }
        ensures { PutsRow at count (number_at self.now.values) numbers.old numbers.new }
    {
        match &self.kept {
            KeptEnd::Popped(end) => put_kept(count, &end.values, numbers, at),
            KeptEnd::Rounded(end) => put_numbers(count, &end.values, numbers, at),
        }
    }
}

// Puts this many values, which are below 256.
fn put_kept(count: u32, values: &Values, numbers: &mut [u8], at: usize)
    requires count { count ≤ length values.now }
    requires small { (v : ℕ) → v < count → slice_index values.now v < 256 }
    requires room { at + count ≤ length numbers.old }
    ensures { PutsRow at count (number_at values.now) numbers.old numbers.new }
{
    for k in 0..count {
        numbers[at + k as usize] = values.get(k) as u8;
    }
}

// Puts this many numbers, which are below 256.
fn put_numbers(count: u32, items: &[u32], numbers: &mut [u8], at: usize)
    requires count { count ≤ length items.now }
    requires small { (v : ℕ) → v < count → slice_index items.now v < 256 }
    requires room { at + count ≤ length numbers.old }
    ensures { PutsRow at count (number_at items.now) numbers.old numbers.new }
{
    for k in 0..count {
        numbers[at + k as usize] = items[k as usize] as u8;
    }
}
