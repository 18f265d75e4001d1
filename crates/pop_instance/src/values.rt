ghost use Rattle.std.specs.Prelude.{◌≡◌, ◌<◌, ◌≤◌, ℕ, length, slice_index, All, IfOk, OnOk};
ghost use Rattle.pop_model.specs.Stacks.{variables_of, domain_of};
ghost use Rattle.pop_model.specs.Popping.{AreWithin, AreValuesAt};
ghost use Rattle.pop_stacks.specs.Readers.{Belongs};
ghost use Rattle.pop_instance.specs.FirstValues.{AreFirstValues};

use crate::Cursors;
use pop_stacks::{Reader, Stacks};
use std::alloc::{AllocError, Global};
use std::marker::Model;

// Numbers, stored as one byte or four bytes each.
#[derive(Drop)]
enum KeptNumbers {
    Bytes(Vec<u8>),
    Words(Vec<u32>),
}

/// One value for each variable. A value takes one byte if no variable has more than 256 values,
/// and otherwise four. Contracts see the list of values.
#[derive(Drop)]
pub struct Values {
    kept: KeptNumbers,
}

impl Model for Values {
    ghost use Rattle.std.specs.Prelude.{ℕ, List};
    ghost use Rattle.pop_instance.specs.KeptNumbers.{numbers_of};

    ghost Value = { List ℕ };

    ghost view = { λ a. numbers_of a.kept };
}

impl Values {
    /// The value of each variable at its cursor. Each is read once.
    pub fn at(
        alloc: Global,
        stacks: &Stacks,
        reader: &mut Reader,
        cursors: &Cursors,
    ) -> Result<Values, AllocError>
        requires count { variables_of stacks.now ≡ length cursors.now }
        requires within { AreWithin stacks.now cursors.now }
        requires belongs { Belongs stacks.now reader.old }
        ensures values { IfOk result (AreValuesAt stacks.now cursors.now) }
        ensures reader { reader.new ≡ reader.old }
    {
        if stacks.have_at_most(256) {
            let bytes = bytes_at(alloc, stacks, reader, cursors)?;
            return Ok(Values {
                kept: KeptNumbers::Bytes(bytes),
            });
        }
        let words = words_at(alloc, stacks, reader, cursors)?;
        Ok(Values {
            kept: KeptNumbers::Words(words),
        })
    }

    /// The value of each variable at its cursor, read by several readers. The variables are cut
    /// into blocks of about equal size, one for each reader in order. So each reader can use its
    /// cache for its block. Readers cache no variables with more than 256 values. If there are
    /// such variables, the last reader reads all.
    pub fn at_by(
        alloc: Global,
        stacks: &Stacks,
        readers: &mut [Reader],
        cursors: &Cursors,
    ) -> Result<Values, AllocError>
        requires some { 0 < length readers.old }
        requires count { variables_of stacks.now ≡ length cursors.now }
        requires within { AreWithin stacks.now cursors.now }
        requires belong { All (Belongs stacks.now) readers.old }
        ensures values { IfOk result (AreValuesAt stacks.now cursors.now) }
    {
        if stacks.have_at_most(256) {
            let bytes = bytes_by(alloc, stacks, readers, cursors)?;
            return Ok(Values {
                kept: KeptNumbers::Bytes(bytes),
            });
        }
        let last = readers.len() - 1;
        let words = words_at(alloc, stacks, &mut readers[last], cursors)?;
        Ok(Values {
            kept: KeptNumbers::Words(words),
        })
    }

    /// The value of a variable.
    pub fn get(&self, v: u32) -> u32
        requires known { v < length self.now }
        ensures { result ≡ slice_index self.now v }
    {
        match &self.kept {
            KeptNumbers::Bytes(numbers) => numbers[v as usize] as u32,
            KeptNumbers::Words(numbers) => numbers[v as usize],
        }
    }
}

// The value of each variable at its cursor, one byte each.
fn bytes_at(
    alloc: Global,
    stacks: &Stacks,
    reader: &mut Reader,
    cursors: &Cursors,
) -> Result<Vec<u8>, AllocError>
    requires small { (v : ℕ) → v < variables_of stacks.now → domain_of stacks.now v ≤ 256 }
    requires count { variables_of stacks.now ≡ length cursors.now }
    requires within { AreWithin stacks.now cursors.now }
    requires belongs { Belongs stacks.now reader.old }
    ensures values { IfOk result (λ bytes. AreValuesAt stacks.now cursors.now bytes.items) }
    ensures reader { reader.new ≡ reader.old }
{
    let count = stacks.count();
    let mut bytes = Vec::with_capacity(alloc, count as usize)?;
    add_bytes(&mut bytes, stacks, reader, cursors, count)?;
    Ok(bytes)
}

// The value of each variable at its cursor, one byte each, by several readers. The last one reads
// what the others leave.
fn bytes_by(
    alloc: Global,
    stacks: &Stacks,
    readers: &mut [Reader],
    cursors: &Cursors,
) -> Result<Vec<u8>, AllocError>
    requires some { 0 < length readers.old }
    requires small { (v : ℕ) → v < variables_of stacks.now → domain_of stacks.now v ≤ 256 }
    requires count { variables_of stacks.now ≡ length cursors.now }
    requires within { AreWithin stacks.now cursors.now }
    requires belong { All (Belongs stacks.now) readers.old }
    ensures values { IfOk result (λ bytes. AreValuesAt stacks.now cursors.now bytes.items) }
{
    let count = stacks.count();
    let last = readers.len() - 1;
    let block = (count as usize / readers.len()) as u32;
    let mut bytes = Vec::with_capacity(alloc, count as usize)?;
    let mut end = 0;
    for place in 0..last {
        end = count.min(block.saturating_add(end));
        add_bytes(&mut bytes, stacks, &mut readers[place], cursors, end)?;
    }
    add_bytes(&mut bytes, stacks, &mut readers[last], cursors, count)?;
    Ok(bytes)
}

// Adds the values of the next variables, up to but without `end`.
fn add_bytes(
    bytes: &mut Vec<u8>,
    stacks: &Stacks,
    reader: &mut Reader,
    cursors: &Cursors,
    end: u32,
) -> Result<(), AllocError>
    requires small { (v : ℕ) → v < variables_of stacks.now → domain_of stacks.now v ≤ 256 }
    requires count { variables_of stacks.now ≡ length cursors.now }
    requires within { AreWithin stacks.now cursors.now }
    requires belongs { Belongs stacks.now reader.old }
    requires first { AreFirstValues stacks.now cursors.now bytes.old.items }
    requires more { length bytes.old.items ≤ end }
    requires most { end ≤ variables_of stacks.now }
    ensures first { OnOk result (AreFirstValues stacks.now cursors.now bytes.new.items) }
    ensures count { OnOk result (length bytes.new.items ≡ end) }
    ensures reader { reader.new ≡ reader.old }
{
    let _count = stacks.count();
    for v in bytes.len() as u32..end {
        bytes.push(reader.entry(stacks, v, cursors.get(v)) as u8)?;
    }
    Ok(())
}

// The value of each variable at its cursor, four bytes each.
fn words_at(
    alloc: Global,
    stacks: &Stacks,
    reader: &mut Reader,
    cursors: &Cursors,
) -> Result<Vec<u32>, AllocError>
    requires count { variables_of stacks.now ≡ length cursors.now }
    requires within { AreWithin stacks.now cursors.now }
    requires belongs { Belongs stacks.now reader.old }
    ensures values { IfOk result (λ words. AreValuesAt stacks.now cursors.now words.items) }
    ensures reader { reader.new ≡ reader.old }
{
    let count = stacks.count();
    let mut words = Vec::with_capacity(alloc, count as usize)?;
    for v in 0..count {
        words.push(reader.entry(stacks, v, cursors.get(v)))?;
    }
    Ok(words)
}
