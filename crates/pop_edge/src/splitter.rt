ghost use Rattle.std.specs.Prelude.{◌≡◌, ◌≤◌, ◌+◌, [], false, true, IfOk, OnErr, OnOk, None, Some, Err};
ghost use Rattle.std.specs.Io.KnownBytes.{IsAtEnd, Keeps};
ghost use Rattle.memchr.specs.Find.{IsFirstByte};
ghost use Rattle.pop_model.specs.Faults.{HasCause, Rose};
ghost use Rattle.pop_edge.specs.declared.refusal.ReadRefusal.TheVariants.{ReadFault};
ghost use Rattle.pop_edge.specs.Lines.{is_end, text_limit};
ghost use Rattle.pop_edge.specs.LineState.{IsNext};
ghost use Rattle.pop_edge.specs.NeededReads.{ReadsAsNeeded};
ghost use Rattle.pop_edge.specs.Splitting.{Cuts, HasFilled, IsSplitter, Moves, rest_of, state_of};

use crate::{Failed, Next, ReadRefusal, Source};
use memchr::memchr;
use std::alloc::{AllocError, Global};
use std::mem;

// The largest number of bytes of an input: 2^28.
const LIMIT: u64 = 268435456;

// The number of bytes that one read has room for.
const ROOM: usize = 4096;

const LINE_END: u8 = b'\n';

/// Cuts pieces of bytes into lines.
#[derive(Drop)]
pub struct Splitter {
    /// The line returned last.
    pub line: Vec<u8>,
    /// The bytes of the next line so far.
    pub begun: Vec<u8>,
    /// The piece read last. Its bytes from `at` up to, but without, `end` belong to no line yet.
    pub piece: Vec<u8>,
    pub at: usize,
    pub end: usize,
    /// How many lines were returned.
    pub number: u64,
    /// How many bytes were read.
    pub taken: u64,
    /// True after a read that returned 0 bytes.
    pub ended: bool,
}

fn first_end(bytes: &[u8]) -> Option<usize>
    ensures { IsFirstByte is_end bytes.now result }
{
    memchr(LINE_END, bytes)
}

// Moves the bytes up to the first line end to the begun line. Returns how many bytes this takes,
// with the line end, or None if there is no line end.
fn move_line(begun: &mut Vec<u8>, bytes: &[u8]) -> Result<Option<usize>, AllocError>
    ensures moved { IfOk result (Moves begun.old.items begun.new.items bytes.now) }
    ensures err { OnErr result (begun.new.items ≡ begun.old.items) }
{
    match first_end(bytes) {
        Some(at) => {
            begun.extend_from_slice(&bytes[..at])?;
            Ok(Some(at + 1))
        }
        None => {
            begun.extend_from_slice(bytes)?;
            Ok(None)
        }
    }
}

impl Splitter {
    /// Nothing was read yet. Allocates the memory for one read.
    pub fn new(alloc: Global) -> Result<Splitter, AllocError>
        ensures splitter { IfOk result IsSplitter }
        ensures nothing { IfOk result (λ s. rest_of s ≡ []) }
        ensures line { IfOk result (λ s. s.line.items ≡ []) }
        ensures number { IfOk result (λ s. s.number ≡ 0) }
        ensures taken { IfOk result (λ s. s.taken ≡ 0) }
        ensures ended { IfOk result (λ s. s.ended ≡ false) }
    {
        Ok(Splitter {
            line: Vec::new(alloc),
            begun: Vec::new(alloc),
            piece: Vec::from_elem(alloc, 0, ROOM)?,
            at: 0,
            end: 0,
            number: 0,
            taken: 0,
            ended: false,
        })
    }

    // Returns the begun line as the next line.
    fn give(&mut self)
        requires { IsSplitter self.old }
        ensures line { self.new.line.items ≡ self.old.begun.items }
        ensures begun { self.new.begun.items ≡ [] }
        ensures number { self.new.number ≡ self.old.number + 1 }
        ensures piece { (self.new.piece ≡ self.old.piece) × (self.new.at ≡ self.old.at)
            × (self.new.end ≡ self.old.end) }
        ensures read { (self.new.taken ≡ self.old.taken) × (self.new.ended ≡ self.old.ended) }
    {
        mem::swap(&mut self.line, &mut self.begun);
        self.begun.clear();
        self.number += 1;
    }

    // Takes a whole line off the bytes at hand. Returns whether there was one.
    fn cut(&mut self) -> Result<bool, AllocError>
        requires { IsSplitter self.old }
        ensures splitter { IsSplitter self.new }
        ensures cuts { IfOk result (Cuts self.old self.new) }
        ensures err { OnErr result ((rest_of self.new ≡ rest_of self.old)
            × (self.new.line.items ≡ self.old.line.items)
            × (self.new.number ≡ self.old.number)) }
        ensures read { (self.new.taken ≡ self.old.taken) × (self.new.ended ≡ self.old.ended) }
    {
        match move_line(&mut self.begun, &self.piece[self.at..self.end])? {
            Some(count) => {
                self.at += count;
                self.give();
                Ok(true)
            }
            None => {
                self.at = self.end;
                Ok(false)
            }
        }
    }

    // Reads another piece, after the piece before it is used up.
    fn fill<S: Source>(&mut self, source: &mut S) -> Result<(), Failed>
        requires splitter { IsSplitter self.old }
        requires used_up { self.old.at ≡ self.old.end }
        requires more { self.old.taken ≤ text_limit }
        ensures splitter { IsSplitter self.new }
        ensures filled { OnOk result
            (HasFilled self.old self.new (S.left source.old) (S.left source.new)
            (λ bytes. S.read_gives source.old (Some bytes) source.new)) }
        ensures err { OnErr result (Keeps (S.left source.old) (S.left source.new)
            × (rest_of self.new ≡ rest_of self.old) × (self.new.taken ≡ self.old.taken)
            × (self.new.ended ≡ self.old.ended)
            × S.read_gives source.old None source.new) }
        ensures same { (self.new.line ≡ self.old.line) × (self.new.number ≡ self.old.number) }
        ensures cause { HasCause (S.faults source.old) (S.faults source.new) result }
    {
        self.at = 0;
        self.end = 0;
        let count = source.read(&mut self.piece)?;
        // Bytes past the limit belong to no line.
        let room = (LIMIT - self.taken) as usize;
        self.end = count.min(room);
        self.taken += count as u64;
        self.ended = count == 0;
        Ok(())
    }

    /// Returns the next line, `Next::End`, or an error. It reads only while no whole line is at
    /// hand.
    pub fn next<S: Source>(&mut self, source: &mut S) -> Result<Next, ReadRefusal>
        requires { IsSplitter self.old }
        ensures splitter { IsSplitter self.new }
        ensures next { IsNext (state_of self.old) (state_of self.new)
            (S.left source.old) (S.left source.new) result }
        ensures reads { ReadsAsNeeded S.read_gives (state_of self.old) (state_of self.new)
            (S.left source.old) (S.left source.new) source.old source.new result }
        ensures at_end { (self.old.ended ≡ true → IsAtEnd (S.left source.old))
            → self.new.ended ≡ true → IsAtEnd (S.left source.new) }
        ensures later { S.faults source.old ≤ S.faults source.new }
        ensures fault { result ≡ Err ReadFault → Rose (S.faults source.old) (S.faults source.new) }
    {
        while !self.ended && self.taken <= LIMIT {
            if self.cut()? {
                return Ok(Next::Line);
            }
            self.fill(source)?;
        }
        if self.cut()? {
            return Ok(Next::Line);
        }
        if self.taken > LIMIT {
            return Err(ReadRefusal::Limit(1, self.number + 1));
        }
        if self.begun.is_empty() {
            return Ok(Next::End);
        }
        self.give();
        Ok(Next::Line)
    }
}
