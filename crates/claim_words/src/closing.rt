//! Closes a board by its only pass.
ghost use Rattle.std.specs.Prelude.{if◌then◌else◌, ◌≡◌, ℕ, ◌+◌, ◌++◌, ◌∷◌, [], ◌<◌, ◌≤◌, length, IfOk, IfErr, slice_index, vec_len, vec_capacity};
ghost use Rattle.std.specs.Slots.{IsFull, slots_items, slots_len};
ghost use Rattle.pop_model.specs.Popping.{cursor};
ghost use Rattle.claim_words.specs.Words.{word_of, cursor_in};
ghost use Rattle.claim_words.specs.KeptLogs.{IsTold};
ghost use Rattle.claim_words.specs.Closing.{Closes, Leaves, set_marks, unsettled};

use crate::kept_log::KeptLog;
use crate::layout::{MARKED, TICKETS, cursor_of, is_settled, mark_of, word_of};
use crate::logging::told_tickets;
use crate::{Board, Closed, Pass};
use atomic_table::Closed as Words;
use confluence_core::{Tickets, Units};
use pop_instance::Cursors;
use std::alloc::{AllocError, Global};

impl<'i> Board<'i> {
    ghost use Rattle.claim_words.specs.Passes.{
      IsOf,
      IsIdle,
      IsSole,
      view,
      count_of,
      opening_of,
      kept_tickets,
    };

    /// Closes a board and returns its final state: the cursors, the number of pops, the tickets if
    /// a log is kept, and the suspects. The suspects are the units at which events may still be
    /// poppable; the view of the pass determines them exactly. The pass must be idle and have all
    /// shares. If memory runs out, board and pass are returned unchanged.
    pub fn close(self, pass: Pass) -> Result<Closed, (Board<'i>, Pass, AllocError)>
        requires pass { IsOf self pass }
        requires sole { IsSole pass }
        requires idle { IsIdle pass }
        ensures count { IfOk result (λ c. length c.cursors ≡ count_of self.entry) }
        ensures closed { IfOk result
            (λ c. Closes (opening_of self.entry) (view pass) c.cursors c.pops) }
        ensures left { IfOk result
            (λ c. Leaves (opening_of self.entry) (view pass) c.cursors c.suspects) }
        ensures log { IfOk result (λ c. c.log ≡ kept_tickets self.entry pass) }
        ensures kept { IfErr result (λ e. (e.0 ≡ self.entry) × (e.1 ≡ pass)) }
    {
        let room = match room_for(self.alloc, self.count, self.marks, &pass.log) {
            Ok(room) => room,
            Err(failed) => return Err((self, pass, failed)),
        };
        let Board {
            instance: _,
            table,
            count,
            marks,
            listed,
            keep: _,
            alloc: _,
        } = self;
        let Pass {
            seat,
            held,
            share: _,
            log,
        } = pass;
        drop(held);
        drop(log);
        let Room {
            cursors,
            unset,
            marked,
            log,
        } = room;
        let words = table.close_with(seat);
        let pops = words.word(TICKETS);
        let cursors = cursors_of(&words, count, cursors);
        let unset = unsettled(&words, count, unset);
        let marked = set_marks(&words, count, marks, marked);
        words.free();
        Ok(Closed {
            cursors,
            pops,
            log,
            suspects: suspects_from(listed, marked, unset),
        })
    }
}

// The lists that are filled after a board is closed.
#[derive(Drop)]
struct Room {
    cursors: Vec<u32>,
    unset: Vec<u32>,
    marked: Vec<u32>,
    log: Option<Tickets>,
}

// Room for the cursors and suspects of this many words, and the tickets.
fn room_for(
    alloc: Global,
    count: u32,
    marks: u32,
    log: &Option<KeptLog>,
) -> Result<Room, AllocError>
    ensures cursors { IfOk result
        (λ r. (length r.cursors.items ≡ 0) × (count ≤ vec_capacity r.cursors)) }
    ensures unset { IfOk result (λ r. (length r.unset.items ≡ 0) × (count ≤ vec_capacity r.unset)) }
    ensures marked { IfOk result
        (λ r. (length r.marked.items ≡ 0) × (marks ≤ vec_capacity r.marked)) }
    ensures log { IfOk result (λ r. IsTold log.now r.log) }
{
    Ok(Room {
        cursors: Vec::with_capacity(alloc, count as usize)?,
        unset: Vec::with_capacity(alloc, count as usize)?,
        marked: Vec::with_capacity(alloc, marks as usize)?,
        log: told_tickets(alloc, log)?,
    })
}

// The cursors of the first `count` variables.
fn cursors_of(words: &Words<(), Global>, count: u32, mut cursors: Vec<u32>) -> Cursors
    requires words { IsFull words.now.words × (1 + count ≤ slots_len words.now.words) }
    requires room { (length cursors.items ≡ 0) × (count ≤ vec_capacity cursors) }
    ensures count { length result ≡ count }
    ensures cursors { (v : ℕ) → v < count
        → cursor result v ≡ cursor_in (slice_index (slots_items words.now.words) (word_of v)) }
{
    for v in 0..count {
        let found = words.word(word_of(v));
        cursors.push_reserved(cursor_of(found));
    }
    Cursors::of(cursors)
}

// Those of the first `count` variables that are not settled.
fn unsettled(words: &Words<(), Global>, count: u32, mut unset: Vec<u32>) -> Vec<u32>
    requires words { IsFull words.now.words × (1 + count ≤ slots_len words.now.words) }
    requires room { (length unset.items ≡ 0) × (count ≤ vec_capacity unset) }
    ensures { result.items ≡ unsettled (slots_items words.now.words) count }
{
    for v in 0..count {
        let word = words.word(word_of(v));
        note(&mut unset, !is_settled(word), v);
    }
    unset
}

// Those of the first `marks` units that are marked.
fn set_marks(words: &Words<(), Global>, count: u32, marks: u32, mut marked: Vec<u32>) -> Vec<u32>
    requires words { IsFull words.now.words × (1 + count + marks ≤ slots_len words.now.words) }
    requires room { (length marked.items ≡ 0) × (marks ≤ vec_capacity marked) }
    ensures { result.items ≡ set_marks (slots_items words.now.words) count marks }
{
    for unit in 0..marks {
        let word = words.word(mark_of(count, unit));
        note(&mut marked, word == MARKED, unit);
    }
    marked
}

// Adds a number to a list if it passes.
fn note(list: &mut Vec<u32>, passes: bool, n: u32)
    requires { vec_len list.old < vec_capacity list.old }
    ensures items { list.new.items
        ≡ (if passes then list.old.items ++ n ∷ [] else list.old.items) }
    ensures len { vec_len list.new ≤ vec_len list.old + 1 }
    ensures capacity { vec_capacity list.new ≡ vec_capacity list.old }
{
    if passes {
        list.push_reserved(n);
    }
}

// The marked units of a listed family, or the variables of a cycle family that are not settled.
fn suspects_from(listed: bool, marked: Vec<u32>, unset: Vec<u32>) -> Units
    ensures { result ≡ (if listed then marked.items else unset.items) }
{
    if listed {
        Units::of(marked)
    } else {
        Units::of(unset)
    }
}
