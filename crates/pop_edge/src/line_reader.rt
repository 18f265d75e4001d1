ghost use Rattle.std.specs.Prelude.{◌≡◌, ◌≤◌, ℕ, List, [], None, Some, Err, IfErr, IfOk, OnOk};
ghost use Rattle.std.specs.Io.KnownBytes.{Consumes, IsAtEnd};
ghost use Rattle.pop_model.specs.Faults.{Rose};
ghost use Rattle.pop_edge.specs.declared.refusal.ReadRefusal.TheVariants.{ReadFault};
ghost use Rattle.pop_edge.specs.Judging.{HasTakenAll, IsInOrder, IsUnrefused, StopsEarly};

use crate::{Lines, Next, ReadRefusal, Source};
use std::alloc::Global;

/// A parser that reads an input by a grammar, line by line.
pub trait LineReader {
    ghost use Rattle.std.specs.Prelude.{ℕ, List, ◌++◌};
    ghost use Rattle.pop_edge.specs.Words.{words_of};
    ghost use Rattle.pop_edge.specs.Judging.{Judgement, TakesLine, told};

    /// The grammar: which inputs are valid, and how others are rejected.
    ghost judgement: { Judgement };

    /// The parser's invariant, which holds between two lines.
    ghost is_sound: { Self → Type 0 };

    /// The parser has read exactly these lines.
    ghost knows: { Self → List (ℕ × List (List ℕ)) → Type 0 };

    /// Reads a line, or rejects it. Lines count from 1.
    fn take_line(&mut self, number: u64, line: &[u8]) -> Result<(), ReadRefusal>
        requires { is_sound self.old }
        ensures sound { is_sound self.new }
        ensures line { (lines : List (ℕ × List (List ℕ))) → knows self.old lines
            → TakesLine judgement (knows self.new) (lines ++ told judgement number (words_of line.now))
            result };
}

/// Passes every line of the source to the parser. Returns one more than the number of the last
/// line.
///
/// Errors: the first line that the parser rejects; `Limit(1, line)`; out of memory; `ReadFault`.
/// `ReadFault` occurs only if the source failed, no more bytes were read than the limit, and no
/// line that was read to its end is rejected.
pub fn read_lines<S: Source, R: LineReader>(
    alloc: Global,
    source: &mut S,
    reader: &mut R,
) -> Result<u64, ReadRefusal>
    requires order { IsInOrder R.judgement }
    requires clean { (r : R) (lines : List (ℕ × List (List ℕ))) → R.knows r lines
        → R.judgement.of_lines lines ≡ None }
    requires sound { R.is_sound reader.old }
    requires nothing { R.knows reader.old [] }
    ensures sound { R.is_sound reader.new }
    ensures all { IfOk result
        (HasTakenAll R.judgement (R.knows reader.new) (S.left source.old)) }
    ensures early { IfErr result (λ refusal. (text : List ℕ) → S.left source.old ≡ Some text
        → StopsEarly R.judgement text refusal) }
    ensures whole { OnOk result (IsAtEnd (S.left source.new)) }

    ensures later { S.faults source.old ≤ S.faults source.new }
    ensures fault { result ≡ Err ReadFault → Rose (S.faults source.old) (S.faults source.new) }
    ensures no_bad_line { result ≡ Err ReadFault → (taken : List ℕ)
        × Consumes (S.left source.old) (S.left source.new) taken
        × IsUnrefused R.judgement taken }
{
    let mut lines = Lines::new(alloc)?;
    'reading: while let Next::Line = lines.next(source)? {
        reader.take_line(lines.number(), lines.line())?;
    }
    Ok(lines.number() + 1)
}
