ghost use Rattle.std.specs.Prelude.{◌≡◌, ◌≤◌, ℕ, List, None, Some, Err, IfOk, OnOk};
ghost use Rattle.std.specs.Io.KnownBytes.{Consumes, IsAtEnd};
ghost use Rattle.pop_model.specs.Faults.{Rose};
ghost use Rattle.pop_edge.specs.declared.refusal.ReadRefusal.TheVariants.{ReadFault};
ghost use Rattle.dimacs_read.specs.Cnf.{first_empty};
ghost use Rattle.dimacs_read.specs.CnfText.{AnswersCnf, HasNoBadLine};

use crate::Formula;
use crate::reader::Reader;
use pop_edge::{ReadRefusal, Source, read_lines};
use std::alloc::Global;

/// Reads a formula in the DIMACS CNF format, to the end of the source.
///
/// Lines without tokens are skipped, and so are comments, which begin with `c`. The first other
/// line is the header, `p cnf V C`. The tokens of the lines after it are literals and ends of
/// clauses. A literal is a number from 1 to V, or `-` and such a number; `0` ends a clause and may
/// be missing after the last one. A line that begins with `%` ends the clauses, and what follows
/// is read and ignored.
///
/// # Errors
///
/// The first error in the order of the input is returned, with its line:
///
/// - `Malformed` with code 1: an invalid or missing header;
/// - `Malformed` with code 2: a token that is neither a literal nor `0`;
/// - `Malformed` with code 3: a literal above V;
/// - `Malformed` with code 4: a header with extra tokens;
/// - `Limit` with kind 1: more than 2^28 bytes;
/// - `Limit` with kind 2: V above 2^22;
/// - `Limit` with kind 3: C or the number of clauses above 2^22;
/// - `Limit` with kind 4: more than 2^25 literals;
/// - `Count` after these: there are not C clauses;
/// - `EmptyClause` last: the lowest number, from 1, of a clause without literals.
///
/// `ReadFault` is returned only if the source failed, no more bytes were read than the limit, and
/// no line that was read to its end is rejected.
pub fn read_formula<S: Source>(alloc: Global, source: &mut S) -> Result<Formula, ReadRefusal>
    ensures text { (text : List ℕ) → S.left source.old ≡ Some text → AnswersCnf text result }
    ensures whole { OnOk result (IsAtEnd (S.left source.new)) }
    ensures no_empty { IfOk result (λ formula. first_empty formula ≡ None) }

    ensures later { S.faults source.old ≤ S.faults source.new }
    ensures fault { result ≡ Err ReadFault → Rose (S.faults source.old) (S.faults source.new) }
    ensures no_bad_line { result ≡ Err ReadFault → (taken : List ℕ)
        × Consumes (S.left source.old) (S.left source.new) taken × HasNoBadLine taken }
{
    let mut reader = Reader::new(alloc);
    let line = read_lines(alloc, source, &mut reader)?;
    reader.finish(line)
}
