ghost use Rattle.std.specs.Prelude.{◌≡◌, ◌≤◌, ◌<◌, ◌^◌, List, length, IfOk, IfSome, Option};
ghost use Rattle.dimacs_read.specs.declared.token.Token.{Token};
ghost use Rattle.dimacs_read.specs.CnfText.{clauses_of};
ghost use Rattle.dimacs_read.specs.Reading.{FinishesClauses, HasBounds, Holds, closed_ends, empty_from, last_end};

use crate::Formula;
use crate::clauses::Clauses;
use crate::header::Header;
use pop_edge::ReadRefusal;
use std::alloc::AllocError;

// The end of the last clause.
fn last_of(ends: &[u32]) -> u32
    ensures { result ≡ last_end 0 ends.now }
{
    if ends.is_empty() {
        return 0;
    }
    ends[ends.len() - 1]
}

// Closes the last clause, if there are literals after the last end.
fn close(size: u32, ends: &mut Vec<u32>) -> Result<(), AllocError>
    ensures { IfOk result (λ _. ends.new.items ≡ closed_ends size ends.old.items) }
{
    if last_of(ends) == size {
        return Ok(());
    }
    ends.push(size)?;
    Ok(())
}

/// The first clause without literals, counted from 0.
pub fn first_empty_clause(ends: &[u32]) -> Option<u32>
    requires { length ends.now ≤ 2 ^ 22 }
    ensures first { result ≡ empty_from 0 0 ends.now }
    ensures bound { IfSome result (λ k. k < length ends.now) }
{
    let mut at = 0;
    let mut number = 0;
    for end in ends {
        if at == *end {
            return Some(number);
        }
        at = *end;
        number += 1;
    }
    None
}

/// The formula of the clauses, if their number is the declared one and none is empty.
pub fn finish_clauses(header: Header, clauses: Clauses) -> Result<Formula, ReadRefusal>
    requires { HasBounds header clauses }
    ensures { (tokens : List (Option Token)) → Holds clauses tokens
        → FinishesClauses header (clauses_of tokens) result }
{
    let Clauses { literals, mut ends } = clauses;
    close(literals.len() as u32, &mut ends)?;
    let found = ends.len() as u32;
    if found != header.clauses {
        return Err(ReadRefusal::Count(header.clauses, found));
    }
    match first_empty_clause(&ends) {
        Some(empty) => Err(ReadRefusal::EmptyClause(empty + 1)),
        None => Ok(Formula::of(header.variables, literals, ends)),
    }
}
