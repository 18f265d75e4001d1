ghost use Rattle.std.specs.Prelude.{◌≡◌, ℕ, List, []};
ghost use Rattle.dimacs_read.specs.Reading.{IsWithin, Knows, TakesMore};

use crate::Formula;
use crate::clauses::Clauses;
use crate::finish::finish_clauses;
use crate::header::{Header, first_byte, read_header};
use pop_edge::{LineReader, ReadRefusal};
use std::alloc::Global;

const COMMENT: u8 = b'c';

const LAST_LINE: u8 = b'%';

/// What the lines so far specify.
#[derive(Drop)]
pub struct Reader {
    pub header: Option<Header>,
    /// Whether a line has ended the clauses.
    pub ended: bool,
    pub clauses: Clauses,
}

impl Reader {
    ghost use Rattle.dimacs_read.specs.Reading.{Finishes, IsReader};

    /// No line was read yet.
    pub fn new(alloc: Global) -> Reader
        ensures { Knows result [] }
    {
        Reader {
            header: None,
            ended: false,
            clauses: Clauses {
                literals: Vec::new(alloc),
                ends: Vec::new(alloc),
            },
        }
    }

    /// The formula of the lines, or the error of the input as a whole. A missing header is
    /// reported at this line.
    pub fn finish(self, line: u64) -> Result<Formula, ReadRefusal>
        requires { IsReader self }
        ensures { (lines : List (ℕ × List (List ℕ))) → Knows self lines
            → Finishes line lines result }
    {
        let Reader {
            header,
            ended: _,
            clauses,
        } = self;
        match header {
            None => Err(ReadRefusal::Malformed(line, 1)),
            Some(header) => finish_clauses(header, clauses),
        }
    }

    // Reads a line after the header that is not skipped and begins with this byte.
    fn take_words(
        &mut self,
        header: Header,
        number: u64,
        first: u8,
        line: &[u8],
    ) -> Result<(), ReadRefusal>
        requires { IsWithin self.old.clauses }
        ensures within { IsWithin self.new.clauses }
        ensures same { self.new.header ≡ self.old.header }
        ensures words { TakesMore self.old self.new header number first line.now result }
    {
        if self.ended {
            return Ok(());
        }
        if first == LAST_LINE {
            self.ended = true;
            return Ok(());
        }
        self.clauses.take_words(header.variables, number, line)
    }
}

impl LineReader for Reader {
    ghost use Rattle.dimacs_read.specs.CnfText.{cnf};
    ghost use Rattle.dimacs_read.specs.Reading.{IsWithin, Knows};

    ghost judgement = { cnf };

    ghost is_sound = { λ r. IsWithin r.clauses };

    ghost knows = { Knows };

    fn take_line(&mut self, number: u64, line: &[u8]) -> Result<(), ReadRefusal> {
        match first_byte(line) {
            None => Ok(()),
            Some(first) => {
                if first == COMMENT {
                    return Ok(());
                }
                match self.header {
                    None => {
                        self.header = Some(read_header(number, line)?);
                        Ok(())
                    }
                    Some(header) => self.take_words(header, number, first, line),
                }
            }
        }
    }
}
