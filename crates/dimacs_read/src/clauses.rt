ghost use Rattle.std.specs.Prelude.{◌≡◌, ◌⊎◌, ◌<◌, ◌≤◌, ◌^◌, List, length, IfErr, OnOk, None, Some, Option};
ghost use Rattle.pop_edge.specs.declared.refusal.ReadRefusal.TheVariants.{OutOfMemory};
ghost use Rattle.pop_edge.specs.Refusals.{at_line};
ghost use Rattle.dimacs_read.specs.declared.token.Token.{Token};
ghost use Rattle.dimacs_read.specs.Tokens.{token_of};
ghost use Rattle.dimacs_read.specs.Reading.{Adds, Holds, IsWithin, TakesWords, fault_in};

use crate::token::{Token, read_token};
use pop_edge::{ReadRefusal, next_word};

const MAX_CLAUSES: usize = 4194304;

const MAX_LITERALS: usize = 33554432;

/// The literals of all clauses so far, one clause after another, and the end of each clause.
/// Literals after the last end belong to an unfinished clause.
#[derive(Drop)]
pub struct Clauses {
    pub literals: Vec<i32>,
    pub ends: Vec<u32>,
}

impl Clauses {
    // Reads a token, or rejects it. Codes are reported before limits, and limit 3 before limit 4.
    fn take_word(&mut self, variables: u32, line: u64, word: &[u8]) -> Result<(), ReadRefusal>
        requires word { 0 < length word.now }
        requires few { length self.old.ends.items ≤ 2 ^ 22 }
        requires room { length self.old.literals.items ≤ 2 ^ 25 }
        ensures taken { OnOk result ((fault_in self.old variables word.now ≡ None)
            × Adds self.old self.new (token_of word.now)) }
        ensures refused { IfErr result (λ refusal. (refusal ≡ OutOfMemory)
            ⊎ (at_line line (fault_in self.old variables word.now) ≡ Some refusal)) }
        ensures few { length self.new.ends.items ≤ 2 ^ 22 }
        ensures room { length self.new.literals.items ≤ 2 ^ 25 }
    {
        match read_token(word) {
            None => Err(ReadRefusal::Malformed(line, 2)),
            Some(Token::End) => {
                if self.ends.len() >= MAX_CLAUSES {
                    return Err(ReadRefusal::Limit(3, line));
                }
                self.ends.push(self.literals.len() as u32)?;
                Ok(())
            }
            Some(Token::Literal(literal)) => {
                if literal.unsigned_abs() > variables {
                    return Err(ReadRefusal::Malformed(line, 3));
                }
                if self.ends.len() >= MAX_CLAUSES {
                    return Err(ReadRefusal::Limit(3, line));
                }
                if self.literals.len() >= MAX_LITERALS {
                    return Err(ReadRefusal::Limit(4, line));
                }
                self.literals.push(literal)?;
                Ok(())
            }
        }
    }

    /// Reads the tokens of a line, or rejects the first invalid one.
    pub fn take_words(&mut self, variables: u32, line: u64, bytes: &[u8]) -> Result<(), ReadRefusal>
        requires { IsWithin self.old }
        ensures within { IsWithin self.new }
        ensures words { (before : List (Option Token)) → Holds self.old before
            → TakesWords self.new variables line bytes.now before result }
    {
        let mut rest = bytes;
        while let Some((word, behind)) = next_word(rest) {
            self.take_word(variables, line, word)?;
            rest = behind;
        }
        Ok(())
    }
}
