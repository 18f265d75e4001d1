ghost use Rattle.std.specs.Prelude.{◌≡◌, ◌<◌, length};
ghost use Rattle.dimacs_read.specs.Tokens.{negated, plain, token_of};

use pop_edge::number;

// One more than the largest absolute value of a literal.
const PAST_LITERALS: u32 = 2147483648;

/// What a token after the header denotes.
#[derive(Clone, Copy, Debug, PartialEq, Eq)]
pub enum Token {
    /// A variable, from 1, or its negation.
    Literal(i32),
    /// The end of a clause.
    End,
}

fn plain_token(n: u32) -> Option<Token>
    ensures { result ≡ plain n }
{
    if n == 0 {
        return Some(Token::End);
    }
    if n < PAST_LITERALS {
        return Some(Token::Literal(n as i32));
    }
    None
}

fn negated_token(n: u32) -> Option<Token>
    ensures { result ≡ negated n }
{
    if n > 0 && n < PAST_LITERALS {
        return Some(Token::Literal(-(n as i32)));
    }
    None
}

/// What the token denotes, or None if it is invalid.
pub fn read_token(word: &[u8]) -> Option<Token>
    requires { 0 < length word.now }
    ensures { result ≡ token_of word.now }
{
    if word[0] == b'-' {
        return match number(&word[1..]) {
            None => None,
            Some(n) => negated_token(n),
        };
    }
    match number(word) {
        None => None,
        Some(n) => plain_token(n),
    }
}
