//! The operators, the longest first.

ghost use Rattle.std.specs.Prelude.{◌≡◌};
ghost use Rattle.dp_lexer.specs.Operators as operators;
ghost use Rattle.dp_lexer.specs.inner.Lexer as spec;
ghost use Rattle.dp_lexer.specs.inner.Lexer.{Finds};

use crate::class::is_digit;
use crate::fault::{Fault, Wrong};
use crate::token::{TokenKind, Word};

/// The operator that one byte spells.
fn one_byte(b: u8) -> Option<Word>
    ensures { result ≡ operators.one_byte b }
{
    match b {
        b'=' => Some(Word::Assign),
        b'<' => Some(Word::Less),
        b'>' => Some(Word::Greater),
        b'+' => Some(Word::Plus),
        b'-' => Some(Word::Minus),
        b'*' => Some(Word::Star),
        b'%' => Some(Word::Percent),
        b'.' => Some(Word::Dot),
        b'!' => Some(Word::Bang),
        b'?' => Some(Word::Question),
        b':' => Some(Word::Colon),
        b',' => Some(Word::Comma),
        b';' => Some(Word::Semicolon),
        b'(' => Some(Word::OpenParenthesis),
        b')' => Some(Word::CloseParenthesis),
        b'[' => Some(Word::OpenBracket),
        b']' => Some(Word::CloseBracket),
        b'{' => Some(Word::OpenBrace),
        b'}' => Some(Word::CloseBrace),
        _ => None,
    }
}

/// The operator that two bytes spell.
fn two_bytes(b: u8, c: u8) -> Option<Word>
    ensures { result ≡ operators.two_bytes b c }
{
    match (b, c) {
        (b'=', b'=') => Some(Word::Equal),
        (b'!', b'=') => Some(Word::NotEqual),
        (b'<', b'=') => Some(Word::LessOrEqual),
        (b'>', b'=') => Some(Word::GreaterOrEqual),
        (b'&', b'&') => Some(Word::BothOf),
        (b'|', b'|') => Some(Word::EitherOf),
        (b'?', b'?') => Some(Word::Coalesce),
        (b'+', b'+') => Some(Word::Increment),
        (b'-', b'-') => Some(Word::Decrement),
        (b'+', b'=') => Some(Word::AddAssign),
        (b'-', b'=') => Some(Word::SubtractAssign),
        (b'*', b'=') => Some(Word::MultiplyAssign),
        (b'.', b'=') => Some(Word::ConcatAssign),
        (b'%', b'=') => Some(Word::RemainderAssign),
        (b'=', b'>') => Some(Word::Arrow),
        _ => None,
    }
}

/// The operator that three bytes spell.
fn three_bytes(b: u8, c: u8, d: u8) -> Option<Word>
    ensures { result ≡ operators.three_bytes b c d }
{
    match (b, c, d) {
        (b'=', b'=', b'=') => Some(Word::Identical),
        (b'!', b'=', b'=') => Some(Word::NotIdentical),
        (b'<', b'=', b'>') => Some(Word::Spaceship),
        (b'?', b'?', b'=') => Some(Word::CoalesceAssign),
        _ => None,
    }
}

/// A point before a digit, or a question mark before `>`.
fn is_split(b: u8, rest: &[u8]) -> bool
    ensures { result ≡ spec.is_split b rest.now }
{
    match rest {
        [c, ..] => (b == b'.' && is_digit(*c)) || (b == b'?' && *c == b'>'),
        [] => false,
    }
}

/// Reads the operator of one byte; refuses any other byte, a point before a digit, and a `?` before `>`.
fn single_operator(b: u8, rest: &[u8]) -> Result<(Option<TokenKind>, usize), Wrong>
    ensures { Finds (spec.single_operator (operators.one_byte b) b rest.now) result }
{
    match one_byte(b) {
        Some(word) if !is_split(b, rest) => Ok((Some(TokenKind::Word(word)), 1)),
        _ => Err(Wrong::Fault(Fault::BadByte, 0)),
    }
}

/// Reads the operator of two bytes, or else that of the first byte alone, which may be refused.
fn double_operator(b: u8, c: u8, rest: &[u8]) -> Result<(Option<TokenKind>, usize), Wrong>
    ensures { Finds (spec.double_operator (operators.two_bytes b c) b rest.now) result }
{
    match two_bytes(b, c) {
        Some(word) => Ok((Some(TokenKind::Word(word)), 2)),
        None => single_operator(b, rest),
    }
}

/// The operator of this first byte, before these bytes.
pub(crate) fn operator(b: u8, rest: &[u8]) -> Result<(Option<TokenKind>, usize), Wrong>
    ensures { Finds (spec.operator_at b rest.now) result }
{
    match rest {
        [] => single_operator(b, rest),
        [c] => double_operator(b, *c, rest),
        [c, d, ..] => match three_bytes(b, *c, *d) {
            Some(word) => Ok((Some(TokenKind::Word(word)), 3)),
            None => double_operator(b, *c, rest),
        },
    }
}
