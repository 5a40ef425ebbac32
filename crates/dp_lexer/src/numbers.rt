//! Numbers, decimal and hexadecimal.

ghost use Rattle.std.specs.Prelude.{◌≡◌, ◌≤◌, ◌<◌, ◌^◌, ◌*◌, ◌+◌, length, MatchOption, true};
ghost use Rattle.dp_lexer.specs.Bytes as sorts;
ghost use Rattle.dp_lexer.specs.Bytes.{Each, value_in, digit_value};
ghost use Rattle.dp_lexer.specs.Pieces.{widest};
ghost use Rattle.dp_lexer.specs.inner.Lexer as spec;
ghost use Rattle.dp_lexer.specs.inner.Lexer.{Finds};

use crate::class::{is_digit, is_hexadecimal, runs_on};
use crate::fault::{Fault, Wrong};
use crate::token::TokenKind;

/// The greatest number: 2^63 - 1.
const WIDEST: u64 = 9223372036854775807;

/// Whether a hexadecimal digit stands at the front.
pub(crate) fn begins_hexadecimal(z: &[u8]) -> bool
    ensures { result ≡ sorts.begins sorts.is_hexadecimal z.now }
{
    match z {
        [b, ..] => is_hexadecimal(*b),
        [] => false,
    }
}

/// How many decimal digits stand at the front.
fn digits_len(z: &[u8]) -> usize
    ensures value { result ≡ spec.digits_len z.now }
    ensures within { result ≤ length z.now }
{
    let mut n = 0;
    while n < z.len() && is_digit(z[n]) {
        n += 1;
    }
    n
}

/// How many hexadecimal digits stand at the front.
fn hexadecimal_len(z: &[u8]) -> usize
    ensures value { result ≡ spec.hexadecimal_len z.now }
    ensures within { result ≤ length z.now }
{
    let mut n = 0;
    while n < z.len() && is_hexadecimal(z[n]) {
        n += 1;
    }
    n
}

/// What a hexadecimal digit counts.
pub(crate) fn digit_value(d: u8) -> u64
    requires { sorts.is_hexadecimal d ≡ true }
    ensures value { result ≡ digit_value d }
    ensures small { result < 16 }
{
    if d < b':' {
        (d - b'0') as u64
    } else if d < b'G' {
        (d - b'7') as u64
    } else {
        (d - b'W') as u64
    }
}

/// The number with one more digit, where it is not too wide.
fn with_digit(value: u64, base: u64, digit: u64) -> Option<u64>
    ensures { MatchOption result (widest < value * base + digit)
        (λ n. (n ≡ value * base + digit) × (n ≤ widest)) }
{
    let next = value.checked_mul(base)?.checked_add(digit)?;
    if next <= WIDEST { Some(next) } else { None }
}

/// The number that digits spell, where it is not too wide.
pub(crate) fn value_of(base: u64, digits: &[u8]) -> Option<u64>
    requires base { 1 ≤ base }
    requires digits { Each sorts.is_hexadecimal digits.now }
    ensures { MatchOption result (widest < value_in base digits.now)
        (λ n. (n ≡ value_in base digits.now) × (n ≤ widest)) }
{
    let mut value = 0;
    for d in digits {
        match with_digit(value, base, digit_value(*d)) {
            Some(next) => value = next,
            None => return None,
        }
    }
    Some(value)
}

/// The number that digits spell, of this length as it stands, before this rest.
fn ended(
    base: u64,
    digits: &[u8],
    len: usize,
    rest: &[u8],
) -> Result<(Option<TokenKind>, usize), Wrong>
    requires base { 1 ≤ base }
    requires digits { Each sorts.is_hexadecimal digits.now }
    ensures { Finds (spec.ended (value_in base digits.now) len rest.now) result }
{
    let Some(value) = value_of(base, digits) else {
        return Err(Wrong::Fault(Fault::WideNumber, 0));
    };
    match rest {
        [b, ..] if runs_on(*b) => Err(Wrong::Fault(Fault::BadByte, len)),
        _ => Ok((Some(TokenKind::Number(value as i64)), len)),
    }
}

/// Reads the hexadecimal number whose `0x` stands before these bytes; refuses one that is too wide or runs on.
fn hexadecimal(z: &[u8]) -> Result<(Option<TokenKind>, usize), Wrong>
    requires { length z.now + 2 < 2 ^ 64 }
    ensures { Finds (spec.hexadecimal_number z.now) result }
{
    let len = hexadecimal_len(z);
    let (digits, rest) = z.split_at(len);
    ended(16, digits, len + 2, rest)
}

/// Reads the decimal number that stands at the front; refuses one that is too wide or runs on.
fn decimal(z: &[u8]) -> Result<(Option<TokenKind>, usize), Wrong>
    ensures { Finds (spec.decimal_number z.now) result }
{
    let len = digits_len(z);
    let (digits, rest) = z.split_at(len);
    ended(10, digits, len, rest)
}

/// The number whose 0 stands before these bytes.
fn zero(z: &[u8]) -> Result<(Option<TokenKind>, usize), Wrong>
    ensures { Finds (spec.zero_at z.now) result }
{
    match z {
        [b'x', digits @ ..] if begins_hexadecimal(digits) => hexadecimal(digits),
        _ => ended(10, b"0", 1, z),
    }
}

/// The number that stands at the front.
pub(crate) fn number(z: &[u8]) -> Result<(Option<TokenKind>, usize), Wrong>
    ensures { Finds (spec.number_at z.now) result }
{
    match z {
        [] => Err(Wrong::Fault(Fault::BadByte, 0)),
        [b'0', rest @ ..] => zero(rest),
        _ => decimal(z),
    }
}
