//! Texts in quotes: where they end, and the bytes that they stand for.

ghost use Rattle.std.specs.Prelude.{◌≡◌, ◌==◌, ◌&&◌, ◌||◌, ◌≤◌, ◌<◌, ◌+◌, ◌++◌, ◌%◌, length, Some, IfSome, IfErr};
ghost use Rattle.std.specs.Prelude.{IfOk, OnOk};
ghost use Rattle.dp_lexer.specs.Bytes as sorts;
ghost use Rattle.dp_lexer.specs.Bytes.{Each, value_in};
ghost use Rattle.dp_lexer.specs.Quotes as quotes;
ghost use Rattle.dp_lexer.specs.inner.Lexer as spec;
ghost use Rattle.dp_lexer.specs.inner.Lexer.{Finds, Decodes, IsFaultWithin, shown_part, shown_meant, meant_bytes};

use crate::class::{is_hexadecimal, is_octal, is_start};
use crate::fault::{Fault, Wrong};
use crate::numbers::{begins_hexadecimal, value_of};
use crate::spelling::Spelling;
use crate::token::TokenKind;
use std::alloc::{AllocError, Global};

/// What a part of a text stands for: a byte, or a backslash and this byte.
#[derive(Clone, Copy, Debug)]
pub(crate) enum Meant {
    Byte(u8),
    Pair(u8),
}

/// How long a text goes on behind its opening quote, without its closing quote.
fn body_len(quote: u8, z: &[u8]) -> Option<usize>
    ensures value { result ≡ spec.body_len quote z.now }
    ensures within { IfSome result (λ n. n < length z.now) }
{
    let mut n = 0;
    while n < z.len() {
        if z[n] == b'\\' {
            n += 2;
        } else if z[n] == quote {
            return Some(n);
        } else {
            n += 1;
        }
    }
    None
}

// ---- single quotes

/// The first byte that is meant, and how many bytes it takes.
fn single_part(z: &[u8]) -> (u8, usize)
    requires { 0 < length z.now }
    ensures value { result ≡ spec.single_part z.now }
    ensures some { 1 ≤ result.1 }
    ensures within { result.1 ≤ length z.now }
{
    match z {
        [b'\\', b'\'', ..] => (b'\'', 2),
        [b'\\', b'\\', ..] => (b'\\', 2),
        [b, ..] => (*b, 1),
        [] => (0, 1),
    }
}

/// The text that stands between single quotes, its escapes resolved.
fn single(alloc: Global, body: &[u8]) -> Result<Spelling, AllocError>
    ensures { IfOk result (λ value. value ≡ quotes.single_value body.now) }
{
    let mut bytes = Vec::new(alloc);
    let mut n = 0;
    while n < body.len() {
        let (byte, taken) = single_part(&body[n..]);
        bytes.push(byte)?;
        n += taken;
    }
    Ok(Spelling::of(bytes))
}

// ---- double quotes

/// The byte for which a backslash and this one byte stand, if they stand for one by themselves.
fn letter_of(c: u8) -> Option<u8>
    ensures { result ≡ quotes.letter_of c }
{
    match c {
        b'n' => Some(b'\n'),
        b't' => Some(b'\t'),
        b'r' => Some(b'\r'),
        b'v' => Some(0x0b),
        b'e' => Some(0x1b),
        b'f' => Some(0x0c),
        b'\\' => Some(b'\\'),
        b'$' => Some(b'$'),
        b'"' => Some(b'"'),
        _ => None,
    }
}

/// Whether PHP would put in a variable here.
fn interpolates(b: u8, rest: &[u8]) -> bool
    ensures { result ≡ quotes.interpolates b rest.now }
{
    match rest {
        [c, ..] => (b == b'$' && (is_start(*c) || *c == b'{')) || (b == b'{' && *c == b'$'),
        [] => false,
    }
}

/// How many octal digits stand at the front, of at most 3.
fn octal_len(z: &[u8]) -> usize
    ensures value { result ≡ spec.up_to sorts.is_octal 3 z.now }
    ensures most { result ≤ 3 }
    ensures within { result ≤ length z.now }
{
    match z {
        [a, b, c, ..] if is_octal(*a) && is_octal(*b) && is_octal(*c) => 3,
        [a, b, ..] if is_octal(*a) && is_octal(*b) => 2,
        [a, ..] if is_octal(*a) => 1,
        _ => 0,
    }
}

/// How many hexadecimal digits stand at the front, of at most 2.
fn hexadecimal_len(z: &[u8]) -> usize
    ensures value { result ≡ spec.up_to sorts.is_hexadecimal 2 z.now }
    ensures most { result ≤ 2 }
    ensures within { result ≤ length z.now }
{
    match z {
        [a, b, ..] if is_hexadecimal(*a) && is_hexadecimal(*b) => 2,
        [a, ..] if is_hexadecimal(*a) => 1,
        _ => 0,
    }
}

/// The byte that at most three digits stand for.
fn byte_of(base: u64, digits: &[u8]) -> u8
    requires some { 1 ≤ base }
    requires base { base ≤ 16 }
    requires few { length digits.now ≤ 3 }
    requires digits { Each sorts.is_hexadecimal digits.now }
    ensures { result ≡ value_in base digits.now % 256 }
{
    match value_of(base, digits) {
        Some(value) => (value % 256) as u8,
        None => 0,
    }
}

/// The byte of the octal escape whose backslash stands before these bytes, and its length with the backslash.
fn octal(z: &[u8]) -> (Meant, usize)
    ensures value { shown_meant (Some result) ≡ shown_part (spec.octal_at z.now) }
    ensures within { result.1 ≤ length z.now + 1 }
    ensures some { 1 ≤ result.1 }
{
    let len = octal_len(z);
    (Meant::Byte(byte_of(8, &z[..len])), len + 1)
}

/// The byte of the escape whose `\x` stands before these bytes, and its length with the `\x`.
fn hexadecimal(z: &[u8]) -> (Meant, usize)
    ensures value { shown_meant (Some result) ≡ shown_part (spec.hexadecimal_at z.now) }
    ensures within { result.1 ≤ length z.now + 2 }
    ensures some { 1 ≤ result.1 }
{
    let len = hexadecimal_len(z);
    (Meant::Byte(byte_of(16, &z[..len])), len + 2)
}

/// The part whose backslash stands before these bytes, and its length with the backslash.
fn escape(z: &[u8]) -> Option<(Meant, usize)>
    ensures value { shown_meant result ≡ shown_part (spec.escape_at z.now) }
    ensures within { IfSome result (λ x. x.1 ≤ length z.now + 1) }
    ensures some { IfSome result (λ x. 1 ≤ x.1) }
{
    let [c, rest @ ..] = z else {
        return None;
    };
    if let Some(byte) = letter_of(*c) {
        return Some((Meant::Byte(byte), 2));
    }
    if is_octal(*c) {
        return Some(octal(z));
    }
    if *c == b'x' && begins_hexadecimal(rest) {
        return Some(hexadecimal(rest));
    }
    if *c == b'u' {
        None
    } else {
        Some((Meant::Pair(*c), 2))
    }
}

/// The part that stands at the front, and its length.
fn part(z: &[u8]) -> Option<(Meant, usize)>
    ensures value { shown_meant result ≡ shown_part (spec.part_at z.now) }
    ensures within { IfSome result (λ x. x.1 ≤ length z.now) }
    ensures some { IfSome result (λ x. 1 ≤ x.1) }
{
    match z {
        [b'\\', rest @ ..] => escape(rest),
        [b, rest @ ..] if !interpolates(*b, rest) => Some((Meant::Byte(*b), 1)),
        _ => None,
    }
}

/// Puts the bytes that a part of a text stands for.
fn push_meant(bytes: &mut Vec<u8>, meant: Meant) -> Result<(), AllocError>
    ensures { OnOk result (bytes.new.items ≡ bytes.old.items ++ meant_bytes meant) }
{
    match meant {
        Meant::Byte(b) => bytes.push(b)?,
        Meant::Pair(c) => {
            bytes.push(b'\\')?;
            bytes.push(c)?;
        }
    }
    Ok(())
}

/// Reads the text between double quotes; refuses `\u`, a variable to be put in, and a backslash at the end.
fn double(alloc: Global, body: &[u8]) -> Result<Spelling, Wrong>
    ensures value { Decodes (spec.doubled 0 body.now) result }
    ensures within { IfErr result (λ wrong. IsFaultWithin wrong (length body.now)) }
{
    let mut bytes = Vec::new(alloc);
    let mut n = 0;
    while n < body.len() {
        let Some((meant, len)) = part(&body[n..]) else {
            return Err(Wrong::Fault(Fault::BadByte, n));
        };
        push_meant(&mut bytes, meant)?;
        n += len;
    }
    Ok(Spelling::of(bytes))
}

/// The text whose opening single quote stands before these bytes.
fn single_text(alloc: Global, rest: &[u8]) -> Result<(Option<TokenKind>, usize), Wrong>
    ensures { Finds (spec.single_of (spec.body_len 39 rest.now) rest.now) result }
{
    let Some(len) = body_len(b'\'', rest) else {
        return Err(Wrong::Fault(Fault::OpenString, 0));
    };
    let value = single(alloc, &rest[..len])?;
    Ok((Some(TokenKind::Text(value)), len + 2))
}

/// The text whose opening double quote stands before these bytes.
fn double_text(alloc: Global, rest: &[u8]) -> Result<(Option<TokenKind>, usize), Wrong>
    ensures { Finds (spec.double_of (spec.body_len 34 rest.now) rest.now) result }
{
    let Some(len) = body_len(b'"', rest) else {
        return Err(Wrong::Fault(Fault::OpenString, 0));
    };
    match double(alloc, &rest[..len]) {
        Ok(value) => Ok((Some(TokenKind::Text(value)), len + 2)),
        Err(Wrong::Fault(fault, at)) => Err(Wrong::Fault(fault, at + 1)),
        Err(Wrong::Memory) => Err(Wrong::Memory),
    }
}

/// The text whose opening quote, of this kind, stands before these bytes.
pub(crate) fn text(
    alloc: Global,
    quote: u8,
    rest: &[u8],
) -> Result<(Option<TokenKind>, usize), Wrong>
    ensures { Finds (spec.quote_at quote rest.now) result }
{
    if quote == b'\'' {
        single_text(alloc, rest)
    } else {
        double_text(alloc, rest)
    }
}
