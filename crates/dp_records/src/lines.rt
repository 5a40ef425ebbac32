//! The lines of a record, as they are read.
ghost use Rattle.std.specs.Prelude.{◌≡◌, ◌≢◌, ◌++◌, ℕ, List, codes, IfOk, MatchOption};
ghost use Rattle.std.specs.List.{list_all};
ghost use Rattle.dp_records.specs.Records as spec;
ghost use Rattle.dp_records.specs.inner.Readings.{SaysSo, Spells, is_small_digit};

use crate::entry::{Entry, Stream};
use crate::statuses::is_status;
use dp_bytes::{Bytes, Memory, decimal};
use hex::{FromHexError, decode};
use std::alloc::Global;

/// The most bytes that a line tells.
pub(crate) const PIECE_LIMIT: usize = 65_536;

/// What a line of a record says.
#[derive(Debug, Drop)]
pub(crate) enum Line {
    /// These bytes came.
    Reported(Entry),
    /// The session ended with this status.
    Ends(u8),
}

/// What stands behind the word that begins the bytes.
fn behind<'a>(bytes: &'a [u8], word: &[u8]) -> Option<&'a [u8]>
    ensures { MatchOption result ((rest : List ℕ) → bytes.now ≢ word.now ++ rest)
        (λ rest. bytes.now ≡ word.now ++ rest.now) }
{
    bytes.strip_prefix(word)
}

/// What stands before the word that ends the bytes.
fn before<'a>(bytes: &'a [u8], word: &[u8]) -> Option<&'a [u8]>
    ensures { MatchOption result ((front : List ℕ) → bytes.now ≢ front ++ word.now)
        (λ front. bytes.now ≡ front.now ++ word.now) }
{
    bytes.strip_suffix(word)
}

/// Whether it is a hexadecimal digit, with a small letter where it has one.
fn is_small_digit(digit: u8) -> bool
    ensures { result ≡ is_small_digit digit }
{
    matches!(digit, b'0'..=b'9') || matches!(digit, b'a'..=b'f')
}

/// Whether each of them is one.
fn are_small_digits(digits: &[u8]) -> bool
    ensures { result ≡ list_all is_small_digit digits.now }
{
    digits.iter().all(|digit| is_small_digit(*digit))
}

/// The bytes that the digits spell, if a line may tell them.
fn piece_in(alloc: Global, digits: &[u8]) -> Result<Option<Bytes>, Memory>
    ensures { IfOk result (λ found. Spells digits.now found) }
{
    if digits.is_empty() || digits.len() > 2 * PIECE_LIMIT {
        return Ok(None);
    }
    if !are_small_digits(digits) {
        return Ok(None);
    }
    match decode(alloc, digits) {
        Ok(bytes) => Ok(Some(Bytes::of(bytes))),
        Err(why) => match why {
            FromHexError::OutOfMemory => Err(Memory),
            _ => Ok(None),
        },
    }
}

/// The line whose digits these are.
fn reported_in(alloc: Global, stream: Stream, digits: &[u8]) -> Result<Option<Line>, Memory>
    ensures { IfOk result (SaysSo (spec.word_of stream ++ codes " " ++ digits.now ++ codes "\n")) }
{
    match piece_in(alloc, digits)? {
        Some(bytes) => Ok(Some(Line::Reported(Entry { stream, bytes }))),
        None => Ok(None),
    }
}

/// The last line whose number this is.
fn ends_in(number: &[u8]) -> Option<Line>
    ensures { SaysSo (codes "end " ++ number.now ++ codes "\n") result }
{
    match decimal(number, 255) {
        Some(number) => {
            let status = number as u8;
            if is_status(status) {
                Some(Line::Ends(status))
            } else {
                None
            }
        }
        None => None,
    }
}

/// What the line says, which has its line feed, if it is one of a record.
pub(crate) fn line_in(alloc: Global, line: &[u8]) -> Result<Option<Line>, Memory>
    ensures { IfOk result (SaysSo line.now) }
{
    let Some(text) = before(line, b"\n") else {
        return Ok(None);
    };
    if let Some(digits) = behind(text, b"in ") {
        return reported_in(alloc, Stream::In, digits);
    }
    if let Some(digits) = behind(text, b"out ") {
        return reported_in(alloc, Stream::Out, digits);
    }
    if let Some(digits) = behind(text, b"own ") {
        return reported_in(alloc, Stream::Own, digits);
    }
    match behind(text, b"end ") {
        Some(number) => Ok(ends_in(number)),
        None => Ok(None),
    }
}
