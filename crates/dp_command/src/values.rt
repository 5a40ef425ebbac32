//! Values, options and payloads.

ghost use Rattle.std.specs.Prelude.{length};
ghost use Rattle.base64.specs.Engines.{standard};
ghost use Rattle.base64.specs.GeneralPurpose.{decoded_of};
ghost use Rattle.dp_command.specs.inner.Parts.{byte_at, items_at, quoted_at, bare_at, value_at, option_at};
ghost use Rattle.dp_command.specs.inner.Parts.{options_at};
ghost use Rattle.dp_command.specs.Lines.{Gives};

use crate::errors::LineError;
use crate::parts::{letter, spaces};
use crate::sort::{Sort, run};
use base64::DecodeAllocError;
use base64::engine::general_purpose::STANDARD;
use dp_bytes::{Bytes, Items};
use std::alloc::Global;

/// The byte between quotes that stands here; none at the closing quote.
#[tactic(auto, unfolding(crate::specs::inner::Parts::byte_at))]
fn byte(bytes: &[u8]) -> Result<(Option<u8>, &[u8]), LineError>
    ensures { Gives (λ found. (found.0, found.1.now)) result (byte_at bytes.now) }
{
    match bytes {
        [] | [b'"', ..] => Ok((None, bytes)),
        [b'\\', b'"', rest @ ..] => Ok((Some(b'"'), rest)),
        [b'\\', b'\\', rest @ ..] => Ok((Some(b'\\'), rest)),
        [b'\\', b'0', rest @ ..] => Ok((Some(0), rest)),
        [b'\\' | 0, ..] => Err(LineError::Parse),
        [b, rest @ ..] => Ok((Some(*b), rest)),
    }
}

/// Reads what stands between quotes, up to the closing quote or the end; refuses NUL and a bad escape.
fn inner(alloc: Global, bytes: &[u8]) -> Result<(Vec<u8>, &[u8]), LineError>
    ensures { Gives (λ found. (found.0.items, found.1.now)) result (items_at byte_at (length bytes.now) bytes.now) }
{
    let mut value = Vec::new(alloc);
    let mut rest = bytes;
    for _ in 0..bytes.len() {
        let (found, after) = byte(rest)?;
        match found {
            None => return Ok((value, after)),
            Some(b) => value.push(b)?,
        }
        rest = after;
    }
    Ok((value, rest))
}

/// The value whose opening quote stands before these bytes.
#[tactic(auto, unfolding(crate::specs::inner::Parts::quoted_at))]
fn quoted(alloc: Global, bytes: &[u8]) -> Result<(Bytes, &[u8]), LineError>
    ensures { Gives (λ found. (found.0, found.1.now)) result (quoted_at bytes.now) }
{
    let (value, rest) = inner(alloc, bytes)?;
    match rest {
        [b'"', rest @ ..] => Ok((Bytes::of(value), rest)),
        _ => Err(LineError::Parse),
    }
}

/// Reads a value without quotes, and what stands behind it; refuses where none stands here.
#[tactic(auto, unfolding(crate::specs::inner::Parts::bare_at))]
fn bare(alloc: Global, bytes: &[u8]) -> Result<(Bytes, &[u8]), LineError>
    ensures { Gives (λ found. (found.0, found.1.now)) result (bare_at bytes.now) }
{
    match bytes {
        [b, ..] if Sort::Bare.has(*b) => {
            let (value, rest) = run(Sort::Bare, bytes);
            Ok((Bytes::from_slice(alloc, value)?, rest))
        }
        _ => Err(LineError::Parse),
    }
}

/// Reads a value, in quotes or without, and what stands behind it; refuses where none stands here.
#[tactic(auto, unfolding(crate::specs::inner::Parts::value_at))]
fn value(alloc: Global, bytes: &[u8]) -> Result<(Bytes, &[u8]), LineError>
    ensures { Gives (λ found. (found.0, found.1.now)) result (value_at bytes.now) }
{
    match bytes {
        [b'"', rest @ ..] => quoted(alloc, rest),
        _ => bare(alloc, bytes),
    }
}

/// The option that stands here; none where no space, dash and letter stand here.
#[tactic(auto, unfolding(crate::specs::inner::Parts::option_at))]
fn option(alloc: Global, bytes: &[u8]) -> Result<(Option<(u8, Bytes)>, &[u8]), LineError>
    ensures { Gives (λ found. (found.0, found.1.now)) result (option_at bytes.now) }
{
    let Some((letter, rest)) = letter(bytes) else {
        return Ok((None, bytes));
    };
    let (value, rest) = value(alloc, spaces(rest)?)?;
    Ok((Some((letter, value)), rest))
}

/// Reads the options that stand here, and what stands behind them; refuses a letter without a value.
fn given(alloc: Global, bytes: &[u8]) -> Result<(Vec<(u8, Bytes)>, &[u8]), LineError>
    ensures { Gives (λ found. (found.0.items, found.1.now)) result (items_at option_at (length bytes.now) bytes.now) }
{
    let mut options = Vec::new(alloc);
    let mut rest = bytes;
    for _ in 0..bytes.len() {
        let (found, after) = option(alloc, rest)?;
        match found {
            None => return Ok((options, after)),
            Some(one) => options.push(one)?,
        }
        rest = after;
    }
    Ok((options, rest))
}

/// Reads the options that stand here as a list, and what stands behind them; refuses a letter without a value.
#[tactic(auto, unfolding(crate::specs::inner::Parts::options_at))]
pub(crate) fn options(alloc: Global, bytes: &[u8]) -> Result<(Items<(u8, Bytes)>, &[u8]), LineError>
    ensures { Gives (λ found. (found.0, found.1.now)) result (options_at bytes.now) }
{
    let (options, rest) = given(alloc, bytes)?;
    Ok((Items::of(options), rest))
}

/// What a text decodes to: strict base64, of which each list of bytes has one.
#[tactic(auto, unfolding(base64::specs::GeneralPurpose::decoded_of))]
pub(crate) fn payload(alloc: Global, text: &[u8]) -> Result<Bytes, LineError>
    ensures { Gives (λ p. p) result (decoded_of standard text.now) }
{
    match STANDARD.decode(alloc, text) {
        Ok(bytes) => Ok(Bytes::of(bytes)),
        Err(DecodeAllocError::OutOfMemory) => Err(LineError::Memory),
        Err(DecodeAllocError::DecodeError(_)) => Err(LineError::Parse),
    }
}
