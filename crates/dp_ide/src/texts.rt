//! Names, texts and numbers in a line.
ghost use Rattle.std.specs.Prelude.{◌≡◌, ◌≤◌, IfOk, IfSome, option_map};
ghost use Rattle.dp_reply.specs.Contents.{most_16};
ghost use Rattle.dp_bytes.specs.Decimals.{decimal_in};
ghost use Rattle.dp_ide.specs.Scripts.{Behind, Text};
ghost use Rattle.dp_ide.specs.Scripts as script;
ghost use Rattle.dp_ide.specs.inner.Readers as spec;
ghost use Rattle.dp_ide.specs.inner.Readers.{Reads};

use crate::lines::behind;
use dp_bytes::{Bytes, Memory, decimal};
use std::alloc::Global;

/// The number that a hexadecimal digit of either case is.
#[tactic(auto, unfolding(dp_grammar::specs::Texts::hexadecimal_behind))]
fn digit_of(byte: u8) -> Option<u8>
    ensures digit { result ≡ script.digit_of byte }
    ensures bound { IfSome result (λ digit. digit ≤ 15) }
{
    match byte {
        b'0'..=b'9' => Some(byte - b'0'),
        b'a'..=b'f' => Some(byte - b'a' + 10),
        b'A'..=b'F' => Some(byte - b'A' + 10),
        _ => None,
    }
}

/// The byte that two hexadecimal digits make, and what is behind them.
fn in_hexadecimal(bytes: &[u8]) -> Option<(u8, &[u8])>
    ensures { option_map (λ first. (first.0, first.1.now)) result ≡ spec.in_hexadecimal bytes.now }
{
    match bytes {
        [high, low, rest @ ..] => match (digit_of(*high), digit_of(*low)) {
            (Some(high), Some(low)) => Some((high * 16 + low, rest)),
            _ => None,
        },
        _ => None,
    }
}

/// What stands behind a backslash, as one byte, and what is behind it.
fn escaped(bytes: &[u8]) -> Option<(u8, &[u8])>
    ensures { option_map (λ first. (first.0, first.1.now)) result ≡ spec.escaped bytes.now }
{
    match bytes {
        [b'n', rest @ ..] => Some((b'\n', rest)),
        [b'\\', rest @ ..] => Some((b'\\', rest)),
        [b'x', rest @ ..] => in_hexadecimal(rest),
        _ => None,
    }
}

/// What stands first in a text, as one byte, and what is behind it.
fn first_byte(bytes: &[u8]) -> Option<(u8, &[u8])>
    ensures { option_map (λ first. (first.0, first.1.now)) result ≡ spec.first_of bytes.now }
{
    match bytes {
        [b'\\', rest @ ..] => escaped(rest),
        [byte, rest @ ..] => Some((*byte, rest)),
        [] => None,
    }
}

/// The text that the bytes spell.
pub(crate) fn text_in(alloc: Global, bytes: &[u8]) -> Result<Option<Bytes>, Memory>
    ensures { IfOk result (Reads Text bytes.now) }
{
    let mut text = Vec::new(alloc);
    let mut rest = bytes;
    'bytes: while !rest.is_empty() {
        let Some((byte, behind)) = first_byte(rest) else {
            return Ok(None);
        };
        text.push(byte)?;
        rest = behind;
    }
    Ok(Some(Bytes::of(text)))
}

/// The text behind a word or a name: behind one space, or nothing at all.
pub(crate) fn text_behind(alloc: Global, bytes: &[u8]) -> Result<Option<Bytes>, Memory>
    ensures { IfOk result (Reads Behind bytes.now) }
{
    if bytes.is_empty() {
        return Ok(Some(Bytes::of(Vec::new(alloc))));
    }
    match behind(bytes, b" ") {
        Some(text) => text_in(alloc, text),
        None => Ok(None),
    }
}

/// The number that the bytes are.
pub(crate) fn number_in(bytes: &[u8]) -> Option<u16>
    ensures { result ≡ decimal_in most_16 bytes.now }
{
    match decimal(bytes, u16::MAX as u64) {
        Some(number) => Some(number as u16),
        None => None,
    }
}
