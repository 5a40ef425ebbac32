//! Texts with escapes: how a row says bytes that do not print, or many at once; and how a report shows them.

use crate::Memory;
use crate::fields::{at_space, number_of};
use std::alloc::Global;

/// The most bytes that one repetition gives.
const REPEATED: u64 = 1 << 26;

/// What a text with escapes stands for.
pub fn unescaped(alloc: Global, text: &[u8]) -> Result<Vec<u8>, Memory> {
    let mut bytes = Vec::new(alloc);
    put_text(&mut bytes, text)?;
    Ok(bytes)
}

/// Puts what a text with escapes stands for: `\n`, `\t`, `\r`, `\0`, `\xHH` and `\\` for one byte each, `\.` for
/// none, and `\[N TEXT\]` for N times what TEXT stands for. Any other byte stands for itself.
pub(crate) fn put_text(bytes: &mut Vec<u8>, text: &[u8]) -> Result<(), Memory> {
    let mut rest = text;
    for _ in 0..text.len() {
        rest = match rest.split_first() {
            None => rest,
            Some((b'\\', behind)) => match behind.strip_prefix(b"[") {
                Some(inside) => put_repeated(bytes, inside)?,
                None => put_escape(bytes, behind)?,
            },
            Some((byte, behind)) => {
                bytes.push(*byte)?;
                behind
            }
        };
    }
    Ok(())
}

/// Puts the byte of the escape whose letter comes first. Answers what stands behind it.
fn put_escape<'a>(bytes: &mut Vec<u8>, text: &'a [u8]) -> Result<&'a [u8], Memory> {
    let Some((letter, behind)) = text.split_first() else {
        return Ok(text);
    };
    match *letter {
        b'n' => bytes.push(b'\n')?,
        b't' => bytes.push(b'\t')?,
        b'r' => bytes.push(b'\r')?,
        b'0' => bytes.push(0)?,
        b'.' => (),
        b'x' => return put_hexadecimal(bytes, behind),
        other => bytes.push(other)?,
    }
    Ok(behind)
}

/// The value of a hexadecimal digit; of any other byte 0.
fn digit(byte: u8) -> u8 {
    match byte {
        b'0'..=b'9' => byte - b'0',
        b'a'..=b'f' => byte - b'a' + 10,
        b'A'..=b'F' => byte - b'A' + 10,
        _ => 0,
    }
}

/// Puts the byte of the two digits that come first. Answers what stands behind them.
fn put_hexadecimal<'a>(bytes: &mut Vec<u8>, text: &'a [u8]) -> Result<&'a [u8], Memory> {
    match text.split_at_checked(2) {
        Some(([high, low], behind)) => {
            bytes.push(digit(*high).wrapping_mul(16).wrapping_add(digit(*low)))?;
            Ok(behind)
        }
        _ => Ok(text),
    }
}

/// What stands before the end of a repetition, and what stands behind it.
fn at_end(text: &[u8]) -> (&[u8], &[u8]) {
    for at in 0..text.len() {
        if let Some((front, back)) = text.split_at_checked(at) {
            if let Some(behind) = back.strip_prefix(b"\\]") {
                return (front, behind);
            }
        }
    }
    (text, &[])
}

/// Puts the repetition whose number comes first. Answers what stands behind its end.
fn put_repeated<'a>(bytes: &mut Vec<u8>, text: &'a [u8]) -> Result<&'a [u8], Memory> {
    let (inside, behind) = at_end(text);
    let (digits, piece) = at_space(inside);
    let mut once = Vec::new(*bytes.allocator());
    put_piece(&mut once, piece)?;
    let count = number_of(digits).unwrap_or(0).min(REPEATED);
    for _ in 0..count {
        bytes.extend_from_slice(once.as_slice())?;
    }
    Ok(behind)
}

/// Puts what a text without repetitions stands for.
fn put_piece(bytes: &mut Vec<u8>, text: &[u8]) -> Result<(), Memory> {
    let mut rest = text;
    for _ in 0..text.len() {
        rest = match rest.split_first() {
            None => rest,
            Some((b'\\', behind)) => put_escape(bytes, behind)?,
            Some((byte, behind)) => {
                bytes.push(*byte)?;
                behind
            }
        };
    }
    Ok(())
}

/// Puts a byte as a report shows it.
fn put_shown(text: &mut String, byte: u8) -> Result<(), Memory> {
    match byte {
        b'\n' => text.push_str("\\n")?,
        0 => text.push_str("\\0")?,
        b'\\' => text.push_str("\\\\")?,
        b' '..=b'~' => text.push(char::from(byte))?,
        _ => write!(text, "\\x{byte:02x}")?,
    }
    Ok(())
}

/// Puts bytes as a report shows them.
pub fn put_bytes(text: &mut String, bytes: &[u8]) -> Result<(), Memory> {
    put_window(text, bytes, 0, bytes.len())
}

/// Puts bytes as a report shows them: at most so many of those from a place on, with dots where more stand there.
pub(crate) fn put_window(
    text: &mut String,
    bytes: &[u8],
    from: usize,
    most: usize,
) -> Result<(), Memory> {
    if from > 0 {
        text.push_str("..")?;
    }
    for byte in bytes.iter().skip(from).take(most) {
        put_shown(text, *byte)?;
    }
    if bytes.len() > from.saturating_add(most) {
        text.push_str("..")?;
    }
    Ok(())
}
