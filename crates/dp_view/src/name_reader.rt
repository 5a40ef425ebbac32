//! Reading the names of properties. What names no path is reported before memory is taken.

ghost use Rattle.std.specs.Prelude.{◌≡◌, ok_or, IfOk};
ghost use Rattle.dp_value.specs.KeyOf.{key_of_text};
ghost use Rattle.dp_view.specs.Answers.{Answers};
ghost use Rattle.dp_view.specs.NameReader.{path_at};
ghost use Rattle.dp_view.specs.inner.Items.{key_meant, keys_taken, text_taken};

use crate::Memory;
use crate::errors::ViewError;
use crate::spelling::{Spelling, byte, index, parts};
use dp_bytes::{Bytes, Items, Text, int_of_text};
use dp_packet::ErrorCode;
use dp_state::Path;
use dp_value::Key;
use std::alloc::Global;

/// The bytes between quotes, behind the opening one.
fn text(alloc: Global, quote: u8, bytes: &[u8]) -> Result<Vec<u8>, Memory>
    ensures { IfOk result (λ text. text.items ≡ text_taken quote bytes.now) }
{
    let mut text = Vec::new(alloc);
    let mut rest = bytes;
    for _ in 0..bytes.len() {
        let Some((found, after)) = byte(quote, rest) else {
            return Ok(text);
        };
        let Some(b) = found else {
            return Ok(text);
        };
        text.push(b)?;
        rest = after;
    }
    Ok(text)
}

/// The key that a text becomes.
fn key_of(alloc: Global, text: Vec<u8>) -> Result<Key, Memory>
    ensures { IfOk result (λ key. key ≡ key_of_text text.items) }
{
    match int_of_text(text.as_slice()) {
        Some(n) => Ok(Key::Int(n)),
        None => Ok(Key::Text(Text::of(alloc, text)?)),
    }
}

/// The key that is spelt so.
fn key(alloc: Global, spelling: Spelling) -> Result<Key, Memory>
    ensures { IfOk result (λ key. key ≡ key_meant spelling.entry) }
{
    match spelling {
        Spelling::Int(n) => Ok(Key::Int(n)),
        Spelling::Text(quote, bytes) => key_of(alloc, text(alloc, quote, bytes)?),
    }
}

/// The keys of indices.
fn keys(alloc: Global, bytes: &[u8]) -> Result<Vec<Key>, Memory>
    ensures { IfOk result (λ keys. keys.items ≡ keys_taken bytes.now) }
{
    let mut keys = Vec::new(alloc);
    let mut rest = bytes;
    for _ in 0..bytes.len() {
        let Some((found, after)) = index(rest) else {
            return Ok(keys);
        };
        let Some(spelling) = found else {
            return Ok(keys);
        };
        keys.push(key(alloc, spelling)?)?;
        rest = after;
    }
    Ok(keys)
}

/// The path that bytes name, as commands ask for a property: an optional `$`, the name of a variable, and keys between
/// brackets, each an integer or a text between double or single quotes.
///
/// The code is 300, exactly where the bytes name no path; then no memory is taken.
pub fn read_name(alloc: Global, bytes: &[u8]) -> Result<Path, ViewError>
    ensures { Answers (λ path. path) result (ok_or (path_at bytes.now) ErrorCode.CannotGetProperty) }
{
    let Some((name, indices)) = parts(bytes) else {
        return Err(ViewError::Code(ErrorCode::CannotGetProperty));
    };
    Ok(Path {
        name: Bytes::from_slice(alloc, name)?,
        keys: Items::of(keys(alloc, indices)?),
    })
}
