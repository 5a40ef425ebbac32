//! PHP's texts as JSON's texts, and back.

ghost use Rattle.std.specs.Prelude.{◌≡◌, IfOk, string_bytes};
ghost use Rattle.std.specs.Str.{chars};
ghost use Rattle.dp_bodies.specs.Texts as spec;

use dp_bytes::{Bytes, Memory};
use std::alloc::Global;

/// The JSON text of a PHP text: each byte is the character of its number.
pub fn json_text(alloc: Global, bytes: &[u8]) -> Result<String, Memory>
    ensures { IfOk result (λ text. string_bytes text ≡ spec.json_text bytes.now) }
{
    let mut text = String::new(alloc);
    for byte in bytes {
        text.push(char::from(*byte))?;
    }
    Ok(text)
}

/// The characters of a text.
fn characters(alloc: Global, text: &str) -> Result<Vec<char>, Memory>
    ensures { IfOk result (λ list. list.items ≡ chars text.now) }
{
    let list: Vec<char> = text.chars().collect(alloc)?;
    Ok(list)
}

/// The bytes that the characters stand for, unless one is above U+00FF.
fn low_bytes(alloc: Global, characters: &[char]) -> Result<Option<Bytes>, Memory>
    ensures { IfOk result (λ bytes. bytes ≡ spec.low_bytes characters.now) }
{
    let mut bytes = Vec::with_capacity(alloc, characters.len())?;
    for character in characters {
        let code = *character as u32;
        if code > 255 {
            return Ok(None);
        }
        bytes.push(code as u8)?;
    }
    Ok(Some(Bytes::of(bytes)))
}

/// The PHP text that a JSON text is, unless it has a character above U+00FF.
pub fn php_text(alloc: Global, text: &str) -> Result<Option<Bytes>, Memory>
    ensures { IfOk result (λ bytes. bytes ≡ spec.php_text text.now) }
{
    let characters = characters(alloc, text)?;
    low_bytes(alloc, characters.as_slice())
}
