//! The keys that values become.

ghost use Rattle.std.specs.Prelude.{◌≡◌, ◌⊎◌, None, Some, MatchResult, IsErrOf, IfOk};
ghost use Rattle.dp_value.specs.KeyOf.{key_of_data, key_of_text, IsText};
ghost use Rattle.dp_value.specs.Value.{data_of};

use crate::{Key, Value, ValueError};
use dp_bytes::{Memory, Text, int_of_text};

/// The key that a value becomes: a bool is 0 or 1, null the empty text, a text that spells an
/// integer of 64 bits in its shortest form is that integer.
///
/// `BadKey` comes exactly for an array. Null, a bool and an integer take no memory.
/// Source: the PHP manual, "Arrays".
pub fn key_of(value: &Value) -> Result<Key, ValueError>
    ensures key { MatchResult result (λ k. key_of_data (data_of value.now) ≡ Some k)
        (λ e. (e ≡ ValueError.Memory) ⊎ ((e ≡ ValueError.BadKey) × (key_of_data (data_of value.now) ≡ None))) }
    ensures memory { IsErrOf result ValueError.Memory → IsText (data_of value.now) }
{
    match value {
        Value::Null => Ok(Key::Text(Text::empty())),
        Value::Bool(b) => Ok(Key::Int(i64::from(*b))),
        Value::Int(n) => Ok(Key::Int(*n)),
        Value::Text(text) => Ok(text_key(text)?),
        Value::Array(_) => Err(ValueError::BadKey),
    }
}

/// The key that a text becomes.
fn text_key(text: &Text) -> Result<Key, Memory>
    ensures { IfOk result (λ k. k ≡ key_of_text text.now) }
{
    match int_of_text(text.as_slice()) {
        Some(n) => Ok(Key::Int(n)),
        None => Ok(Key::Text(text.try_clone()?)),
    }
}
