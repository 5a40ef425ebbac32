//! Values read under an index.

ghost use Rattle.std.specs.Prelude.{◌≡◌, ◌⊎◌, [], ◌∷◌, option_map, Ok, Err, Some, IfOk, MatchResult};
ghost use Rattle.dp_value.specs.Data.{text};
ghost use Rattle.dp_value.specs.Value.{data_of};
ghost use Rattle.dp_operations.specs.Answers.{Answers};
ghost use Rattle.dp_operations.specs.Indices.{byte_at as byte_of, indexed};
ghost use Rattle.dp_operations.specs.Indices.{letter_at as letter_of, looked_up, reading};
ghost use Rattle.dp_operations.specs.Found.{data_of_found};

use dp_bytes::{Memory, Text};
use dp_value::{Value, ValueError, key_of};
use std::alloc::Global;

/// The value read under an index: of an array the one under its key, and null where there is none; of a text one byte;
/// of another value null.
///
/// `BadKey` comes exactly where an array is read by an array, and `Unsupported` exactly where a text has no byte under
/// the index. What an entry holds is not copied. Source: the PHP manual, "Arrays" and "Strings".
pub fn index(alloc: Global, holder: &Value, index: &Value) -> Result<Value, ValueError>
    ensures { Answers result (indexed (data_of holder.now) (data_of index.now)) }
{
    match under(holder, index, true) {
        Ok(found) => Ok(copy(alloc, found)?),
        Err(why) => Err(why),
    }
}

/// The value that `isset` finds under an index: as [`index`] reads it, and null where a text has no byte there.
///
/// `BadKey` comes exactly where an array is read by an array. Source: the PHP manual, "isset".
pub fn find(alloc: Global, holder: &Value, index: &Value) -> Result<Value, ValueError>
    ensures { Answers result (looked_up (data_of holder.now) (data_of index.now)) }
{
    match under(holder, index, false) {
        Ok(found) => Ok(copy(alloc, found)?),
        Err(why) => Err(why),
    }
}

/// What stands under an index: nothing, a byte of a text, or an entry of an array, which is lent.
#[derive(Clone, Copy)]
pub enum Found<'a> {
    Nothing,
    Letter(u8),
    Entry(&'a Value),
}

/// What a reading finds under an index: [`index`], where it is plain, else [`find`]. Copies nothing.
pub fn under<'a>(holder: &'a Value, index: &Value, plain: bool) -> Result<Found<'a>, ValueError>
    ensures { MatchResult result (λ found. reading plain (data_of holder.now) (data_of index.now) ≡ Ok
        (data_of_found found))
        (λ e. (e ≡ ValueError.Memory) ⊎ (reading plain (data_of holder.now) (data_of index.now) ≡ Err e)) }
{
    match holder {
        Value::Array(array) => {
            let key = match key_of(index) {
                Ok(key) => key,
                Err(why) => return Err(why),
            };
            match array.get(&key) {
                Some(value) => Ok(Found::Entry(value)),
                None => Ok(Found::Nothing),
            }
        }
        Value::Text(bytes) => match letter_at(bytes.as_slice(), index) {
            Some(byte) => Ok(Found::Letter(byte)),
            None if plain => Err(ValueError::Unsupported),
            None => Ok(Found::Nothing),
        },
        Value::Null | Value::Bool(_) | Value::Int(_) => Ok(Found::Nothing),
    }
}

/// The byte of a text under an index; only an integer has a position.
fn letter_at(bytes: &[u8], index: &Value) -> Option<u8>
    ensures { option_map (λ byte. text (byte ∷ [])) result ≡ letter_of bytes.now (data_of index.now) }
{
    match index {
        Value::Int(position) => byte_at(bytes, *position),
        _ => None,
    }
}

/// A byte of a text by its position, which is counted from the end where it is negative.
fn byte_at(bytes: &[u8], position: i64) -> Option<u8>
    ensures { result ≡ byte_of bytes.now position }
{
    if position < 0 {
        let back = position.unsigned_abs() as usize;
        if back > bytes.len() {
            return None;
        }
        return Some(bytes[bytes.len() - back]);
    }
    bytes.get(position as usize).copied()
}

/// A copy of what stands under an index; null where nothing does.
pub fn copy(alloc: Global, found: Found) -> Result<Value, Memory>
    ensures { IfOk result (λ value. data_of value ≡ data_of_found found.entry) }
{
    match found {
        Found::Nothing => Ok(Value::Null),
        Found::Letter(byte) => Ok(Value::Text(Text::from_slice(alloc, &[byte])?)),
        Found::Entry(value) => value.try_clone(),
    }
}
