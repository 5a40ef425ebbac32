//! A text that grows in an entry.

ghost use Rattle.std.specs.Prelude.{◌≡◌, ◌⊎◌, ◌++◌, false, Ok, Err, IfOk, IfErr, IsOk, OnOk, OnErr};
ghost use Rattle.dp_value.specs.declared.errors.WriteError.{WriteError as AnyCause};
ghost use Rattle.dp_value.specs.declared.errors.WriteError.TheVariants as cause;
ghost use Rattle.dp_value.specs.Data.{null, text as text_data};
ghost use Rattle.dp_value.specs.Value.{data_of};
ghost use Rattle.dp_value.specs.Entry.{write_result, IsCause};

use crate::refusals::refusal;
use crate::writes::write;
use crate::{Key, Value, WriteError};
use dp_bytes::{Memory, Text};
use std::alloc::Global;

/// Writes a text with a piece behind it under `keys`, without keys in place of the value itself, and gives it. What
/// stands there goes first: so a text that has no owner but the entry and who calls grows in its place.
///
/// It is refused as by `write_at`, also where there is no memory, and then the value is as before. Once memory ran out
/// it is as before, or the entry is null.
pub fn append_at(
    alloc: Global,
    value: &mut Value,
    keys: &[Option<Key>],
    text: Text,
    piece: &[u8],
) -> Result<Text, WriteError>
    ensures longer { IfOk result (λ longer. longer ≡ text ++ piece.now) }
    ensures ok { OnOk result (write_result keys.now false (text_data (text ++ piece.now)) (data_of value.old) ≡ Ok
        (data_of value.new)) }
    ensures refused { IfErr result (IsCause (write_result keys.now false (text_data (text ++ piece.now))
        (data_of value.old))) }
    ensures sure { (why : AnyCause) → write_result keys.now false (text_data (text ++ piece.now)) (data_of value.old)
        ≡ Err why → result ≡ Err why }
    ensures err { IfErr result (λ e. (value.new ≡ value.old)
        ⊎ ((e ≡ cause.Memory) × (write_result keys.now false null (data_of value.old) ≡ Ok (data_of value.new)))) }
{
    let weight = (text.len() as u64).saturating_add(piece.len() as u64);
    match refusal(alloc, value, keys, false, weight, 0) {
        Some(why) => Err(why),
        None => match grow(alloc, value, keys, text, piece) {
            Ok(longer) => Ok(longer),
            Err(_) => Err(WriteError::Memory),
        },
    }
}

/// The same where it is not refused.
fn grow(
    alloc: Global,
    value: &mut Value,
    keys: &[Option<Key>],
    text: Text,
    piece: &[u8],
) -> Result<Text, Memory>
    requires { IsOk (write_result keys.now false (text_data (text ++ piece.now)) (data_of value.old)) }
    ensures longer { IfOk result (λ longer. longer ≡ text ++ piece.now) }
    ensures ok { OnOk result (write_result keys.now false (text_data (text ++ piece.now)) (data_of value.old) ≡ Ok
        (data_of value.new)) }
    ensures err { OnErr result ((value.new ≡ value.old)
        ⊎ (write_result keys.now false null (data_of value.old) ≡ Ok (data_of value.new))) }
{
    write(alloc, value, keys, false, Value::Null)?;
    let (longer, copy) = twice(alloc, text, piece)?;
    write(alloc, value, keys, false, Value::Text(longer))?;
    Ok(copy)
}

/// A text with a piece behind it, for two owners.
fn twice(alloc: Global, text: Text, piece: &[u8]) -> Result<(Text, Text), Memory>
    ensures { IfOk result (λ both. (both.0 ≡ text ++ piece.now) × (both.1 ≡ text ++ piece.now)) }
{
    let mut longer = text;
    longer.append(alloc, piece)?;
    let copy = longer.try_clone()?;
    Ok((longer, copy))
}
