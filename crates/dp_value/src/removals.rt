//! Entries removed, however deep.

ghost use Rattle.std.specs.Prelude.{◌≡◌, ◌∷◌, Ok, Err, IfErr, OnOk, OnErr};
ghost use Rattle.dp_value.specs.declared.errors.WriteError.{WriteError as AnyCause};
ghost use Rattle.dp_value.specs.Data.{data_of_table};
ghost use Rattle.dp_value.specs.Value.{data_of};
ghost use Rattle.dp_value.specs.Entry.{removed, IsCause};
ghost use Rattle.dp_value.specs.inner.Removals.{removed_in, IsAnswer};

use crate::value::Columns;
use crate::{Key, PhpArray, Value, WriteError};
use std::rc::Rc;

/// Removes the entry under `keys`, however deep. A key that is `None` stands for an index that is no key. Without keys
/// nothing is removed. Null and false on the way, and an entry that is missing, leave the value as it is. Each array on
/// the way that has other owners is copied first, where there is an entry to remove; else no memory is taken.
///
/// The causes are tried key by key: `Scalar` and `Unsupported` by what holds the entry, then `BadKey`, all also where
/// there is no memory. After a refusal the value is as before. Source: the PHP manual, "unset".
pub fn remove_at(value: &mut Value, keys: &[Option<Key>]) -> Result<(), WriteError>
    ensures ok { OnOk result (removed keys.now (data_of value.old) ≡ Ok (data_of value.new)) }
    ensures refused { IfErr result (IsCause (removed keys.now (data_of value.old))) }
    ensures sure { (why : AnyCause) → removed keys.now (data_of value.old) ≡ Err why → result ≡ Err why }
    ensures err { OnErr result (value.new ≡ value.old) }
{
    match unchanged(value, keys) {
        Some(answer) => answer,
        None => take_away(value, keys),
    }
}

/// What a removal answers that changes nothing: why it is refused, or that there is no such entry. Takes no memory.
#[cycle(looking)]
fn unchanged(value: &Value, keys: &[Option<Key>]) -> Option<Result<(), WriteError>>
    ensures { IsAnswer (removed keys.now (data_of value.now)) (data_of value.now) result }
{
    let Some((key, rest)) = keys.split_first() else {
        return Some(Ok(()));
    };
    match value {
        Value::Array(array) => unchanged_in(array, key, rest),
        Value::Null | Value::Bool(false) => Some(Ok(())),
        Value::Bool(true) | Value::Int(_) => Some(Err(WriteError::Scalar)),
        Value::Text(_) => Some(Err(WriteError::Unsupported)),
    }
}

/// What a removal from an array answers that changes nothing.
#[cycle(looking)]
fn unchanged_in(
    array: &PhpArray,
    key: &Option<Key>,
    rest: &[Option<Key>],
) -> Option<Result<(), WriteError>>
    ensures { IsAnswer (removed (key.now ∷ rest.now) (data_of_table array.now)) (data_of_table array.now) result }
{
    let Some(key) = key else {
        return Some(Err(WriteError::BadKey));
    };
    let Some(child) = array.get(key) else {
        return Some(Ok(()));
    };
    if rest.is_empty() {
        return None;
    }
    unchanged(child, rest)
}

/// Removes the entry under keys.
#[cycle(removing)]
fn take_away(value: &mut Value, keys: &[Option<Key>]) -> Result<(), WriteError>
    ensures ok { OnOk result (removed keys.now (data_of value.old) ≡ Ok (data_of value.new)) }
    ensures refused { IfErr result (IsCause (removed keys.now (data_of value.old))) }
    ensures err { OnErr result (value.new ≡ value.old) }
{
    let Some((key, rest)) = keys.split_first() else {
        return Ok(());
    };
    match value {
        Value::Array(array) => take_from(array, key, rest),
        Value::Null | Value::Bool(false) => Ok(()),
        Value::Bool(true) | Value::Int(_) => Err(WriteError::Scalar),
        Value::Text(_) => Err(WriteError::Unsupported),
    }
}

/// Removes the entry of an array under a key and those behind it.
#[cycle(removing)]
fn take_from(
    array: &mut PhpArray,
    key: &Option<Key>,
    rest: &[Option<Key>],
) -> Result<(), WriteError>
    ensures ok { OnOk result (removed (key.now ∷ rest.now) (data_of_table array.old) ≡ Ok (data_of_table array.new)) }
    ensures refused { IfErr result (IsCause (removed (key.now ∷ rest.now) (data_of_table array.old))) }
    ensures err { OnErr result (array.new ≡ array.old) }
{
    let Some(key) = key else {
        return Err(WriteError::BadKey);
    };
    if let Some(columns) = &mut array.columns {
        return take_row(Rc::make_mut(columns)?, key, rest);
    }
    Ok(())
}

/// Removes the entry under a key and those behind it from what an array keeps.
#[cycle(removing)]
fn take_row(columns: &mut Columns, key: &Key, rest: &[Option<Key>]) -> Result<(), WriteError>
    ensures ok { OnOk result (removed_in key.now rest.now columns.old ≡ Ok (data_of_table columns.new)) }
    ensures refused { IfErr result (IsCause (removed_in key.now rest.now columns.old)) }
    ensures err { OnErr result (columns.new ≡ columns.old) }
{
    if rest.is_empty() {
        let _ = columns.remove(key);
        return Ok(());
    }
    let Some(mut child) = columns.exchange(key, Value::Null) else {
        return Ok(());
    };
    let result = take_away(&mut child, rest);
    let _ = columns.exchange(key, child);
    result
}
