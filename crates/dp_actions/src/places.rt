//! What is done with places whose indices are evaluated.

ghost use Rattle.std.specs.Prelude.{◌≡◌, map, IfOk};
ghost use Rattle.dp_value.specs.KeyOf.{key_of_data};
ghost use Rattle.dp_value.specs.Value.{data_of};
ghost use Rattle.dp_state.specs.Places.{assigned, given_keys as all_given, keys_of_indices, unset};
ghost use Rattle.dp_actions.specs.AtOnce.{AtOnce};
ghost use Rattle.dp_actions.specs.Places.{assign_run, found_run, missing_run, read_run, variable as value_named};
ghost use Rattle.dp_actions.specs.inner.Keyed.{keyed_write};
ghost use Rattle.dp_operations.specs.Indices.{read_by as read_under};
ghost use Rattle.dp_actions.specs.InPlace.{entries_by};
ghost use Rattle.dp_actions.specs.Loops.{bind_name};
ghost use Rattle.dp_actions.specs.Values.{value_run};
ghost use Rattle.dp_actions.specs.Run.{and_then, given_up, taken};

use crate::answers::{missing_of, value_of};
use crate::entry_reads::{Reading, entry_by, is_missing_by};
use crate::faults::settled;
use crate::halt::Halt;
use crate::operands::variable_value;
use dp_bytes::{Bytes, Memory};
use dp_state::State;
use dp_value::{Key, Value, ValueError, key_of};
use std::alloc::Global;
use std::slice;

/// The value of a variable of the top frame, null where it is missing.
pub fn variable(name: &Bytes, state: &State) -> Result<Value, Memory>
    ensures { IfOk result (λ value. value ≡ value_named name.now state.now) }
{
    match state.read(name) {
        Some(value) => value.try_clone(),
        None => Ok(Value::Null),
    }
}

/// The value of a place.
pub fn read_place(
    alloc: Global,
    name: &Bytes,
    indices: &[Value],
    state: &State,
) -> Result<Value, Halt>
    ensures { AtOnce (read_run name.now indices.now state.now) result state.now }
{
    place_by(alloc, Reading::Plain, name, indices, state)
}

/// The value of a place as isset finds it.
pub fn found_place(
    alloc: Global,
    name: &Bytes,
    indices: &[Value],
    state: &State,
) -> Result<Value, Halt>
    ensures { AtOnce (found_run name.now indices.now state.now) result state.now }
{
    place_by(alloc, Reading::Found, name, indices, state)
}

/// Whether isset finds nothing at a place, or null. Copies nothing of what it finds.
pub fn is_missing_place(
    alloc: Global,
    name: &Bytes,
    indices: &[Value],
    state: &State,
) -> Result<bool, Halt>
    ensures { AtOnce (missing_run name.now indices.now state.now) result state.now }
{
    match state.read(name) {
        Some(value) => missing_of(is_missing_by(alloc, value, indices), state),
        None => missing_of(is_missing_by(alloc, &Value::Null, indices), state),
    }
}

/// The value of a place by a reading. What a variable or an entry holds is not copied.
fn place_by(
    alloc: Global,
    reading: Reading,
    name: &Bytes,
    indices: &[Value],
    state: &State,
) -> Result<Value, Halt>
    ensures { AtOnce (value_run (read_under (entries_by reading) (map data_of indices.now)
        (data_of (value_named name.now state.now))) state.now) result state.now }
{
    if indices.is_empty() {
        return variable_value(name, state);
    }
    match state.read(name) {
        Some(value) => value_of(entry_by(alloc, reading, value, indices), state),
        None => value_of(entry_by(alloc, reading, &Value::Null, indices), state),
    }
}

/// Writes a value, or one more entry, and gives the value.
pub fn assign_place(
    alloc: Global,
    name: &Bytes,
    indices: &[Value],
    push: bool,
    value: Value,
    state: &mut State,
) -> Result<Value, Halt>
    ensures { AtOnce (assign_run name.now indices.now push value state.old) result state.new }
{
    let keys = keys_of(alloc, indices)?;
    assign_keyed(name, keys.as_slice(), push, value, state)
}

/// Writes a value, or one more entry.
pub(crate) fn put_place(
    alloc: Global,
    name: &Bytes,
    indices: &[Value],
    push: bool,
    value: Value,
    state: &mut State,
) -> Result<(), Halt>
    ensures { AtOnce (and_then (assign_run name.now indices.now push value state.old) given_up) result state.new }
{
    if let [index] = indices {
        let key = key_at(index)?;
        return write_keyed(name, slice::from_ref(&key), push, value, state);
    }
    let keys = keys_of(alloc, indices)?;
    write_keyed(name, keys.as_slice(), push, value, state)
}

/// Writes a value, or one more entry, under keys, and gives the value.
fn assign_keyed(
    name: &Bytes,
    keys: &[Option<Key>],
    push: bool,
    value: Value,
    state: &mut State,
) -> Result<Value, Halt>
    ensures { AtOnce (keyed_write name.now keys.now push value state.old) result state.new }
{
    let copy = value.try_clone()?;
    write_keyed(name, keys, push, value, state)?;
    Ok(copy)
}

/// Writes a value under keys.
fn write_keyed(
    name: &Bytes,
    keys: &[Option<Key>],
    push: bool,
    value: Value,
    state: &mut State,
) -> Result<(), Halt>
    ensures { AtOnce (taken (assigned 0 name.now keys.now push value state.old) state.old) result state.new }
{
    let step = state.assign(0, name, keys, push, value);
    settled(step, state)
}

/// Gives a variable a value.
pub fn assign_variable(name: &Bytes, value: Value, state: &mut State) -> Result<(), Halt>
    ensures { AtOnce (bind_name name.now value state.old) result state.new }
{
    write_keyed(name, &[], false, value, state)
}

/// Takes a variable, or an entry of it, away.
pub fn unset_place(
    alloc: Global,
    name: &Bytes,
    indices: &[Value],
    state: &mut State,
) -> Result<(), Halt>
    ensures { AtOnce (taken (unset name.now (keys_of_indices indices.now) state.old) state.old) result state.new }
{
    let keys = keys_of(alloc, indices)?;
    let step = state.unset(name, keys.as_slice());
    settled(step, state)
}

/// The keys that indices become. One that is an array becomes none.
pub(crate) fn keys_of(alloc: Global, indices: &[Value]) -> Result<Vec<Option<Key>>, Memory>
    ensures { IfOk result (λ keys. keys.items ≡ keys_of_indices indices.now) }
{
    let mut keys = Vec::with_capacity(alloc, indices.len())?;
    for index in indices {
        keys.push(key_at(index)?)?;
    }
    Ok(keys)
}

/// The key that an index becomes.
pub fn key_at(index: &Value) -> Result<Option<Key>, Memory>
    ensures { IfOk result (λ key. key ≡ key_of_data (data_of index.now)) }
{
    match key_of(index) {
        Ok(key) => Ok(Some(key)),
        Err(ValueError::BadKey) => Ok(None),
        Err(_) => Err(Memory),
    }
}

/// Copies of the keys, each as `Some`: `None` would be an index that is no key.
pub fn given_keys(alloc: Global, keys: &[Key]) -> Result<Vec<Option<Key>>, Memory>
    ensures { IfOk result (λ given. given.items ≡ all_given keys.now) }
{
    let mut given = Vec::with_capacity(alloc, keys.len())?;
    for key in keys {
        given.push(Some(key.try_clone()?))?;
    }
    Ok(given)
}
