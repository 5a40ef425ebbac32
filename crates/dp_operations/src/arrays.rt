//! The built-in functions on arrays.

ghost use Rattle.std.specs.Prelude.{◌≡◌, ◌<◌, ◌≤◌, ◌⊎◌, pos, length, map, Some, IfErr, IfOk, OnOk};
ghost use Rattle.dp_value.specs.Data.{data_of_key, pairs_weight};
ghost use Rattle.dp_value.specs.Table.{table_push, largest_int, values_of, weight_limit};
ghost use Rattle.dp_value.specs.Value.{data_of};
ghost use Rattle.dp_operations.specs.Builtins as table;
ghost use Rattle.dp_operations.specs.Builtins.{count_of, on_one, single as one_of, CallAnswers, CallGives};
ghost use Rattle.dp_operations.specs.Lists.{light_array, list_of};

use crate::arguments::single;
use dp_bytes::Memory;
use dp_value::{CallError, PhpArray, Value, ValueError};
use std::alloc::Global;

/// The number of entries of an array.
pub(crate) fn count(args: &[&Value]) -> Result<Value, CallError>
    ensures { CallGives result (on_one count_of (one_of (map (λ a. data_of a.now) args.now))) }
{
    let Some(a) = single(args) else {
        return Err(CallError::Arguments);
    };
    match a {
        Value::Array(array) => Ok(Value::Int(entries(array))),
        Value::Null | Value::Bool(_) | Value::Int(_) | Value::Text(_) => {
            Err(CallError::Unsupported)
        }
    }
}

/// The number of entries.
fn entries(array: &PhpArray) -> i64
    ensures { result ≡ pos (length array.now.pairs) }
{
    array.len() as i64
}

/// The keys of an array, as a list.
pub(crate) fn key_list(alloc: Global, args: &[&Value]) -> Result<Value, CallError>
    ensures { CallAnswers result (on_one table.key_list (one_of (map (λ a. data_of a.now) args.now))) }
{
    let Some(a) = single(args) else {
        return Err(CallError::Arguments);
    };
    match a {
        Value::Array(array) => list_of_keys(alloc, array),
        Value::Null | Value::Bool(_) | Value::Int(_) | Value::Text(_) => {
            Err(CallError::Unsupported)
        }
    }
}

/// The values of an array, as a list.
pub(crate) fn value_list(alloc: Global, args: &[&Value]) -> Result<Value, CallError>
    ensures { CallAnswers result (on_one table.value_list (one_of (map (λ a. data_of a.now) args.now))) }
{
    let Some(a) = single(args) else {
        return Err(CallError::Arguments);
    };
    match a {
        Value::Array(array) => list_of_values(alloc, array),
        Value::Null | Value::Bool(_) | Value::Int(_) | Value::Text(_) => {
            Err(CallError::Unsupported)
        }
    }
}

/// The values of an array in its order, each with one owner more.
pub(crate) fn values(alloc: Global, array: &PhpArray) -> Result<Vec<Value>, Memory>
    ensures { IfOk result (λ values. map data_of values.items ≡ values_of array.now.pairs) }
{
    let mut values = Vec::with_capacity(alloc, array.len())?;
    for at in 0..array.len() {
        let Some((_key, value)) = array.pair(at) else {
            unreachable!();
        };
        values.push(value.try_clone()?)?;
    }
    Ok(values)
}

/// The keys of an array, as a list.
fn list_of_keys(alloc: Global, array: &PhpArray) -> Result<Value, CallError>
    ensures { CallAnswers result (light_array (list_of (map (λ p. data_of_key p.0) array.now.pairs))) }
{
    let mut list = PhpArray::new(alloc);
    for at in 0..array.len() {
        let Some((key, _value)) = array.pair(at) else {
            unreachable!();
        };
        append(&mut list, key.to_value()?)?;
    }
    Ok(Value::Array(list))
}

/// The values of an array, as a list.
fn list_of_values(alloc: Global, array: &PhpArray) -> Result<Value, CallError>
    ensures { CallAnswers result (light_array (list_of (values_of array.now.pairs))) }
{
    let mut list = PhpArray::new(alloc);
    for at in 0..array.len() {
        let Some((_key, value)) = array.pair(at) else {
            unreachable!();
        };
        append(&mut list, value.try_clone()?)?;
    }
    Ok(Value::Array(list))
}

/// Adds a value at the end of a list.
fn append(list: &mut PhpArray, value: Value) -> Result<(), CallError>
    ensures ok { OnOk result (list.new ≡ table_push list.old (data_of value)) }
    ensures only { IfErr result (λ e. (e ≡ CallError.Memory)
        ⊎ ((e ≡ CallError.NextIndex) × (list.old.largest ≡ Some largest_int))
        ⊎ ((e ≡ CallError.TooHeavy) × (weight_limit < pairs_weight (table_push list.old (data_of value)).pairs))) }
    ensures light { OnOk result (pairs_weight list.new.pairs ≤ weight_limit) }
{
    match list.push(value) {
        Ok(()) => Ok(()),
        Err(ValueError::NextIndex) => Err(CallError::NextIndex),
        Err(ValueError::TooHeavy) => Err(CallError::TooHeavy),
        Err(_) => Err(CallError::Memory),
    }
}
