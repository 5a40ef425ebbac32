//! Entries written, however deep.

ghost use Rattle.std.specs.Prelude.{◌≡◌, ◌≤◌, Ok, Err, IfOk, IfErr, IsOk, OnOk, OnErr};
ghost use Rattle.dp_value.specs.declared.errors.WriteError.{WriteError as AnyCause};
ghost use Rattle.dp_value.specs.Data.{data_of_table, pairs_weight};
ghost use Rattle.dp_value.specs.Table.{empty, put, table_set, weight_limit};
ghost use Rattle.dp_value.specs.Value.{data_of};
ghost use Rattle.dp_value.specs.Entry.{light, pushed, write_result, IsCause};
ghost use Rattle.dp_value.specs.inner.Writes.{written_in};

use crate::refusals::{next_key, refusal};
use crate::value::Columns;
use crate::{Key, PhpArray, Value, WriteError, weight};
use dp_bytes::Memory;
use std::alloc::Global;
use std::rc::Rc;

/// Writes one entry, however deep: the value under `keys`, or a new one that is pushed there. A key that is `None`
/// stands for an index that is no key. Without keys the value itself is replaced, or pushed into. Null and false on the
/// way become arrays. The work grows with the number of keys, and not with the size of the arrays.
///
/// The causes are tried key by key: `Scalar` and `Unsupported` by what holds the entry, then `BadKey`; behind the last
/// key `NextIndex`, then `TooHeavy` where the value, or an array on the way, would weigh more than `WEIGHT_LIMIT`; all
/// also where there is no memory. After a refusal the value is as before. Source: the PHP manual, "Arrays".
pub fn write_at(
    alloc: Global,
    value: &mut Value,
    keys: &[Option<Key>],
    push: bool,
    new: Value,
) -> Result<(), WriteError>
    ensures ok { OnOk result (write_result keys.now push (data_of new) (data_of value.old) ≡ Ok (data_of value.new)) }
    ensures refused { IfErr result (λ e. IsCause (write_result keys.now push (data_of new) (data_of value.old)) e) }
    ensures sure { (why : AnyCause) → write_result keys.now push (data_of new) (data_of value.old) ≡ Err why
        → result ≡ Err why }
    ensures err { OnErr result (value.new ≡ value.old) }
{
    match refusal(alloc, value, keys, push, weight(&new), 0) {
        Some(why) => {
            drop(new);
            Err(why)
        }
        None => match write(alloc, value, keys, push, new) {
            Ok(()) => Ok(()),
            Err(_) => Err(WriteError::Memory),
        },
    }
}

/// Writes one entry where that is not refused.
#[cycle(writing)]
pub(crate) fn write(
    alloc: Global,
    value: &mut Value,
    keys: &[Option<Key>],
    push: bool,
    new: Value,
) -> Result<(), Memory>
    requires { IsOk (write_result keys.now push (data_of new) (data_of value.old)) }
    ensures ok { OnOk result (write_result keys.now push (data_of new) (data_of value.old) ≡ Ok (data_of value.new)) }
    ensures err { OnErr result (value.new ≡ value.old) }
{
    if keys.is_empty() && !push {
        replace(value, new);
        return Ok(());
    }
    match value {
        Value::Array(array) => write_into(alloc, array, keys, push, new),
        Value::Null | Value::Bool(false) => {
            let array = write_new(alloc, keys, push, new)?;
            *value = Value::Array(array);
            Ok(())
        }
        Value::Bool(true) | Value::Int(_) | Value::Text(_) => Err(Memory),
    }
}

/// Writes one entry of an array. What it keeps is copied first where it has other owners.
#[cycle(writing)]
fn write_into(
    alloc: Global,
    array: &mut PhpArray,
    keys: &[Option<Key>],
    push: bool,
    new: Value,
) -> Result<(), Memory>
    requires { IsOk (light (written_in keys.now push (data_of new) array.old)) }
    ensures ok { OnOk result (light (written_in keys.now push (data_of new) array.old) ≡ Ok (data_of_table array.new)) }
    ensures err { OnErr result (array.new ≡ array.old) }
{
    if let Some(columns) = &mut array.columns {
        return write_row(alloc, Rc::make_mut(columns)?, keys, push, new);
    }
    *array = write_new(alloc, keys, push, new)?;
    Ok(())
}

/// A new array with one entry.
#[cycle(writing)]
fn write_new(
    alloc: Global,
    keys: &[Option<Key>],
    push: bool,
    new: Value,
) -> Result<PhpArray, Memory>
    requires { IsOk (light (written_in keys.now push (data_of new) empty)) }
    ensures { IfOk result (λ array. light (written_in keys.now push (data_of new) empty) ≡ Ok (data_of_table array)) }
{
    let mut columns = Columns::new(alloc);
    write_row(alloc, &mut columns, keys, push, new)?;
    array_of(alloc, columns)
}

/// Writes one entry of what an array keeps.
#[cycle(writing)]
fn write_row(
    alloc: Global,
    columns: &mut Columns,
    keys: &[Option<Key>],
    push: bool,
    new: Value,
) -> Result<(), Memory>
    requires { IsOk (light (written_in keys.now push (data_of new) columns.old)) }
    ensures ok { OnOk result (light (written_in keys.now push (data_of new) columns.old) ≡ Ok
        (data_of_table columns.new)) }
    ensures err { OnErr result (columns.new ≡ columns.old) }
{
    let Some((key, rest)) = keys.split_first() else {
        return push_into(columns, new);
    };
    let Some(key) = key else {
        return Err(Memory);
    };
    let Some(mut child) = columns.exchange(key, Value::Null) else {
        let mut child = Value::Null;
        write(alloc, &mut child, rest, push, new)?;
        return set_entry(columns, key.try_clone()?, child);
    };
    let result = write(alloc, &mut child, rest, push, new);
    let _ = columns.exchange(key, child);
    result
}

/// The array that keeps these columns.
fn array_of(alloc: Global, columns: Columns) -> Result<PhpArray, Memory>
    ensures { IfOk result (λ array. array ≡ columns) }
{
    match Rc::new(alloc, columns) {
        Ok(columns) => Ok(PhpArray {
            alloc,
            columns: Some(columns),
        }),
        Err(_) => Err(Memory),
    }
}

/// Puts a value in the place of another.
fn replace(value: &mut Value, new: Value)
    ensures { value.new ≡ new }
{
    *value = new;
}

/// Pushes a value into what an array keeps.
fn push_into(columns: &mut Columns, new: Value) -> Result<(), Memory>
    requires { IsOk (light (pushed (data_of new) columns.old)) }
    ensures ok { OnOk result (light (pushed (data_of new) columns.old) ≡ Ok (data_of_table columns.new)) }
    ensures err { OnErr result (columns.new ≡ columns.old) }
{
    let Some(key) = next_key(columns.largest()) else {
        return Err(Memory);
    };
    set_entry(columns, key, new)
}

/// Puts a value under a key, where it is not too heavy.
fn set_entry(columns: &mut Columns, key: Key, value: Value) -> Result<(), Memory>
    requires { pairs_weight (put columns.old.pairs key (data_of value)) ≤ weight_limit }
    ensures ok { OnOk result (columns.new ≡ table_set columns.old key (data_of value)) }
    ensures err { OnErr result (columns.new ≡ columns.old) }
{
    let weight = columns.weight_with(&key, &value);
    columns.insert(key, value, weight)
}
