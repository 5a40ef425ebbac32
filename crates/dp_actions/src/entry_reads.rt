//! Entries that are read where they stand.

ghost use Rattle.std.specs.Prelude.{◌≡◌, map, IfOk};
ghost use Rattle.dp_value.specs.Value.{data_of};
ghost use Rattle.dp_operations.specs.Answers.{Answers};
ghost use Rattle.dp_operations.specs.Builtins.{builtin_of};
ghost use Rattle.dp_operations.specs.Indices.{found_by, read_by as read_under, reading as reading_of};
ghost use Rattle.dp_actions.specs.AtOnce.{AtOnce};
ghost use Rattle.dp_actions.specs.InPlace.{entries_by};
ghost use Rattle.dp_actions.specs.inner.Missing.{AnswersMissing};
ghost use Rattle.dp_actions.specs.Values.{builtin_run};

use crate::answers::{builtin_value, is_missing};
use crate::halt::Halt;
use dp_bytes::Memory;
use dp_operations::{Found, builtin, copy, find, index, under};
use dp_state::State;
use dp_tree::Builtin;
use dp_value::{Value, ValueError};
use std::alloc::Global;

/// How entries are read: as values, or as isset finds them.
#[derive(Clone, Copy)]
pub enum Reading {
    Plain,
    Found,
}

/// Whether entries are read as values.
pub fn is_plain(reading: Reading) -> bool
    ensures { reading_of result ≡ entries_by reading }
{
    match reading {
        Reading::Plain => true,
        Reading::Found => false,
    }
}

/// The entry of a value under an index.
pub fn look(alloc: Global, reading: Reading, value: &Value, at: &Value) -> Result<Value, ValueError>
    ensures { Answers result (entries_by reading (data_of value.now) (data_of at.now)) }
{
    match reading {
        Reading::Plain => index(alloc, value, at),
        Reading::Found => find(alloc, value, at),
    }
}

/// The entry of a value under indices. What it holds is not copied.
pub fn entry_by(
    alloc: Global,
    reading: Reading,
    holder: &Value,
    indices: &[Value],
) -> Result<Value, ValueError>
    ensures { Answers result (read_under (entries_by reading) (map data_of indices.now) (data_of holder.now)) }
{
    let Some((index, rest)) = indices.split_first() else {
        return Ok(holder.try_clone()?);
    };
    match under(holder, index, is_plain(reading)) {
        Ok(Found::Entry(value)) => entry_by(alloc, reading, value, rest),
        Ok(found) => {
            let value = copy(alloc, found)?;
            entry_by(alloc, reading, &value, rest)
        }
        Err(why) => Err(why),
    }
}

/// Whether isset finds nothing under indices, or null. Nothing of what it finds is copied, but a byte of a text.
pub(crate) fn is_missing_by(
    alloc: Global,
    holder: &Value,
    indices: &[Value],
) -> Result<bool, ValueError>
    ensures { AnswersMissing result (found_by (map data_of indices.now) (data_of holder.now)) }
{
    let Some((index, rest)) = indices.split_first() else {
        return Ok(is_missing(holder));
    };
    match under(holder, index, false) {
        Ok(Found::Entry(value)) => is_missing_by(alloc, value, rest),
        Ok(found) => {
            let value = copy(alloc, found)?;
            is_missing_by(alloc, &value, rest)
        }
        Err(why) => Err(why),
    }
}

/// The value of a function of the table of these values, which are lent to it.
pub(crate) fn builtin_call(
    alloc: Global,
    function: Builtin,
    values: &[Value],
    state: &State,
) -> Result<Value, Halt>
    ensures { AtOnce (builtin_run (builtin_of function (map data_of values.now)) state.now) result state.now }
{
    let lent = lent(alloc, values)?;
    builtin_value(builtin(alloc, function, lent.as_slice()), state)
}

/// These values, lent.
fn lent(alloc: Global, values: &[Value]) -> Result<Vec<&Value>, Memory>
    ensures { IfOk result (λ lent. map (λ a. data_of a.now) lent.items ≡ map data_of values.now) }
{
    let mut lent = Vec::with_capacity(alloc, values.len())?;
    for value in values {
        lent.push(value)?;
    }
    Ok(lent)
}
