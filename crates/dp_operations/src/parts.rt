//! Parts of texts.

ghost use Rattle.std.specs.Prelude.{◌≡◌, ◌≤◌, ◌<◌, ◌+◌, ◌++◌, ◌⊎◌, map, length, IfOk, OnOk, IfErr};
ghost use Rattle.dp_value.specs.Data.{text};
ghost use Rattle.dp_value.specs.Table.{weight_limit};
ghost use Rattle.dp_value.specs.Value.{data_of};
ghost use Rattle.dp_operations.specs.Builtins as table;
ghost use Rattle.dp_operations.specs.Builtins.{double as two_of, joining_of, on_two, on_three, repetition_of};
ghost use Rattle.dp_operations.specs.Builtins.{triple as three_of, CallAnswers};
ghost use Rattle.dp_operations.specs.Parts.{end_of, join_by, part_of, start_of, repeated as repeated_of};
ghost use Rattle.dp_operations.specs.Text.{text_of};

use crate::arguments::double;
use crate::arrays::values;
use crate::texts::text_bytes;
use dp_bytes::{Memory, Text};
use dp_value::{CallError, Value, WEIGHT_LIMIT};
use std::alloc::Global;

/// A part of a text: from an offset on, a count of bytes or all.
pub(crate) fn part(alloc: Global, args: &[&Value]) -> Result<Value, CallError>
    ensures { CallAnswers result (on_three table.part (three_of (map (λ a. data_of a.now) args.now))) }
{
    match args {
        [a, b] => part_from(alloc, a, b, &Value::Null),
        [a, b, c] => part_from(alloc, a, b, c),
        _ => Err(CallError::Arguments),
    }
}

/// A part of a text, where the operands are a text, an integer, and an integer or null.
fn part_from(alloc: Global, a: &Value, b: &Value, c: &Value) -> Result<Value, CallError>
    ensures { CallAnswers result (table.part (data_of a.now) (data_of b.now) (data_of c.now)) }
{
    match (a, b, c) {
        (Value::Text(bytes), Value::Int(offset), Value::Null) => {
            cut(alloc, bytes.as_slice(), *offset, None)
        }
        (Value::Text(bytes), Value::Int(offset), Value::Int(count)) => {
            cut(alloc, bytes.as_slice(), *offset, Some(*count))
        }
        _ => Err(CallError::Unsupported),
    }
}

/// The part of some bytes from an offset on, a count of bytes or all.
fn cut(alloc: Global, bytes: &[u8], offset: i64, count: Option<i64>) -> Result<Value, CallError>
    ensures { CallAnswers result (Ok (text (part_of bytes.now offset count))) }
{
    let start = start(bytes.len(), offset);
    let end = end(bytes.len(), start, count);
    Ok(Value::Text(Text::from_slice(alloc, &bytes[start..end])?))
}

/// Where a part begins.
fn start(len: usize, offset: i64) -> usize
    ensures start { result ≡ start_of len offset }
    ensures within { result ≤ len }
{
    if offset < 0 {
        len.saturating_sub(offset.unsigned_abs() as usize)
    } else {
        len.min(offset as usize)
    }
}

/// Where a part that begins at a place ends.
fn end(len: usize, start: usize, count: Option<i64>) -> usize
    requires { start ≤ len }
    ensures end { result ≡ end_of len start count }
    ensures behind { start ≤ result }
    ensures within { result ≤ len }
{
    match count {
        None => len,
        Some(count) if count < 0 => start.max(len.saturating_sub(count.unsigned_abs() as usize)),
        Some(count) => len.min(start.saturating_add(count as usize)),
    }
}

/// A text repeated.
pub(crate) fn repetition(alloc: Global, args: &[&Value]) -> Result<Value, CallError>
    ensures { CallAnswers result (on_two table.repetition (two_of (map (λ a. data_of a.now) args.now))) }
{
    let Some((a, b)) = double(args) else {
        return Err(CallError::Arguments);
    };
    match (a, b) {
        (Value::Text(bytes), Value::Int(count)) => repeated(alloc, bytes.as_slice(), *count),
        _ => Err(CallError::Unsupported),
    }
}

/// Some bytes a number of times.
fn repeated(alloc: Global, bytes: &[u8], count: i64) -> Result<Value, CallError>
    ensures { CallAnswers result (repetition_of bytes.now count) }
{
    if count < 0 {
        return Err(CallError::Arguments);
    }
    let count = count as u64;
    if count.saturating_mul(bytes.len() as u64) > WEIGHT_LIMIT {
        return Err(CallError::TooHeavy);
    }
    Ok(Value::Text(Text::of(alloc, copies(alloc, bytes, count)?)?))
}

/// Some bytes a number of times.
fn copies(alloc: Global, bytes: &[u8], count: u64) -> Result<Vec<u8>, Memory>
    ensures { IfOk result (λ v. v.items ≡ repeated_of count bytes.now) }
{
    let mut copies = Vec::new(alloc);
    if bytes.is_empty() {
        return Ok(copies);
    }
    for _ in 0..count {
        copies.extend_from_slice(bytes)?;
    }
    Ok(copies)
}

/// The values of an array as texts, with a text between them.
pub(crate) fn joining(alloc: Global, args: &[&Value]) -> Result<Value, CallError>
    ensures { CallAnswers result (on_two table.joining (two_of (map (λ a. data_of a.now) args.now))) }
{
    let Some((a, b)) = double(args) else {
        return Err(CallError::Arguments);
    };
    match (a, b) {
        (Value::Text(glue), Value::Array(array)) => {
            joined(alloc, glue.as_slice(), values(alloc, array)?.as_slice())
        }
        _ => Err(CallError::Unsupported),
    }
}

/// The texts of values, with a text between them.
fn joined(alloc: Global, glue: &[u8], values: &[Value]) -> Result<Value, CallError>
    ensures { CallAnswers result (joining_of (join_by glue.now (map text_of (map data_of values.now)))) }
{
    let [first, rest @ ..] = values else {
        return Ok(Value::Text(Text::empty()));
    };
    let mut bytes = Vec::new(alloc);
    append(&mut bytes, text_bytes(alloc, first)?.as_slice())?;
    for value in rest {
        append(&mut bytes, glue)?;
        append(&mut bytes, text_bytes(alloc, value)?.as_slice())?;
    }
    Ok(Value::Text(Text::of(alloc, bytes)?))
}

/// Adds bytes at the end of a text, where it does not become too heavy.
fn append(bytes: &mut Vec<u8>, more: &[u8]) -> Result<(), CallError>
    ensures ok { OnOk result ((bytes.new.items ≡ bytes.old.items ++ more.now)
        × (length bytes.new.items ≤ weight_limit)) }
    ensures only { IfErr result (λ e. (e ≡ CallError.Memory)
        ⊎ ((e ≡ CallError.TooHeavy) × (weight_limit < length bytes.old.items + length more.now))) }
{
    if bytes.len() as u64 + more.len() as u64 > WEIGHT_LIMIT {
        return Err(CallError::TooHeavy);
    }
    bytes.extend_from_slice(more)?;
    Ok(())
}
