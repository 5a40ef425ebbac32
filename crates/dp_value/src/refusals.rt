//! Whether a write is refused, which is known before anything changes.

ghost use Rattle.std.specs.Prelude.{◌≡◌, min, Ok};
ghost use Rattle.dp_value.specs.Data.{Data, Table, weight_of};
ghost use Rattle.dp_value.specs.Value.{data_of};
ghost use Rattle.dp_value.specs.Entry.{pushed, within, written};
ghost use Rattle.dp_value.specs.inner.Writes.{cause_of, put_under, written_in};

use crate::{Key, PhpArray, Value, WEIGHT_LIMIT, WriteError};
use std::alloc::Global;

/// Why a value of such a weight cannot be written under these keys, or pushed there, where so much else weighs beside
/// the value that is written into. Takes no memory, and the work grows with the number of keys.
#[cycle(refusing)]
pub(crate) fn refusal(
    alloc: Global,
    value: &Value,
    keys: &[Option<Key>],
    push: bool,
    weight: u64,
    beside: u64,
) -> Option<WriteError>
    ensures { (new : Data) → min (weight_of new) u64.MAX ≡ weight
        → result ≡ cause_of (within beside (written keys.now push new (data_of value.now))) }
{
    if keys.is_empty() && !push {
        return too_heavy(weight, beside);
    }
    match value {
        Value::Array(array) => refusal_in(alloc, array, keys, push, weight, beside),
        Value::Null | Value::Bool(false) => {
            refusal_in(alloc, &PhpArray::new(alloc), keys, push, weight, beside)
        }
        Value::Bool(true) | Value::Int(_) => Some(WriteError::Scalar),
        Value::Text(_) => Some(WriteError::Unsupported),
    }
}

/// The same of an array.
#[cycle(refusing)]
fn refusal_in(
    alloc: Global,
    array: &PhpArray,
    keys: &[Option<Key>],
    push: bool,
    weight: u64,
    beside: u64,
) -> Option<WriteError>
    ensures { (new : Data) → min (weight_of new) u64.MAX ≡ weight
        → result ≡ cause_of (within beside (written_in keys.now push new array.now)) }
{
    let Some((key, rest)) = keys.split_first() else {
        return push_refusal(array, weight, beside);
    };
    let Some(key) = key else {
        return Some(WriteError::BadKey);
    };
    let (child, others) = array.entry(key);
    let beside_child = others.saturating_add(beside);
    match child {
        Some(child) => refusal(alloc, child, rest, push, weight, beside_child),
        None => refusal(alloc, &Value::Null, rest, push, weight, beside_child),
    }
}

/// Why a value of such a weight cannot be pushed into an array.
fn push_refusal(array: &PhpArray, weight: u64, beside: u64) -> Option<WriteError>
    ensures { (new : Data) → min (weight_of new) u64.MAX ≡ weight
        → result ≡ cause_of (within beside (pushed new array.now)) }
{
    let Some(key) = next_key(array.largest()) else {
        return Some(WriteError::NextIndex);
    };
    let (_, others) = array.entry(&key);
    too_heavy(weight, others.saturating_add(beside))
}

/// Whether a value of such a weight is too heavy.
fn too_heavy(weight: u64, beside: u64) -> Option<WriteError>
    ensures { (new : Data) → min (weight_of new) u64.MAX ≡ weight
        → result ≡ cause_of (within beside (Ok new)) }
{
    let whole = weight.saturating_add(beside);
    if whole > WEIGHT_LIMIT {
        return Some(WriteError::TooHeavy);
    }
    None
}

/// The key under which a value goes that is pushed into an array with this largest integer key.
pub(crate) fn next_key(largest: Option<i64>) -> Option<Key>
    ensures { (d : Data) (t : Table) → t.largest ≡ largest → pushed d t ≡ put_under result d t }
{
    match largest {
        None => Some(Key::Int(0)),
        Some(i64::MAX) => None,
        Some(largest) => Some(Key::Int(largest + 1)),
    }
}
