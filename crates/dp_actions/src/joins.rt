//! Texts that are joined: one that has no other owner grows in its place.

ghost use Rattle.std.specs.Prelude.{◌≡◌, ◌++◌, false, IfOk};
ghost use Rattle.dp_tree.specs.declared.operators.BinaryOp.TheVariants as operator;
ghost use Rattle.dp_value.specs.Value.{data_of};
ghost use Rattle.dp_operations.specs.Binary.{binary_of};
ghost use Rattle.dp_operations.specs.Text.{joined as joined_data, light_text, text_of};
ghost use Rattle.dp_actions.specs.AtOnce.{AtOnce};
ghost use Rattle.dp_actions.specs.Places.{combined};
ghost use Rattle.dp_actions.specs.inner.Keyed.{keyed_write};
ghost use Rattle.dp_actions.specs.Run.{and_then};
ghost use Rattle.dp_actions.specs.Values.{value_run};

use crate::answers::value_of;
use crate::faults::{fatal, fault};
use crate::halt::Halt;
use crate::places::keys_of;
use dp_bytes::{Bytes, Memory, Text};
use dp_operations::{binary, text};
use dp_state::{FatalKind, State};
use dp_tree::BinaryOp;
use dp_value::{Key, Value, is_beyond};
use std::alloc::Global;

/// What an operator makes of two values.
pub fn operated(
    alloc: Global,
    op: BinaryOp,
    left: Value,
    right: &Value,
    state: &State,
) -> Result<Value, Halt>
    ensures { AtOnce (value_run (binary_of op (data_of left) (data_of right.now)) state.now) result state.now }
{
    match op {
        BinaryOp::Concat => joined(alloc, left, right, state),
        _ => {
            let answer = value_of(binary(alloc, op, &left, right), state);
            drop(left);
            answer
        }
    }
}

/// Two texts joined. One that has no other owner grows in its place.
fn joined(alloc: Global, left: Value, right: &Value, state: &State) -> Result<Value, Halt>
    ensures { AtOnce (value_run (joined_data (data_of left) (data_of right.now)) state.now) result state.now }
{
    let piece = text_of_value(alloc, right)?;
    joined_with(alloc, left, piece.as_slice(), state)
}

/// The text of a value with a piece behind it.
fn joined_with(alloc: Global, value: Value, piece: &[u8], state: &State) -> Result<Value, Halt>
    ensures { AtOnce (value_run (light_text (text_of (data_of value) ++ piece.now)) state.now) result state.now }
{
    let mut text = into_text(alloc, value)?;
    if is_beyond(&text, piece) {
        return Err(fatal(FatalKind::TooHeavy, state));
    }
    text.append(alloc, piece)?;
    Ok(Value::Text(text))
}

/// The text of a value. That of a text keeps its owners.
fn into_text(alloc: Global, value: Value) -> Result<Text, Memory>
    ensures { IfOk result (λ text. text ≡ text_of (data_of value)) }
{
    match value {
        Value::Text(text) => Ok(text),
        other => text_of_value(alloc, &other),
    }
}

/// The text of a value.
fn text_of_value(alloc: Global, value: &Value) -> Result<Text, Memory>
    ensures { IfOk result (λ text. text ≡ text_of (data_of value.now)) }
{
    match text(alloc, value) {
        Ok(text) => Ok(text),
        Err(_) => Err(Memory),
    }
}

/// Puts the text of a value behind that of an old one, writes it under indices, and gives it. An old text that has no
/// owner but its place grows there.
pub(crate) fn grown(
    alloc: Global,
    name: &Bytes,
    indices: &[Value],
    old: Value,
    value: &Value,
    state: &mut State,
) -> Result<Value, Halt>
    ensures { AtOnce (combined operator.Concat name.now indices.now old value.now state.old) result state.new }
{
    let piece = text_of_value(alloc, value)?;
    let keys = keys_of(alloc, indices)?;
    let text = into_text(alloc, old)?;
    grown_by(name, keys.as_slice(), text, piece.as_slice(), state)
}

/// The same of a text and a piece, under keys.
fn grown_by(
    name: &Bytes,
    keys: &[Option<Key>],
    text: Text,
    piece: &[u8],
    state: &mut State,
) -> Result<Value, Halt>
    ensures { AtOnce (and_then (value_run (light_text (text ++ piece.now)) state.old)
        (λ new t. keyed_write name.now keys.now false new t)) result state.new }
{
    if is_beyond(&text, piece) {
        return Err(fatal(FatalKind::TooHeavy, state));
    }
    match state.append(name, keys, text, piece) {
        Ok(longer) => Ok(Value::Text(longer)),
        Err(why) => Err(fault(why, state)),
    }
}
