//! What a write gives in a state that stays as it is.

ghost use Rattle.std.specs.Prelude.{◌≡◌, false, unwrap_or, IfOk};
ghost use Rattle.dp_value.specs.declared.value.Value.TheVariants as variant;
ghost use Rattle.dp_value.specs.Entry.{write_result};
ghost use Rattle.dp_value.specs.Value.{data_of};
ghost use Rattle.dp_state.specs.Places.{assigned, given_keys as all_given};
ghost use Rattle.dp_state.specs.States.{read_at};
ghost use Rattle.dp_meaning.specs.inner.WriteAnswers.{answer_by, write_answer};
ghost use Rattle.dp_meaning.specs.Writes.{answer_in, evaluated, evaluation_setting, place_answer, place_or_fault};
ghost use Rattle.dp_meaning.specs.Writes.{value_answer, with_place};

use crate::moment_writes::evaluation;
use crate::writes::{Write, WriteAnswer};
use dp_actions::given_keys;
use dp_bytes::{Bytes, Memory};
use dp_state::{Path, State};
use dp_tree::{Bundle, Expression};
use dp_value::{Key, Value, WriteError, write_at};
use std::alloc::Global;

/// What a write gives in a state, which stays as it is: a place write copies the variable that it writes, an evaluation
/// the state.
pub fn write_in(
    alloc: Global,
    bundle: &Bundle,
    state: &State,
    write: &Write,
) -> Result<WriteAnswer, Memory>
    ensures { IfOk result (λ answer. answer ≡ answer_in (evaluation_setting bundle.now) write.now state.now) }
{
    match write {
        Write::Place {
            level,
            context,
            path,
            value,
        } => place_in(alloc, *level, *context, path, value, state),
        Write::Evaluate(e) => evaluate_in(alloc, bundle, e, state),
    }
}

/// What an evaluation gives.
fn evaluate_in(
    alloc: Global,
    bundle: &Bundle,
    e: &Expression,
    state: &State,
) -> Result<WriteAnswer, Memory>
    ensures { IfOk result (λ answer. answer ≡ value_answer (evaluated
        (evaluation_setting bundle.now) e.now state.now)) }
{
    let (value, after) = evaluation(alloc, bundle, e, state)?;
    drop(after);
    Ok(answered(value))
}

/// What the value of an evaluation is, or that there is none.
fn answered(value: Option<Value>) -> WriteAnswer
    ensures { result ≡ answer_by value }
{
    match value {
        None => WriteAnswer::Fatal,
        Some(value) => WriteAnswer::Value(value),
    }
}

/// What a write of a place gives.
fn place_in(
    alloc: Global,
    level: u32,
    context: u32,
    path: &Path,
    value: &Value,
    state: &State,
) -> Result<WriteAnswer, Memory>
    ensures { IfOk result (λ answer. answer ≡ place_answer (with_place level context path.now value.now state.now)) }
{
    let depth = state.frames.len();
    if level as usize >= depth {
        return Ok(WriteAnswer::NoFrame);
    }
    if context == 0 {
        return variable_in(alloc, level as usize, path, value, state);
    }
    if context == 1 {
        return variable_in(alloc, depth - 1, path, value, state);
    }
    Ok(WriteAnswer::NoPlace)
}

/// The same of a place that begins at a variable of the frame at a level.
fn variable_in(
    alloc: Global,
    level: usize,
    path: &Path,
    value: &Value,
    state: &State,
) -> Result<WriteAnswer, Memory>
    ensures { IfOk result (λ answer. answer ≡ place_answer (place_or_fault
        (assigned level path.now.name (all_given path.now.keys) false value.now state.now))) }
{
    let keys = given_keys(alloc, path.keys.as_slice())?;
    keyed_in(alloc, level, &path.name, keys.as_slice(), value, state)
}

/// The same under keys. A copy of the variable is written.
fn keyed_in(
    alloc: Global,
    level: usize,
    name: &Bytes,
    keys: &[Option<Key>],
    value: &Value,
    state: &State,
) -> Result<WriteAnswer, Memory>
    ensures { IfOk result (λ answer. answer ≡ place_answer (place_or_fault
        (assigned level name.now keys.now false value.now state.now))) }
{
    let mut copy = variable_at(level, name, state)?;
    let answer = try_write(alloc, &mut copy, keys, value);
    drop(copy);
    answer
}

/// Writes a value under keys, where it can be written.
fn try_write(
    alloc: Global,
    variable: &mut Value,
    keys: &[Option<Key>],
    value: &Value,
) -> Result<WriteAnswer, Memory>
    ensures { IfOk result (λ answer. answer ≡ write_answer (write_result keys.now false (data_of value.now)
        (data_of variable.old))) }
{
    match write_at(alloc, variable, keys, false, value.try_clone()?) {
        Ok(()) => Ok(WriteAnswer::Set),
        Err(WriteError::Memory) => Err(Memory),
        Err(_) => Ok(WriteAnswer::NoPlace),
    }
}

/// A copy of a variable of the frame at a level, null where it is missing.
fn variable_at(level: usize, name: &Bytes, state: &State) -> Result<Value, Memory>
    ensures { IfOk result (λ value. value ≡ unwrap_or (read_at state.now level name.now) variant.Null) }
{
    match state.read_at(level, name) {
        Some(value) => value.try_clone(),
        None => Ok(Value::Null),
    }
}
