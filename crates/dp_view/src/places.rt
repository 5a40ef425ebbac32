//! The variables of the contexts, and what stands in them.

ghost use Rattle.std.specs.Prelude.{◌≡◌, option_map};
ghost use Rattle.dp_state.specs.Variables.{slot_of, value_held, value_in, value_through};
ghost use Rattle.dp_value.specs.Value.{data_of};
ghost use Rattle.dp_view.specs.Answers.{AnswersSurely};
ghost use Rattle.dp_view.specs.Places as spec;

use crate::errors::ViewError;
use dp_bytes::Bytes;
use dp_packet::ErrorCode;
use dp_state::{Path, Slot, State, Vars};
use dp_value::{Key, Value};

/// The variables of the context with this id.
fn variables_of(state: &State, level: usize, id: u32) -> Option<&Vars>
    ensures { option_map (λ v. v.now) result ≡ spec.variables_of state.now level id }
{
    match id {
        0 => Some(state.variables(level)),
        1 => Some(&state.globals),
        2 => Some(&state.constants),
        _ => None,
    }
}

/// The variables of a context at a level: 301 where there is no such level, else 302 where there is no such context.
pub fn shown_variables(state: &State, level: u32, id: u32) -> Result<&Vars, ViewError>
    ensures { AnswersSurely (λ v. v.now) result (spec.shown_variables state.now level id) }
{
    let level = level as usize;
    if level >= state.frames.len() {
        return Err(ViewError::Code(ErrorCode::StackDepthInvalid));
    }
    match variables_of(state, level, id) {
        Some(variables) => Ok(variables),
        None => Err(ViewError::Code(ErrorCode::ContextInvalid)),
    }
}

/// The value of a global variable.
fn global_value<'s>(globals: &'s Vars, name: &Bytes) -> Option<&'s Value>
    ensures { option_map (λ v. v.now) result ≡ value_held (slot_of globals.now name.now) }
{
    match globals.get(name) {
        Some(Slot::Held(value)) => Some(value),
        _ => None,
    }
}

/// The value of a name that has this slot: that of the global variable of its name where it is bound.
pub fn slot_value<'s>(globals: &'s Vars, name: &Bytes, slot: &'s Slot) -> Option<&'s Value>
    ensures { option_map (λ v. v.now) result ≡
        value_through (Some slot.now) (value_held (slot_of globals.now name.now)) }
{
    match slot {
        Slot::Held(value) => Some(value),
        Slot::Bound => global_value(globals, name),
    }
}

/// The value of a variable among these.
fn variable_value<'s>(globals: &'s Vars, variables: &'s Vars, name: &Bytes) -> Option<&'s Value>
    ensures { option_map (λ v. v.now) result ≡ value_in globals.now variables.now name.now }
{
    match variables.get(name) {
        Some(slot) => slot_value(globals, name, slot),
        None => None,
    }
}

/// What stands under a key in a value, if it is an array.
fn entry_of<'v>(value: &'v Value, key: &Key) -> Option<&'v Value>
    ensures { option_map (λ v. data_of v.now) result ≡ spec.entry_of key.now (data_of value.now) }
{
    match value {
        Value::Array(array) => array.get(key),
        _ => None,
    }
}

/// What stands under keys in a value.
fn value_under<'v>(value: &'v Value, keys: &[Key]) -> Option<&'v Value>
    ensures { option_map (λ v. data_of v.now) result ≡ spec.value_under keys.now (data_of value.now) }
{
    let mut found = value;
    for key in keys {
        match entry_of(found, key) {
            Some(entry) => found = entry,
            None => return None,
        }
    }
    Some(found)
}

/// What stands at a path among these variables.
fn value_among<'s>(globals: &'s Vars, variables: &'s Vars, path: &Path) -> Option<&'s Value>
    ensures { option_map (λ v. data_of v.now) result ≡ spec.value_among globals.now path.now variables.now }
{
    match variable_value(globals, variables, &path.name) {
        Some(value) => value_under(value, path.keys.as_slice()),
        None => None,
    }
}

/// The value at a path in a context at a level; level 0 is the top frame. A path leads through arrays alone, and a
/// variable that is bound has the value of the global variable of its name.
///
/// The code is 301 exactly where the level is not below the number of frames, else 302 exactly where there is no
/// context with this id, else 300 exactly where nothing stands at the path. Takes no memory.
pub fn value_at<'s>(
    state: &'s State,
    level: u32,
    id: u32,
    path: &Path,
) -> Result<&'s Value, ViewError>
    ensures { AnswersSurely (λ v. data_of v.now) result (spec.value_at state.now level id path.now) }
{
    let variables = shown_variables(state, level, id)?;
    match value_among(&state.globals, variables, path) {
        Some(value) => Ok(value),
        None => Err(ViewError::Code(ErrorCode::CannotGetProperty)),
    }
}
