//! Places that are given a value.

ghost use Rattle.std.specs.Prelude.{false};
ghost use Rattle.dp_meaning.specs.Writes.{place_or_fault, with_place};
ghost use Rattle.dp_state.specs.Places.{assigned, given_keys as all_given};
ghost use Rattle.dp_write_commands.specs.inner.Writes.{Puts};

use dp_actions::given_keys;
use dp_bytes::Memory;
use dp_packet::ErrorCode;
use dp_state::{Fault, Path, State};
use dp_value::{Key, Value};
use dp_view::ViewError;
use std::alloc::Global;

/// Gives a place under keys a value, where it can hold it.
fn put_keyed(
    state: &mut State,
    level: usize,
    path: &Path,
    keys: &[Option<Key>],
    value: &Value,
) -> Result<(), ViewError>
    ensures { Puts (place_or_fault (assigned level path.now.name keys.now false value.now state.old))
        state.old state.new result }
{
    let value = value.try_clone()?;
    match state.assign(level, &path.name, keys, false, value) {
        Ok(()) => Ok(()),
        Err(Fault::Fatal(_)) => Err(ViewError::Code(ErrorCode::CannotGetProperty)),
        Err(Fault::Memory) => Err(ViewError::Memory),
    }
}

/// Gives a place that begins at a variable of the frame at a level a value.
fn put_at(
    alloc: Global,
    state: &mut State,
    level: usize,
    path: &Path,
    value: &Value,
) -> Result<(), ViewError>
    ensures { Puts
        (place_or_fault (assigned level path.now.name (all_given path.now.keys) false value.now state.old))
        state.old state.new result }
{
    let keys = given_keys(alloc, path.keys.as_slice())?;
    put_keyed(state, level, path, keys.as_slice(), value)
}

/// Gives a place a value, where it can hold it. Else the state is as before.
pub(crate) fn put(
    alloc: Global,
    state: &mut State,
    level: u32,
    context: u32,
    path: &Path,
    value: &Value,
) -> Result<(), ViewError>
    ensures { Puts (with_place level context path.now value.now state.old) state.old state.new result }
{
    let depth = state.frames.len();
    if level as usize >= depth {
        return Err(ViewError::Code(ErrorCode::StackDepthInvalid));
    }
    if context == 0 {
        return put_at(alloc, state, level as usize, path, value);
    }
    if context == 1 {
        return put_at(alloc, state, depth - 1, path, value);
    }
    Err(ViewError::Code(ErrorCode::CannotGetProperty))
}
