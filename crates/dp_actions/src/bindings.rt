//! The binding of names: those of a `foreach`, and those of a `global`.

ghost use Rattle.std.specs.Prelude.{◌≡◌, None, Some, slice_get, IsOk};
ghost use Rattle.dp_value.specs.declared.key.Key.{Key as EntryKey};
ghost use Rattle.dp_value.specs.Data.{Data};
ghost use Rattle.dp_actions.specs.AtOnce.{AtOnce};
ghost use Rattle.dp_actions.specs.Loops.{bind, bind_key as bind_run, bind_name};
ghost use Rattle.dp_actions.specs.Run.{Done};
ghost use Rattle.dp_actions.specs.Effects.{with_globals};

use crate::halt::Halt;
use crate::places::assign_variable;
use dp_bytes::Bytes;
use dp_state::State;
use dp_tree::Binding;
use dp_value::{Key, PhpArray, Value};

/// Binds the entry at a position: its value, then its key. Where there is none it does nothing.
pub fn bind_entry(
    binding: &Binding,
    array: &PhpArray,
    at: usize,
    state: &mut State,
) -> Result<(), Halt>
    ensures entry { (entry : EntryKey × Data) → slice_get array.now.pairs at ≡ Some entry
        → AtOnce (bind binding.now entry state.old) result state.new }
    ensures past { slice_get array.now.pairs at ≡ None → IsOk result × (state.new ≡ state.old) }
{
    match array.pair(at) {
        None => Ok(()),
        Some((key, value)) => {
            bind_value(&binding.value, value, state)?;
            bind_key(&binding.key, key, state)
        }
    }
}

/// Binds the value of an entry.
fn bind_value(name: &Bytes, value: &Value, state: &mut State) -> Result<(), Halt>
    ensures { AtOnce (bind_name name.now value.now state.old) result state.new }
{
    assign_variable(name, value.try_clone()?, state)
}

/// Binds the key of an entry.
fn bind_key(name: &Option<Bytes>, key: &Key, state: &mut State) -> Result<(), Halt>
    ensures { AtOnce (bind_run name.now key.now state.old) result state.new }
{
    match name {
        None => Ok(()),
        Some(name) => assign_variable(name, key.to_value()?, state),
    }
}

/// Binds names of the top frame to the global variables.
pub fn bind_all(names: &[Bytes], state: &mut State) -> Result<(), Halt>
    ensures { AtOnce (Done tt (with_globals names.now state.old)) result state.new }
{
    for name in names {
        state.bind(name)?;
    }
    Ok(())
}
