//! The items of array literals.

ghost use Rattle.std.specs.Prelude.{[], ◌∷◌, true, false};
ghost use Rattle.dp_value.specs.Entry.{write_result};
ghost use Rattle.dp_value.specs.Value.{data_of};
ghost use Rattle.dp_state.specs.Places.{keys_of_indices};
ghost use Rattle.dp_actions.specs.AtOnce.{AtOnce};
ghost use Rattle.dp_actions.specs.Values.{write_run};

use crate::faults::fault;
use crate::halt::Halt;
use crate::places::key_at;
use dp_state::{Fault, State};
use dp_value::{Key, Value, write_at};
use std::alloc::Global;
use std::slice;

/// An array with a value behind its last.
pub fn pushed(alloc: Global, array: Value, value: Value, state: &State) -> Result<Value, Halt>
    ensures { AtOnce (write_run (write_result [] true (data_of value) (data_of array)) state.now) result state.now }
{
    let mut longer = array;
    match write_at(alloc, &mut longer, &[], true, value) {
        Ok(()) => Ok(longer),
        Err(why) => {
            drop(longer);
            Err(fault(Fault::from(why), state))
        }
    }
}

/// An array with a value under an index.
pub fn put(
    alloc: Global,
    array: Value,
    index: &Value,
    value: Value,
    state: &State,
) -> Result<Value, Halt>
    ensures { AtOnce (write_run (write_result (keys_of_indices (index.now ∷ [])) false (data_of value)
        (data_of array)) state.now) result state.now }
{
    let key = key_at(index)?;
    put_under(alloc, array, &key, value, state)
}

/// An array with a value under a key.
fn put_under(
    alloc: Global,
    array: Value,
    key: &Option<Key>,
    value: Value,
    state: &State,
) -> Result<Value, Halt>
    ensures { AtOnce (write_run (write_result (key.now ∷ []) false (data_of value) (data_of array)) state.now) result
        state.now }
{
    let mut longer = array;
    match write_at(alloc, &mut longer, slice::from_ref(key), false, value) {
        Ok(()) => Ok(longer),
        Err(why) => {
            drop(longer);
            Err(fault(Fault::from(why), state))
        }
    }
}
