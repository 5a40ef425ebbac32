//! Items of array literals, by what their evaluation answers.

ghost use Rattle.std.specs.Prelude.{[], ◌∷◌, true, false};
ghost use Rattle.dp_value.specs.Entry.{write_result};
ghost use Rattle.dp_value.specs.Value.{data_of};
ghost use Rattle.dp_state.specs.Places.{keys_of_indices};
ghost use Rattle.dp_actions.specs.After.{Then};
ghost use Rattle.dp_actions.specs.Values.{write_run};

use crate::halt::Halt;
use crate::items::{pushed, put};
use dp_state::State;
use dp_value::Value;
use std::alloc::Global;

/// An array with a value behind its last.
pub fn then_pushed(
    alloc: Global,
    array: Value,
    value: Result<Value, Halt>,
    state: &State,
) -> Result<Value, Halt>
    ensures { Then value (λ v s. write_run (write_result [] true (data_of v) (data_of array)) s) state.now result
        state.now }
{
    let value = value?;
    pushed(alloc, array, value, state)
}

/// An array with a value under an index.
pub fn then_put(
    alloc: Global,
    array: Value,
    index: &Value,
    value: Result<Value, Halt>,
    state: &State,
) -> Result<Value, Halt>
    ensures { Then value (λ v s. write_run (write_result (keys_of_indices (index.now ∷ [])) false (data_of v)
        (data_of array)) s) state.now result state.now }
{
    let value = value?;
    put(alloc, array, index, value, state)
}
