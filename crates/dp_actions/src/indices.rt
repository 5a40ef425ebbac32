//! Entries of values under an index.

#![tactic(auto, using(crate::proofs::AtOnceLaws::acting))]

ghost use Rattle.dp_value.specs.Value.{data_of};
ghost use Rattle.dp_actions.specs.After.{Then};
ghost use Rattle.dp_actions.specs.AtOnce.{AtOnce};
ghost use Rattle.dp_actions.specs.InPlace.{entries_by};
ghost use Rattle.dp_actions.specs.Values.{value_run};

use crate::answers::value_of;
use crate::entry_reads::{Reading, look};
use crate::halt::Halt;
use dp_state::State;
use dp_value::Value;
use std::alloc::Global;

/// The entry of a value under an index.
pub fn then_entry(
    alloc: Global,
    reading: Reading,
    holder: Value,
    at: Result<Value, Halt>,
    state: &State,
) -> Result<Value, Halt>
    ensures { Then at (λ i s. value_run (entries_by reading (data_of holder) (data_of i)) s) state.now result
        state.now }
{
    match at {
        Ok(at) => {
            let answer = entry_at(alloc, reading, holder, &at, state);
            drop(at);
            answer
        }
        Err(halt) => {
            drop(holder);
            Err(halt)
        }
    }
}

/// The entry of a value under an index that is evaluated.
pub fn entry_at(
    alloc: Global,
    reading: Reading,
    holder: Value,
    at: &Value,
    state: &State,
) -> Result<Value, Halt>
    ensures { AtOnce (value_run (entries_by reading (data_of holder) (data_of at.now)) state.now) result state.now }
{
    let answer = value_of(look(alloc, reading, &holder, at), state);
    drop(holder);
    answer
}
