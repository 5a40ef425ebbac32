//! The values of the smallest expressions, and tests of values.

#![tactic(auto, using(crate::proofs::AtOnceLaws::acting))]

ghost use Rattle.std.specs.Prelude.{◌≡◌};
ghost use Rattle.dp_state.specs.declared.state.State.{State as AnyState};
ghost use Rattle.dp_value.specs.declared.value.Value.TheVariants as variant;
ghost use Rattle.dp_actions.specs.AtOnce.{AtOnce};
ghost use Rattle.dp_actions.specs.Places.{variable as value_named};
ghost use Rattle.dp_actions.specs.Run.{Done};
ghost use Rattle.dp_actions.specs.Values.{holds as value_holds, kept_of, present_of};

use crate::answers::is_missing;
use crate::halt::Halt;
use crate::places::variable;
use dp_bytes::{Bytes, Text};
use dp_state::State;
use dp_value::{Value, truthy};

/// The value of a text literal. Its bytes are not copied.
pub fn text_value(text: &Text) -> Result<Value, Halt>
    ensures { (s : AnyState) → AtOnce (Done (variant.Text text.now) s) result s }
{
    Ok(Value::Text(text.try_clone()?))
}

/// The value of a variable.
pub fn variable_value(name: &Bytes, state: &State) -> Result<Value, Halt>
    ensures { AtOnce (Done (value_named name.now state.now) state.now) result state.now }
{
    Ok(variable(name, state)?)
}

/// The value, or `None` if it is null.
pub fn present(value: Value) -> Option<Value>
    ensures { result ≡ present_of value }
{
    if is_missing(&value) {
        drop(value);
        return None;
    }
    Some(value)
}

/// The value, or `None` if it does not hold.
pub fn kept(value: Value) -> Option<Value>
    ensures { result ≡ kept_of value }
{
    if truthy(&value) {
        return Some(value);
    }
    drop(value);
    None
}

/// Whether a value holds, which is given up.
pub fn holds(value: Value) -> bool
    ensures { result ≡ value_holds value }
{
    let holds = truthy(&value);
    drop(value);
    holds
}
