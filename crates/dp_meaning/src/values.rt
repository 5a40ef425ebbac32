//! The values of expressions that change nothing.

ghost use Rattle.std.specs.Prelude.{◌≡◌, true, IfOk};
ghost use Rattle.dp_tree.specs.Purity.{is_pure};
ghost use Rattle.dp_meaning.specs.Pure.{IsValueIn};

use dp_actions::{Halt, observe};
use dp_bytes::Memory;
use dp_state::State;
use dp_tree::{Bundle, Expression};
use dp_value::Value;
use std::alloc::Global;

/// The value of an expression without calls, assignments, `++`, `--` and includes in the top frame of a state, and
/// `None` exactly where its evaluation is fatal. The state is lent, and what a variable or an entry holds is not
/// copied.
pub fn value_in(
    alloc: Global,
    state: &State,
    bundle: &Bundle,
    e: &Expression,
) -> Result<Option<Value>, Memory>
    requires { is_pure e.now ≡ true }
    ensures { IfOk result (λ value. IsValueIn bundle.now e.now state.now value) }
{
    let _bundle = bundle;
    match observe(alloc, state, e) {
        Ok(value) => Ok(Some(value)),
        Err(Halt::Memory) => Err(Memory),
        Err(Halt::Finished(_)) => Ok(None),
        Err(Halt::Stopped(_)) => unreachable!(),
    }
}
