//! Expressions that change nothing: their values in a state, which is lent.

ghost use Rattle.std.specs.Prelude.{◌≡◌, true};
ghost use Rattle.dp_tree.specs.Purity.{is_pure};
ghost use Rattle.dp_actions.specs.Expressions.{evaluation};
ghost use Rattle.dp_actions.specs.Observed.{Observed};

use crate::halt::Halt;
use dp_state::State;
use dp_tree::Expression;
use dp_value::Value;
use std::alloc::Global;

/// What evaluates expressions that change nothing: where memory is taken, and the state, which is lent.
#[derive(Drop)]
pub(crate) struct Observer<'a> {
    pub(crate) alloc: Global,
    pub(crate) state: &'a State,
}

/// The value of an expression without calls, assignments, `++`, `--` and includes in the top frame of a state, or the
/// fault that ends it. The state is lent; of it only the entries that are read and the texts that are joined are
/// copied.
pub fn observe(alloc: Global, state: &State, e: &Expression) -> Result<Value, Halt>
    requires { is_pure e.now ≡ true }
    ensures { Observed (evaluation e.now) result state.now }
{
    let observer = Observer { alloc, state };
    observer.expression(e)
}
