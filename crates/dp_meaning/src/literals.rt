//! The evaluation of array literals.

#![tactic(auto, using(crate::proofs::Drives::evaluating))]

use crate::evaluator::Evaluator;
use crate::outside::Outside;
use dp_actions::{Halt, then_pushed, then_put};
use dp_state::State;
use dp_tree::{Expression, Item};
use dp_value::{PhpArray, Value};

impl<O: Outside> Evaluator<'_, O> {
    ghost use Rattle.std.specs.Prelude.{map, Some};
    ghost use Rattle.dp_value.specs.declared.value.Value.TheVariants as variant;
    ghost use Rattle.dp_value.specs.Table.{empty};
    ghost use Rattle.dp_meaning.specs.inner.Drive.{Evaluates};
    ghost use Rattle.dp_meaning.specs.inner.Evaluation.{goes_by};
    ghost use Rattle.dp_actions.specs.Expressions.{expression_run, item_run, items_run};
    ghost use Rattle.dp_actions.specs.Expressions.{item_run_of};

    /// The value of a literal.
    #[cycle(evaluate)]
    pub(crate) fn array(&self, items: &[Item], state: &mut State) -> Result<Value, Halt>
        ensures { Evaluates (O.rules self.now.outside.now) (items_run (map item_run_of items.now)
            (variant.Array empty) (goes_by self.now) state.old) result state.new }
    {
        let mut array = Value::Array(PhpArray::new(self.alloc));
        for item in items {
            array = self.item(item, array, state)?;
        }
        Ok(array)
    }

    /// A literal with one item more.
    #[cycle(evaluate)]
    fn item(&self, item: &Item, array: Value, state: &mut State) -> Result<Value, Halt>
        ensures { Evaluates (O.rules self.now.outside.now) (item_run_of item.now array (goes_by self.now) state.old)
            result state.new }
    {
        match &item.key {
            None => then_pushed(
                self.alloc,
                array,
                self.expression(&item.value, state),
                state,
            ),
            Some(key) => self.keyed(key, &item.value, array, state),
        }
    }

    /// A literal with one item more, under a key.
    #[cycle(evaluate)]
    fn keyed(
        &self,
        key: &Expression,
        item: &Expression,
        array: Value,
        state: &mut State,
    ) -> Result<Value, Halt>
        ensures { Evaluates (O.rules self.now.outside.now) (item_run (Some (expression_run key.now))
            (expression_run item.now) array (goes_by self.now) state.old) result state.new }
    {
        match self.expression(key, state) {
            Ok(at) => {
                let answer = then_put(self.alloc, array, &at, self.expression(item, state), state);
                drop(at);
                answer
            }
            Err(halt) => {
                drop(array);
                Err(halt)
            }
        }
    }
}
