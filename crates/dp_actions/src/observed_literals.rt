//! The values of array literals whose items change nothing.

#![tactic(auto, using(crate::proofs::AtOnceLaws::acting))]

use crate::entries::{then_pushed, then_put};
use crate::halt::Halt;
use crate::observer::Observer;
use dp_tree::{Expression, Item};
use dp_value::{PhpArray, Value};

impl Observer<'_> {
    ghost use Rattle.std.specs.Prelude.{◌≡◌, true, map, Some};
    ghost use Rattle.std.specs.List.{list_all};
    ghost use Rattle.dp_value.specs.declared.value.Value.TheVariants as variant;
    ghost use Rattle.dp_value.specs.Table.{empty};
    ghost use Rattle.dp_tree.specs.Purity.{is_pure};
    ghost use Rattle.dp_tree.specs.inner.Parts.{item_is_pure};
    ghost use Rattle.dp_actions.specs.Expressions.{expression_run, item_run, item_run_of, items_run};
    ghost use Rattle.dp_actions.specs.Observed.{Observed};

    /// The value of a literal.
    #[cycle(observe)]
    pub(crate) fn array(&self, items: &[Item]) -> Result<Value, Halt>
        requires { list_all item_is_pure items.now ≡ true }
        ensures { Observed (items_run (map item_run_of items.now) (variant.Array empty)) result self.now.state.now }
    {
        let mut array = Value::Array(PhpArray::new(self.alloc));
        for item in items {
            array = self.item(item, array)?;
        }
        Ok(array)
    }

    /// A literal with one item more.
    #[cycle(observe)]
    fn item(&self, item: &Item, array: Value) -> Result<Value, Halt>
        requires { item_is_pure item.now ≡ true }
        ensures { Observed (item_run_of item.now array) result self.now.state.now }
    {
        match &item.key {
            None => then_pushed(self.alloc, array, self.expression(&item.value), self.state),
            Some(key) => self.keyed(key, &item.value, array),
        }
    }

    /// A literal with one item more, under a key.
    #[cycle(observe)]
    fn keyed(&self, key: &Expression, item: &Expression, array: Value) -> Result<Value, Halt>
        requires key { is_pure key.now ≡ true }
        requires item { is_pure item.now ≡ true }
        ensures { Observed (item_run (Some (expression_run key.now)) (expression_run item.now) array) result
            self.now.state.now }
    {
        match self.expression(key) {
            Ok(at) => {
                let answer = then_put(self.alloc, array, &at, self.expression(item), self.state);
                drop(at);
                answer
            }
            Err(halt) => {
                drop(array);
                Err(halt)
            }
        }
    }
}
