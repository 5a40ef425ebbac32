//! The values of operators whose operands change nothing, and may be left out.

#![tactic(auto, using(crate::proofs::AtOnceLaws::acting))]

use crate::after::{then_binary, then_truth};
use crate::halt::Halt;
use crate::observer::Observer;
use crate::operands::{holds, kept, present};
use dp_tree::{Boxed, Expression, Link, Operator};
use dp_value::Value;

impl Observer<'_> {
    ghost use Rattle.std.specs.Prelude.{◌≡◌, true, map, option_map};
    ghost use Rattle.std.specs.List.{list_all};
    ghost use Rattle.std.specs.Option.{option_map_or};
    ghost use Rattle.dp_tree.specs.Purity.{is_pure};
    ghost use Rattle.dp_tree.specs.inner.Parts.{link_is_pure};
    ghost use Rattle.dp_actions.specs.Expressions.{chained, choice, coalesced, conditional, expression_run, link_run};
    ghost use Rattle.dp_actions.specs.Expressions.{links_run};
    ghost use Rattle.dp_actions.specs.Observed.{Observed};

    /// The value of operands that are joined from left to right.
    #[cycle(observe)]
    pub(crate) fn chain(&self, first: &Expression, links: &[Link]) -> Result<Value, Halt>
        requires first { is_pure first.now ≡ true }
        requires links { list_all link_is_pure links.now ≡ true }
        ensures { Observed (chained (expression_run first.now) (map link_run links.now)) result self.now.state.now }
    {
        let value = self.expression(first)?;
        self.links(value, links)
    }

    /// The value of operands that are joined to a first one.
    #[cycle(observe)]
    fn links(&self, first: Value, links: &[Link]) -> Result<Value, Halt>
        requires { list_all link_is_pure links.now ≡ true }
        ensures { Observed (links_run (map link_run links.now) first) result self.now.state.now }
    {
        let mut value = first;
        for link in links {
            value = self.link(value, link)?;
        }
        Ok(value)
    }

    /// The value of two operands that are joined.
    #[cycle(observe)]
    fn link(&self, left: Value, link: &Link) -> Result<Value, Halt>
        requires { link_is_pure link.now ≡ true }
        ensures { Observed (link_run link.now left) result self.now.state.now }
    {
        match link.operator {
            Operator::Or => {
                if holds(left) {
                    return Ok(Value::Bool(true));
                }
                then_truth(self.expression(&link.operand))
            }
            Operator::And => {
                if !holds(left) {
                    return Ok(Value::Bool(false));
                }
                then_truth(self.expression(&link.operand))
            }
            Operator::Of(op) => then_binary(
                self.alloc,
                op,
                left,
                self.expression(&link.operand),
                self.state,
            ),
        }
    }

    /// `a ?? b`
    #[cycle(observe)]
    pub(crate) fn coalesce(&self, left: &Expression, right: &Expression) -> Result<Value, Halt>
        requires left { is_pure left.now ≡ true }
        requires right { is_pure right.now ≡ true }
        ensures { Observed (coalesced (expression_run left.now) (expression_run right.now)) result
            self.now.state.now }
    {
        let value = self.found(left)?;
        match present(value) {
            Some(value) => Ok(value),
            None => self.expression(right),
        }
    }

    /// `a ? b : c`, or `a ?: c`
    #[cycle(observe)]
    pub(crate) fn conditional(
        &self,
        test: &Expression,
        middle: &Option<Boxed<Expression>>,
        otherwise: &Expression,
    ) -> Result<Value, Halt>
        requires test { is_pure test.now ≡ true }
        requires middle { option_map_or is_pure middle.now true ≡ true }
        requires otherwise { is_pure otherwise.now ≡ true }
        ensures { Observed (conditional (expression_run test.now) (option_map expression_run middle.now)
            (expression_run otherwise.now)) result self.now.state.now }
    {
        let value = self.expression(test)?;
        match kept(value) {
            Some(value) => self.chosen(middle, value),
            None => self.expression(otherwise),
        }
    }

    /// The value of a conditional whose test holds.
    #[cycle(observe)]
    fn chosen(&self, middle: &Option<Boxed<Expression>>, test: Value) -> Result<Value, Halt>
        requires { option_map_or is_pure middle.now true ≡ true }
        ensures { Observed (choice (option_map expression_run middle.now) test) result self.now.state.now }
    {
        match middle {
            None => Ok(test),
            Some(middle) => {
                drop(test);
                self.expression(middle.as_ref())
            }
        }
    }
}
