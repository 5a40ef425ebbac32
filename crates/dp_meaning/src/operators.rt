//! The evaluation of operators that may leave an operand out.

#![tactic(auto, using(crate::proofs::Drives::evaluating))]

use crate::evaluator::Evaluator;
use crate::outside::Outside;
use dp_actions::{Halt, holds, kept, present, then_binary, then_truth};
use dp_state::State;
use dp_tree::{Boxed, Expression, Link, Operator};
use dp_value::Value;

impl<O: Outside> Evaluator<'_, O> {
    ghost use Rattle.std.specs.Prelude.{map, option_map};
    ghost use Rattle.dp_meaning.specs.inner.Drive.{Evaluates};
    ghost use Rattle.dp_meaning.specs.inner.Evaluation.{goes_by};
    ghost use Rattle.dp_actions.specs.Expressions.{chained, choice, coalesced, conditional, expression_run, links_run};
    ghost use Rattle.dp_actions.specs.Expressions.{link_run};

    /// The value of operands that are joined from left to right.
    #[cycle(evaluate)]
    pub(crate) fn chain(
        &self,
        first: &Expression,
        links: &[Link],
        state: &mut State,
    ) -> Result<Value, Halt>
        ensures { Evaluates (O.rules self.now.outside.now) (chained (expression_run first.now)
            (map link_run links.now) (goes_by self.now) state.old) result state.new }
    {
        let value = self.expression(first, state)?;
        self.links(value, links, state)
    }

    /// The value of operands that are joined to a first one.
    #[cycle(evaluate)]
    fn links(&self, first: Value, links: &[Link], state: &mut State) -> Result<Value, Halt>
        ensures { Evaluates (O.rules self.now.outside.now) (links_run (map link_run links.now) first
            (goes_by self.now) state.old) result state.new }
    {
        let mut value = first;
        for link in links {
            value = self.link(value, link, state)?;
        }
        Ok(value)
    }

    /// The value of two operands that are joined.
    #[cycle(evaluate)]
    fn link(&self, left: Value, link: &Link, state: &mut State) -> Result<Value, Halt>
        ensures { Evaluates (O.rules self.now.outside.now) (link_run link.now left (goes_by self.now) state.old)
            result state.new }
    {
        match link.operator {
            Operator::Or => {
                if holds(left) {
                    return Ok(Value::Bool(true));
                }
                then_truth(self.expression(&link.operand, state))
            }
            Operator::And => {
                if !holds(left) {
                    return Ok(Value::Bool(false));
                }
                then_truth(self.expression(&link.operand, state))
            }
            Operator::Of(op) => then_binary(
                self.alloc,
                op,
                left,
                self.expression(&link.operand, state),
                state,
            ),
        }
    }

    /// `a ?? b`
    #[cycle(evaluate)]
    pub(crate) fn coalesce(
        &self,
        left: &Expression,
        right: &Expression,
        state: &mut State,
    ) -> Result<Value, Halt>
        ensures { Evaluates (O.rules self.now.outside.now) (coalesced (expression_run left.now)
            (expression_run right.now) (goes_by self.now) state.old) result state.new }
    {
        let value = self.found(left, state)?;
        match present(value) {
            Some(value) => Ok(value),
            None => self.expression(right, state),
        }
    }

    /// `a ? b : c`, or `a ?: c`
    #[cycle(evaluate)]
    pub(crate) fn conditional(
        &self,
        test: &Expression,
        middle: &Option<Boxed<Expression>>,
        otherwise: &Expression,
        state: &mut State,
    ) -> Result<Value, Halt>
        ensures { Evaluates (O.rules self.now.outside.now) (conditional (expression_run test.now)
            (option_map expression_run middle.now) (expression_run otherwise.now) (goes_by self.now) state.old) result
            state.new }
    {
        let value = self.expression(test, state)?;
        match kept(value) {
            Some(value) => self.chosen(middle, value, state),
            None => self.expression(otherwise, state),
        }
    }

    /// The value of a conditional whose test holds.
    #[cycle(evaluate)]
    fn chosen(
        &self,
        middle: &Option<Boxed<Expression>>,
        test: Value,
        state: &mut State,
    ) -> Result<Value, Halt>
        ensures { Evaluates (O.rules self.now.outside.now) (choice (option_map expression_run middle.now) test
            (goes_by self.now) state.old) result state.new }
    {
        match middle {
            None => Ok(test),
            Some(middle) => {
                drop(test);
                self.expression(middle.as_ref(), state)
            }
        }
    }
}
