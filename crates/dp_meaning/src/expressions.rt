//! The evaluation of expressions.

#![tactic(auto, using(crate::proofs::Drives::evaluating))]

use crate::evaluator::Evaluator;
use crate::outside::Outside;
use dp_actions::{
    Halt, Reading, constant_value, integer, text_value, then_holds, then_unary, truth,
    variable_value,
};
use dp_bytes::Items;
use dp_state::State;
use dp_tree::{Expression, Inclusion};
use dp_value::Value;

impl<O: Outside> Evaluator<'_, O> {
    ghost use Rattle.dp_meaning.specs.inner.Drive.{Evaluates};
    ghost use Rattle.dp_meaning.specs.inner.Evaluation.{goes_by};
    ghost use Rattle.dp_actions.specs.Expressions.{evaluations, expression_run, included};
    ghost use Rattle.dp_actions.specs.Loops.{last_holds};
    ghost use Rattle.dp_actions.specs.Run.{Done, and_then, given_up};
    ghost use Rattle.dp_actions.specs.Values.{holds as value_holds};

    /// The value of an expression.
    #[cycle(evaluate)]
    pub(crate) fn expression(&self, e: &Expression, state: &mut State) -> Result<Value, Halt>
        ensures { Evaluates (O.rules self.now.outside.now) ((expression_run e.now).value (goes_by self.now) state.old)
            result state.new }
    {
        match e {
            Expression::Null => Ok(Value::Null),
            Expression::Bool(b) => Ok(Value::Bool(*b)),
            Expression::Number(n) => Ok(Value::Int(*n)),
            Expression::Text(text) => text_value(text),
            Expression::Variable(name) => variable_value(name, state),
            Expression::Constant(name) => constant_value(name, state),
            Expression::Array(items) => self.array(items.as_slice(), state),
            Expression::Call(name, arguments) => self.named(name, arguments.as_slice(), state),
            Expression::Isset(places) => self.isset(places.as_slice(), state),
            Expression::Index(base, indices) => self.index(
                Reading::Plain,
                base.as_ref(),
                indices.as_slice(),
                state,
            ),
            Expression::Unary(op, operand) => {
                then_unary(*op, self.expression(operand.as_ref(), state), state)
            }
            Expression::Step(op, order, place) => self.step(*op, *order, place, state),
            Expression::Chain(first, links) => self.chain(first.as_ref(), links.as_slice(), state),
            Expression::Coalesce(left, right) => {
                self.coalesce(left.as_ref(), right.as_ref(), state)
            }
            Expression::Conditional(test, middle, otherwise) => {
                self.conditional(test.as_ref(), middle, otherwise.as_ref(), state)
            }
            Expression::Include(how, file) => self.inclusion(*how, file.as_ref(), state),
            Expression::Assign(place, right) => self.assign(place, right.as_ref(), false, state),
            Expression::Compound(op, place, right) => {
                self.compound(*op, place, right.as_ref(), state)
            }
            Expression::CoalesceAssign(place, right) => {
                self.coalesce_assign(place, right.as_ref(), state)
            }
            Expression::Push(place, right) => self.assign(place, right.as_ref(), true, state),
        }
    }

    /// The value of an expression to the left of `??`.
    #[cycle(evaluate)]
    pub(crate) fn found(&self, e: &Expression, state: &mut State) -> Result<Value, Halt>
        ensures { Evaluates (O.rules self.now.outside.now) ((expression_run e.now).found (goes_by self.now) state.old)
            result state.new }
    {
        match e {
            Expression::Index(base, indices) => self.index(
                Reading::Found,
                base.as_ref(),
                indices.as_slice(),
                state,
            ),
            _ => self.expression(e, state),
        }
    }

    /// Whether an expression holds: at once where integers are compared.
    #[cycle(evaluate)]
    pub(crate) fn holds(&self, e: &Expression, state: &mut State) -> Result<bool, Halt>
        ensures { Evaluates (O.rules self.now.outside.now) (and_then ((expression_run e.now).value (goes_by self.now)
            state.old) (λ v t. Done (value_holds v) t)) result state.new }
    {
        match truth(e, state) {
            Some(holds) => Ok(holds),
            None => then_holds(self.expression(e, state)),
        }
    }

    /// The value of an expression: at once where it is of integers alone.
    #[cycle(evaluate)]
    pub(crate) fn value(&self, e: &Expression, state: &mut State) -> Result<Value, Halt>
        ensures { Evaluates (O.rules self.now.outside.now) ((expression_run e.now).value (goes_by self.now) state.old)
            result state.new }
    {
        match integer(e, state) {
            Some(n) => Ok(Value::Int(n)),
            None => self.expression(e, state),
        }
    }

    /// The values of expressions, one after another.
    #[cycle(evaluate)]
    pub(crate) fn values(&self, all: &[Expression], state: &mut State) -> Result<Items<Value>, Halt>
        ensures { Evaluates (O.rules self.now.outside.now) (evaluations all.now (goes_by self.now) state.old) result
            state.new }
    {
        let mut values = Vec::new(self.alloc);
        for e in all {
            values.push(self.value(e, state)?)?;
        }
        Ok(Items::of(values))
    }

    /// Whether the last of the values of a test holds; true if there is none.
    #[cycle(evaluate)]
    pub(crate) fn test(&self, all: &[Expression], state: &mut State) -> Result<bool, Halt>
        ensures { Evaluates (O.rules self.now.outside.now) (and_then (evaluations all.now (goes_by self.now)
            state.old) (λ values t. Done (last_holds values) t)) result state.new }
    {
        let mut holds = true;
        for e in all {
            holds = self.holds(e, state)?;
        }
        Ok(holds)
    }

    /// Expressions whose values are given up, one after another.
    #[cycle(evaluate)]
    pub(crate) fn effects(&self, all: &[Expression], state: &mut State) -> Result<(), Halt>
        ensures { Evaluates (O.rules self.now.outside.now) (and_then (evaluations all.now (goes_by self.now)
            state.old) given_up) result state.new }
    {
        for e in all {
            self.effect(e, state)?;
        }
        Ok(())
    }

    /// An expression whose value is given up: an assignment or a step makes none.
    #[cycle(evaluate)]
    pub(crate) fn effect(&self, e: &Expression, state: &mut State) -> Result<(), Halt>
        ensures { Evaluates (O.rules self.now.outside.now) (and_then ((expression_run e.now).value (goes_by self.now)
            state.old) given_up) result state.new }
    {
        match e {
            Expression::Assign(place, right) => self.put_assigned(place, right.as_ref(), state),
            Expression::Step(op, _, place) => self.put_step(*op, place, state),
            Expression::Push(place, right) => self.put(place, right.as_ref(), true, state),
            Expression::Compound(op, place, right) => {
                self.put_compound(*op, place, right.as_ref(), state)
            }
            _ => {
                let value = self.expression(e, state)?;
                drop(value);
                Ok(())
            }
        }
    }

    /// The value of an `include` or a `require`.
    #[cycle(evaluate)]
    fn inclusion(&self, how: Inclusion, file: &Expression, state: &mut State) -> Result<Value, Halt>
        ensures { Evaluates (O.rules self.now.outside.now) (included how (expression_run file.now)
            (goes_by self.now) state.old) result state.new }
    {
        let value = self.expression(file, state)?;
        let answer = self.include(how, &value, state);
        drop(value);
        answer
    }
}
