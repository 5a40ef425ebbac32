//! Small steps with expressions and calls: a call whose arguments have no moment is made at once.

use crate::machine::{Came, Machine, halted};
use dp_actions::{Callee, Signal, integer, look_up, returned};
use dp_analysis::{all_momentless, is_momentless};
use dp_bytes::{Bytes, Items};
use dp_small_steps::{Given, Hand};
use dp_tree::Expression;
use dp_value::Value;

impl<'p> Machine<'p> {
    ghost use Rattle.std.specs.Prelude.{◌≡◌, true};
    ghost use Rattle.std.specs.List.{list_all};
    ghost use Rattle.dp_tree.specs.declared.tree.Expression.TheVariants as any_expression;
    ghost use Rattle.dp_analysis.specs.Still.{is_momentless as has_no_moment};
    ghost use Rattle.dp_actions.specs.Bodies.{returned as value_returned};
    ghost use Rattle.dp_state.specs.States.{left as state_left};
    ghost use Rattle.dp_small_steps.specs.Parts.{to_value};
    ghost use Rattle.dp_step.specs.inner.Moves.{Moves, follows_of, rest_with};
    ghost use Rattle.dp_small_steps.specs.declared.work.Hand.TheVariants as any_hand;

    /// A small step with an expression. One in which no moment can come is evaluated whole.
    pub(crate) fn evaluate_whole(&mut self, e: &'p Expression) -> Came
        ensures { Moves self.old (rest_with self.old (any_hand.Evaluate e.entry) self.old.state) result
            self.new }
    {
        if let Some(n) = integer(e, &self.state) {
            return self.take(Given::Value(Value::Int(n)));
        }
        if !is_momentless(e) {
            return self.evaluate_parts(e);
        }
        match self.whole().value(e, &mut self.state) {
            Ok(value) => self.take(Given::Value(value)),
            Err(why) => halted(why),
        }
    }

    /// A small step with an expression in which a moment may come.
    fn evaluate_parts(&mut self, e: &'p Expression) -> Came
        ensures { Moves self.old (rest_with self.old (any_hand.Evaluate e.entry) self.old.state) result
            self.new }
    {
        match e {
            Expression::Call(name, arguments) => {
                if all_momentless(arguments.as_slice()) {
                    self.call_named(e, name, arguments)
                } else {
                    self.first(Hand::Evaluate(e))
                }
            }
            _ => self.first(Hand::Evaluate(e)),
        }
    }

    /// The call of a name, whose arguments have no moment.
    fn call_named(
        &mut self,
        e: &'p Expression,
        name: &'p Bytes,
        arguments: &'p Items<Expression>,
    ) -> Came
        requires momentless { list_all has_no_moment arguments.now ≡ true }
        requires is_call { e.now ≡ any_expression.Call name.now arguments.now }
        ensures { Moves self.old (rest_with self.old (any_hand.Evaluate e.entry) self.old.state) result
            self.new }
    {
        match look_up(self.bundle, name, &self.state) {
            Some(Callee::Declared { file, function }) => {
                match self.whole().values(arguments.as_slice(), &mut self.state) {
                    Ok(values) => self.call(file, function, values),
                    Err(why) => halted(why),
                }
            }
            _ => self.first(Hand::Evaluate(e)),
        }
    }

    /// The frame of a call or a file that is done goes. It gives what its statements gave, or this where that is
    /// nothing.
    pub(crate) fn left(&mut self, none: Value, signal: Signal) -> Came
        ensures { Moves self.old (to_value (follows_of self.old) (value_returned none signal)
            (state_left self.old.state)) result self.new }
    {
        self.state.leave();
        self.take(Given::Value(returned(none, signal)))
    }
}
