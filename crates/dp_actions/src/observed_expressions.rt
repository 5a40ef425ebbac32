//! The values of expressions that change nothing, kind by kind.

#![tactic(auto, using(crate::proofs::AtOnceLaws::acting))]

use crate::after::then_unary;
use crate::constants::constant_value;
use crate::entry_reads::Reading;
use crate::halt::Halt;
use crate::observer::Observer;
use crate::operands::{text_value, variable_value};
use dp_bytes::Items;
use dp_tree::Expression;
use dp_value::Value;

impl Observer<'_> {
    ghost use Rattle.std.specs.Prelude.{◌≡◌, true};
    ghost use Rattle.std.specs.List.{list_all};
    ghost use Rattle.dp_tree.specs.Purity.{is_pure};
    ghost use Rattle.dp_actions.specs.Expressions.{evaluations, expression_run};
    ghost use Rattle.dp_actions.specs.Observed.{Observed};

    /// The value of an expression.
    #[cycle(observe)]
    pub(crate) fn expression(&self, e: &Expression) -> Result<Value, Halt>
        requires { is_pure e.now ≡ true }
        ensures { Observed (expression_run e.now).value result self.now.state.now }
    {
        match e {
            Expression::Null => Ok(Value::Null),
            Expression::Bool(b) => Ok(Value::Bool(*b)),
            Expression::Number(n) => Ok(Value::Int(*n)),
            Expression::Text(text) => text_value(text),
            Expression::Variable(name) => variable_value(name, self.state),
            Expression::Constant(name) => constant_value(name, self.state),
            Expression::Array(items) => self.array(items.as_slice()),
            Expression::Isset(places) => self.isset(places.as_slice()),
            Expression::Index(base, indices) => {
                self.index(Reading::Plain, base.as_ref(), indices.as_slice())
            }
            Expression::Unary(op, operand) => {
                then_unary(*op, self.expression(operand.as_ref()), self.state)
            }
            Expression::Chain(first, links) => self.chain(first.as_ref(), links.as_slice()),
            Expression::Coalesce(left, right) => self.coalesce(left.as_ref(), right.as_ref()),
            Expression::Conditional(test, middle, otherwise) => {
                self.conditional(test.as_ref(), middle, otherwise.as_ref())
            }
            Expression::Call(_, _)
            | Expression::Step(_, _, _)
            | Expression::Include(_, _)
            | Expression::Assign(_, _)
            | Expression::Compound(_, _, _)
            | Expression::CoalesceAssign(_, _)
            | Expression::Push(_, _) => unreachable!(),
        }
    }

    /// The value of an expression to the left of `??`.
    #[cycle(observe)]
    pub(crate) fn found(&self, e: &Expression) -> Result<Value, Halt>
        requires { is_pure e.now ≡ true }
        ensures { Observed (expression_run e.now).found result self.now.state.now }
    {
        match e {
            Expression::Index(base, indices) => {
                self.index(Reading::Found, base.as_ref(), indices.as_slice())
            }
            _ => self.expression(e),
        }
    }

    /// The values of expressions, one after another.
    #[cycle(observe)]
    pub(crate) fn values(&self, all: &[Expression]) -> Result<Items<Value>, Halt>
        requires { list_all is_pure all.now ≡ true }
        ensures { Observed (evaluations all.now) result self.now.state.now }
    {
        let mut values = Vec::new(self.alloc);
        for e in all {
            values.push(self.expression(e)?)?;
        }
        Ok(Items::of(values))
    }
}
