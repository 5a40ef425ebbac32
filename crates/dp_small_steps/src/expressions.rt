//! The beginning of an expression: what is done first, and what waits for it.

ghost use Rattle.std.specs.Prelude.{◌≡◌};
ghost use Rattle.dp_state.specs.declared.state.State.{State as AnyState};
ghost use Rattle.dp_actions.specs.Expressions.{evaluation, evaluations, expression_run};
ghost use Rattle.dp_actions.specs.Places.{assigned_under};
ghost use Rattle.dp_actions.specs.Run.{and_then};
ghost use Rattle.dp_actions.specs.Setting.{Setting};
ghost use Rattle.dp_small_steps.specs.Parts.{Follows, to_value};
ghost use Rattle.dp_small_steps.specs.Rest.{next_rest};
ghost use Rattle.dp_small_steps.specs.Leads.{Leads};

use crate::next::{alone, give, given, values_first};
use crate::work::{ForPart, ForValue, ForValues, Hand, Next, Work};
use dp_actions::{Halt, Reading, constant_value, text_value, variable_value};
use dp_bytes::Items;
use dp_state::State;
use dp_tree::{Boxed, Expression, Place};
use dp_value::{PhpArray, Value};
use std::alloc::Global;

/// An expression to the left of `??`.
pub(crate) fn find<'p>(e: &'p Boxed<Expression>) -> Next<'p>
    ensures { (setting : Setting) (k : Follows) (s : AnyState)
        → next_rest setting result k s ≡ and_then ((expression_run e.now).found setting s) (to_value k) }
{
    match e.as_ref() {
        Expression::Index(base, indices) => Next {
            hand: Hand::Find(base),
            waits: Some(Work::ForPart(ForPart::Under(Reading::Found, indices))),
        },
        other => alone(Hand::Evaluate(other)),
    }
}

/// An expression.
pub(crate) fn begin_expression<'p>(
    alloc: Global,
    e: &'p Expression,
    state: &State,
) -> Result<Next<'p>, Halt>
    ensures { (setting : Setting)
        → Leads (next_rest setting) (λ k. and_then (evaluation e.now setting state.now) (to_value k)) result state.now }
{
    match e {
        Expression::Null => Ok(give(Value::Null)),
        Expression::Bool(b) => Ok(give(Value::Bool(*b))),
        Expression::Number(n) => Ok(give(Value::Int(*n))),
        Expression::Text(text) => given(text_value(text)),
        Expression::Variable(name) => given(variable_value(name, state)),
        Expression::Constant(name) => given(constant_value(name, state)),
        Expression::Array(items) => {
            let empty = Value::Array(PhpArray::new(alloc));
            Ok(alone(Hand::Items(empty, items, 0)))
        }
        Expression::Isset(places) => Ok(alone(Hand::Isset(places.as_slice()))),
        operator => Ok(begin_operator(alloc, operator)),
    }
}

/// An operator, by its first operand.
fn begin_operator<'p>(alloc: Global, e: &'p Expression) -> Next<'p>
    ensures { (setting : Setting) (k : Follows) (s : AnyState)
        → next_rest setting result k s ≡ and_then (evaluation e.now setting s) (to_value k) }
{
    match e {
        Expression::Index(base, indices) => Next {
            hand: Hand::Evaluate(base.as_ref()),
            waits: Some(Work::ForPart(ForPart::Under(Reading::Plain, indices))),
        },
        Expression::Unary(op, operand) => Next {
            hand: Hand::Evaluate(operand.as_ref()),
            waits: Some(Work::ForValue(ForValue::Unary(*op))),
        },
        Expression::Chain(first, links) => Next {
            hand: Hand::Evaluate(first.as_ref()),
            waits: Some(Work::ForPart(ForPart::Links(links))),
        },
        Expression::Coalesce(left, right) => Next {
            hand: Hand::Find(left),
            waits: Some(Work::ForValue(ForValue::Coalesce(right))),
        },
        Expression::Conditional(test, middle, otherwise) => Next {
            hand: Hand::Evaluate(test.as_ref()),
            waits: Some(Work::ForValue(ForValue::Choose(middle, otherwise))),
        },
        change => begin_change(alloc, change),
    }
}

/// A change of a place, by the indices of the place. The beginnings of a call and of an inclusion are not here: they
/// stay in hand.
fn begin_change<'p>(alloc: Global, e: &'p Expression) -> Next<'p>
    ensures { (setting : Setting) (k : Follows) (s : AnyState)
        → next_rest setting result k s ≡ and_then (evaluation e.now setting s) (to_value k) }
{
    match e {
        Expression::Step(op, order, place) => values_first(
            alloc,
            &place.indices,
            Work::ForValues(ForValues::Step(*op, *order, &place.name)),
        ),
        Expression::Assign(place, right) => begin_assign(alloc, place, right, false),
        Expression::Push(place, right) => begin_assign(alloc, place, right, true),
        Expression::Compound(op, place, right) => values_first(
            alloc,
            &place.indices,
            Work::ForValues(ForValues::Compound(*op, &place.name, right)),
        ),
        Expression::CoalesceAssign(place, right) => values_first(
            alloc,
            &place.indices,
            Work::ForValues(ForValues::CoalesceAssign(&place.name, right)),
        ),
        other => alone(Hand::Evaluate(other)),
    }
}

/// An assignment, by its right side where its place has no indices.
fn begin_assign<'p>(
    alloc: Global,
    place: &'p Place,
    right: &'p Boxed<Expression>,
    push: bool,
) -> Next<'p>
    ensures { (setting : Setting) (k : Follows) (s : AnyState)
        → next_rest setting result k s ≡ and_then (evaluations place.now.indices setting s)
        (λ indices t. and_then (assigned_under push place.now.name (evaluation right.now) indices setting t)
        (to_value k)) }
{
    let name = &place.name;
    if place.indices.as_slice().is_empty() {
        let none = Items::of(Vec::new(alloc));
        Next {
            hand: Hand::Evaluate(right.as_ref()),
            waits: Some(Work::ForValue(ForValue::Assign(name, none, push))),
        }
    } else {
        let work = Work::ForValues(ForValues::Assign(name, push, right));
        values_first(alloc, &place.indices, work)
    }
}
