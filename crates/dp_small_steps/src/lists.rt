//! What is left of lists of parts: the values of expressions, the items of a literal, the operands of a chain, the
//! indices of an entry, the places of an `isset`.

ghost use Rattle.std.specs.Prelude.{◌≡◌, ◌++◌, drop as members_from, false, if◌then◌else◌, map, true};
ghost use Rattle.dp_state.specs.declared.state.State.{State as AnyState};
ghost use Rattle.dp_actions.specs.Expressions.{evaluation, evaluations, expression_run, indices_run, items_run};
ghost use Rattle.dp_actions.specs.Expressions.{links_run, place_run};
ghost use Rattle.dp_actions.specs.Expressions.{item_run_of, link_run};
ghost use Rattle.dp_actions.specs.Places.{isset_run};
ghost use Rattle.dp_actions.specs.InPlace.{entries_by};
ghost use Rattle.dp_actions.specs.Run.{and_then};
ghost use Rattle.dp_actions.specs.Setting.{Setting};
ghost use Rattle.dp_actions.specs.Values.{holds as value_holds};
ghost use Rattle.dp_small_steps.specs.Leads.{Leads};
ghost use Rattle.dp_small_steps.specs.Parts.{Follows, keyed_after, links_after, to_value};
ghost use Rattle.dp_small_steps.specs.Rest.{next_rest};
ghost use Rattle.dp_value.specs.declared.value.Value.TheVariants as any_kind;
ghost use Rattle.dp_small_steps.specs.declared.work.Given.TheVariants as any_given;

use crate::next::{alone, give, values_first};
use crate::work::{ForPart, ForValues, Given, Hand, Next, Work};
use dp_actions::{Halt, Reading, holds};
use dp_bytes::Items;
use dp_tree::{Expression, Item, Link, Operator, Place};
use dp_value::Value;
use std::alloc::Global;

/// The values of expressions, of which the first are there.
pub(crate) fn values<'p>(before: Items<Value>, all: &'p Items<Expression>, at: usize) -> Next<'p>
    ensures { (setting : Setting) (k : Follows) (s : AnyState)
        → next_rest setting result k s ≡ and_then (evaluations (members_from at all.now) setting s)
        (λ values t. k (any_given.Values (before ++ values)) t) }
{
    match all.as_slice().get(at) {
        None => alone(Hand::Give(Given::Values(before))),
        Some(first) => Next {
            hand: Hand::Evaluate(first),
            waits: Some(Work::ForPart(ForPart::More(before, all, at + 1))),
        },
    }
}

/// A literal so far, and its items that are left.
pub(crate) fn items<'p>(array: Value, all: &'p Items<Item>, at: usize) -> Next<'p>
    ensures { (setting : Setting) (k : Follows) (s : AnyState)
        → next_rest setting result k s ≡ and_then (items_run
        (map item_run_of (members_from at all.now)) array setting s) (to_value k) }
{
    match all.as_slice().get(at) {
        None => give(array),
        Some(first) => match &first.key {
            None => Next {
                hand: Hand::Evaluate(&first.value),
                waits: Some(Work::ForPart(ForPart::PushItem(array, all, at + 1))),
            },
            Some(key) => Next {
                hand: Hand::Evaluate(key),
                waits: Some(Work::ForPart(ForPart::KeyItem(array, all, at))),
            },
        },
    }
}

/// A literal before the item at a position, whose key is evaluated.
pub(crate) fn keyed_item<'p>(array: Value, key: Value, all: &'p Items<Item>, at: usize) -> Next<'p>
    ensures { (setting : Setting) (k : Follows) (s : AnyState)
        → next_rest setting result k s ≡ keyed_after setting (members_from at all.now) key array k s }
{
    match all.as_slice().get(at) {
        None => {
            drop(key);
            give(array)
        }
        Some(first) => Next {
            hand: Hand::Evaluate(&first.value),
            waits: Some(Work::ForPart(ForPart::PutItem(array, key, all, at + 1))),
        },
    }
}

/// A left operand, and what is joined to it.
pub(crate) fn links<'p>(left: Value, all: &'p Items<Link>, at: usize) -> Next<'p>
    ensures { (setting : Setting) (k : Follows) (s : AnyState)
        → next_rest setting result k s ≡ and_then (links_run (map link_run (members_from at all.now)) left setting s)
        (to_value k) }
{
    match all.as_slice().get(at) {
        None => give(left),
        Some(first) => link(left, first, all, at + 1),
    }
}

/// A left operand, an operator with its right operand, and what is joined behind it.
fn link<'p>(left: Value, first: &'p Link, all: &'p Items<Link>, at: usize) -> Next<'p>
    ensures { (setting : Setting) (k : Follows) (s : AnyState)
        → next_rest setting result k s ≡ and_then (link_run first.now left setting s)
        (λ v t. and_then (links_run (map link_run (members_from at all.now)) v setting t) (to_value k)) }
{
    match first.operator {
        Operator::Or => or(holds(left), &first.operand, all, at),
        Operator::And => and(holds(left), &first.operand, all, at),
        Operator::Of(op) => Next {
            hand: Hand::Evaluate(&first.operand),
            waits: Some(Work::ForPart(ForPart::Operate(op, left, all, at))),
        },
    }
}

/// `||`: the left operand holds, or the right one decides.
fn or<'p>(left: bool, right: &'p Expression, all: &'p Items<Link>, at: usize) -> Next<'p>
    ensures { (setting : Setting) (k : Follows) (s : AnyState)
        → next_rest setting result k s ≡ if left
        then links_after setting (members_from at all.now) k (any_kind.Bool true) s
        else and_then (evaluation right.now setting s) (λ v t. links_after setting (members_from at all.now) k
        (any_kind.Bool (value_holds v)) t) }
{
    if left {
        alone(Hand::Links(Value::Bool(true), all, at))
    } else {
        Next {
            hand: Hand::Evaluate(right),
            waits: Some(Work::ForPart(ForPart::Tested(all, at))),
        }
    }
}

/// `&&`: the left operand does not hold, or the right one decides.
fn and<'p>(left: bool, right: &'p Expression, all: &'p Items<Link>, at: usize) -> Next<'p>
    ensures { (setting : Setting) (k : Follows) (s : AnyState)
        → next_rest setting result k s ≡ if left
        then and_then (evaluation right.now setting s) (λ v t. links_after setting (members_from at all.now) k
        (any_kind.Bool (value_holds v)) t)
        else links_after setting (members_from at all.now) k (any_kind.Bool false) s }
{
    if left {
        Next {
            hand: Hand::Evaluate(right),
            waits: Some(Work::ForPart(ForPart::Tested(all, at))),
        }
    } else {
        alone(Hand::Links(Value::Bool(false), all, at))
    }
}

/// A value, and the indices under which it is read.
pub(crate) fn under<'p>(
    how: Reading,
    value: Value,
    all: &'p Items<Expression>,
    at: usize,
) -> Result<Next<'p>, Halt>
    ensures { (setting : Setting) (s : AnyState)
        → Leads (next_rest setting) (λ k. and_then (indices_run (entries_by how)
        (map expression_run (members_from at all.now))
        value setting s) (to_value k)) result s }
{
    match all.as_slice().get(at) {
        None => Ok(give(value)),
        Some(first) => Ok(Next {
            hand: Hand::Evaluate(first),
            waits: Some(Work::ForPart(ForPart::Entry(how, value, all, at + 1))),
        }),
    }
}

/// The places of an `isset` that are left.
pub(crate) fn isset<'p>(alloc: Global, places: &'p [Place]) -> Next<'p>
    ensures { (setting : Setting) (k : Follows) (s : AnyState)
        → next_rest setting result k s ≡ and_then (isset_run (map place_run places.now) setting s) (to_value k) }
{
    match places.split_first() {
        None => give(Value::Bool(true)),
        Some((first, rest)) => values_first(
            alloc,
            &first.indices,
            Work::ForValues(ForValues::Isset(&first.name, rest)),
        ),
    }
}
