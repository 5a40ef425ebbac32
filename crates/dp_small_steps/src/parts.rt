//! What a part that waited does with what it is given.

ghost use Rattle.std.specs.Prelude.{◌≡◌, ◌++◌, ◌∷◌, [], false, if◌then◌else◌, IfOk, option_map};
ghost use Rattle.dp_state.specs.declared.state.State.{State as AnyState};
ghost use Rattle.dp_actions.specs.Expressions.{choice, evaluation, expression_run};
ghost use Rattle.dp_value.specs.declared.value.Value.TheVariants as any_kind;
ghost use Rattle.dp_actions.specs.Places.{assigned_under, coalescing_under, compound_under};
ghost use Rattle.dp_actions.specs.Run.{Done, and_then};
ghost use Rattle.dp_actions.specs.Setting.{Setting};
ghost use Rattle.dp_actions.specs.Values.{is_missing as missing};
ghost use Rattle.dp_small_steps.specs.Parts.{Follows, isset_after, part_rest, to_value, value_rest};
ghost use Rattle.dp_small_steps.specs.Rest.{next_rest};
ghost use Rattle.dp_small_steps.specs.Parts.{values_rest};
ghost use Rattle.dp_small_steps.specs.declared.work.ForPart.TheVariants as any_part;
ghost use Rattle.dp_small_steps.specs.declared.work.ForValue.TheVariants as any_value;
ghost use Rattle.dp_small_steps.specs.declared.work.ForValues.TheVariants as any_values;
ghost use Rattle.dp_small_steps.specs.Leads.{Leads};

use crate::lists::keyed_item;
use crate::next::{alone, give, given, lengthened, linked, read_under};
use crate::work::{ForPart, ForValue, ForValues, Hand, Next, Work};
use dp_actions::{
    Halt, Reading, assign_place, combine, entry_at, found_place, holds, is_missing,
    is_missing_place, native_call, operated, present, pushed, put, read_place, step_place,
    value_of,
};
use dp_bytes::{Bytes, Items, Memory};
use dp_operations::unary;
use dp_state::State;
use dp_tree::{BinaryOp, Boxed, Expression, Item, Link, Native, Order, Place, UnaryOp};
use dp_value::{Value, truthy};
use std::alloc::Global;

/// A value is given to a list of parts that waits for one.
pub(crate) fn receive_part<'p>(
    alloc: Global,
    work: ForPart<'p>,
    value: Value,
    state: &State,
) -> Result<Next<'p>, Halt>
    ensures { (setting : Setting)
        → Leads (next_rest setting) (λ k. part_rest setting work.entry value k state.now) result state.now }
{
    match work {
        ForPart::More(before, rest, at) => more(before, value, rest, at),
        ForPart::PushItem(array, rest, at) => {
            lengthened(pushed(alloc, array, value, state), rest, at)
        }
        ForPart::KeyItem(array, rest, at) => Ok(keyed_item(array, value, rest, at)),
        ForPart::PutItem(array, key, rest, at) => {
            put_item(alloc, array, key, value, rest, at, state)
        }
        ForPart::Links(links) => Ok(alone(Hand::Links(value, links, 0))),
        ForPart::Tested(links, at) => {
            Ok(alone(Hand::Links(Value::Bool(holds(value)), links, at)))
        }
        ForPart::Operate(op, left, links, at) => {
            operate(alloc, op, left, value, links, at, state)
        }
        ForPart::Under(how, indices) => Ok(alone(Hand::Under(how, value, indices, 0))),
        ForPart::Entry(how, holder, indices, at) => {
            read_entry(alloc, how, holder, value, indices, at, state)
        }
    }
}

/// A value is put under a key into a literal, which has more items.
fn put_item<'p>(
    alloc: Global,
    array: Value,
    key: Value,
    value: Value,
    rest: &'p Items<Item>,
    at: usize,
    state: &State,
) -> Result<Next<'p>, Halt>
    ensures { (setting : Setting)
        → Leads (next_rest setting) (λ k. part_rest setting (any_part.PutItem array key rest.entry at) value k
        state.now) result
        state.now }
{
    let made = put(alloc, array, &key, value, state);
    drop(key);
    lengthened(made, rest, at)
}

/// An operator takes both of its operands; more may be joined.
fn operate<'p>(
    alloc: Global,
    op: BinaryOp,
    left: Value,
    right: Value,
    links: &'p Items<Link>,
    at: usize,
    state: &State,
) -> Result<Next<'p>, Halt>
    ensures { (setting : Setting)
        → Leads (next_rest setting) (λ k. part_rest setting (any_part.Operate op left links.entry at) right k state.now)
        result
        state.now }
{
    let made = operated(alloc, op, left, &right, state);
    drop(right);
    linked(made, links, at)
}

/// An entry of a value is read, perhaps under more indices.
fn read_entry<'p>(
    alloc: Global,
    how: Reading,
    holder: Value,
    index: Value,
    indices: &'p Items<Expression>,
    at: usize,
    state: &State,
) -> Result<Next<'p>, Halt>
    ensures { (setting : Setting)
        → Leads (next_rest setting) (λ k. part_rest setting (any_part.Entry how holder indices.entry at) index k
        state.now) result
        state.now }
{
    let found = entry_at(alloc, how, holder, &index, state);
    drop(index);
    read_under(found, how, indices, at)
}

/// Values and one more, and the expressions behind it.
fn more<'p>(
    before: Items<Value>,
    value: Value,
    rest: &'p Items<Expression>,
    at: usize,
) -> Result<Next<'p>, Halt>
    ensures { (setting : Setting) (s : AnyState)
        → Leads (next_rest setting) (λ k. part_rest setting (any_part.More before rest.entry at) value k s) result s }
{
    match longer(before, value) {
        Ok(values) => Ok(alone(Hand::Values(values, rest, at))),
        Err(_) => Err(Halt::Memory),
    }
}

/// Values, and one more.
fn longer(before: Items<Value>, value: Value) -> Result<Items<Value>, Memory>
    ensures { IfOk result (λ values. values ≡ before ++ value ∷ []) }
{
    let mut values = before.into_vec();
    values.push(value)?;
    Ok(Items::of(values))
}

/// A value is given to an expression that waits for one.
pub(crate) fn receive_value<'p>(
    alloc: Global,
    work: ForValue<'p>,
    value: Value,
    state: &mut State,
) -> Result<Next<'p>, Halt>
    ensures { (setting : Setting)
        → Leads (next_rest setting) (λ k. value_rest setting work.entry value k state.old) result state.new }
{
    match work {
        ForValue::Unary(op) => operate_alone(op, value, state),
        ForValue::Coalesce(right) => Ok(coalesce(value, right)),
        ForValue::Choose(middle, otherwise) => Ok(choose(middle, otherwise, value)),
        ForValue::Assign(name, indices, push) => {
            assign(alloc, name, indices, push, value, state)
        }
        ForValue::Combine(op, name, indices, old) => {
            combine_with(alloc, op, name, indices, old, value, state)
        }
    }
}

/// An operator takes its only operand.
fn operate_alone<'p>(op: UnaryOp, value: Value, state: &State) -> Result<Next<'p>, Halt>
    ensures { (setting : Setting)
        → Leads (next_rest setting) (λ k. value_rest setting (any_value.Unary op) value k state.now) result state.now }
{
    let made = value_of(unary(op, &value), state);
    drop(value);
    given(made)
}

/// The right side of an assignment is written.
fn assign<'p>(
    alloc: Global,
    name: &'p Bytes,
    indices: Items<Value>,
    push: bool,
    value: Value,
    state: &mut State,
) -> Result<Next<'p>, Halt>
    ensures { (setting : Setting)
        → Leads (next_rest setting) (λ k. value_rest setting (any_value.Assign name.entry indices push) value k
        state.old) result
        state.new }
{
    let made = assign_place(alloc, name, indices.as_slice(), push, value, state);
    drop(indices);
    given(made)
}

/// What an operator makes of an old value and the right side is written.
fn combine_with<'p>(
    alloc: Global,
    op: BinaryOp,
    name: &'p Bytes,
    indices: Items<Value>,
    old: Value,
    value: Value,
    state: &mut State,
) -> Result<Next<'p>, Halt>
    ensures { (setting : Setting)
        → Leads (next_rest setting) (λ k. value_rest setting (any_value.Combine op name.entry indices old) value k
        state.old)
        result state.new }
{
    let made = combine(alloc, op, name, indices.as_slice(), old, &value, state);
    drop(indices);
    drop(value);
    given(made)
}

/// The left operand of `??`, or the right one where it is missing.
fn coalesce<'p>(left: Value, right: &'p Boxed<Expression>) -> Next<'p>
    ensures { (setting : Setting) (k : Follows) (s : AnyState)
        → next_rest setting result k s ≡ value_rest setting (any_value.Coalesce right.entry) left k s }
{
    if is_missing(&left) {
        drop(left);
        alone(Hand::Evaluate(right.as_ref()))
    } else {
        give(left)
    }
}

/// The part of a conditional that its test chooses.
fn choose<'p>(
    middle: &'p Option<Boxed<Expression>>,
    otherwise: &'p Boxed<Expression>,
    test: Value,
) -> Next<'p>
    ensures { (setting : Setting) (k : Follows) (s : AnyState)
        → next_rest setting result k s ≡ value_rest setting (any_value.Choose middle.entry otherwise.entry) test k s }
{
    if truthy(&test) {
        chosen(middle, test)
    } else {
        drop(test);
        alone(Hand::Evaluate(otherwise.as_ref()))
    }
}

/// The middle part of a conditional, or the value of its test where it has none.
fn chosen<'p>(middle: &'p Option<Boxed<Expression>>, test: Value) -> Next<'p>
    ensures { (setting : Setting) (k : Follows) (s : AnyState)
        → next_rest setting result k s ≡ and_then (choice (option_map expression_run middle.now) test setting s)
        (to_value k) }
{
    match middle {
        None => give(test),
        Some(middle) => {
            drop(test);
            alone(Hand::Evaluate(middle.as_ref()))
        }
    }
}

/// Values are given to an expression that waits for them.
pub(crate) fn receive_values<'p>(
    alloc: Global,
    work: ForValues<'p>,
    values: Items<Value>,
    state: &mut State,
) -> Result<Next<'p>, Halt>
    ensures { (setting : Setting)
        → Leads (next_rest setting) (λ k. values_rest setting work.entry values k state.old) result state.new }
{
    match work {
        ForValues::Native(function) => call_native(alloc, function, values, state),
        ForValues::Assign(name, push, right) => Ok(Next {
            hand: Hand::Evaluate(right.as_ref()),
            waits: Some(Work::ForValue(ForValue::Assign(name, values, push))),
        }),
        ForValues::Compound(op, name, right) => compound(alloc, op, name, values, right, state),
        ForValues::CoalesceAssign(name, right) => coalesce_assign(
            alloc, name, values, right, state,
        ),
        ForValues::Step(op, order, name) => step(alloc, op, order, name, values, state),
        ForValues::Isset(name, rest) => isset_place(alloc, name, values, rest, state),
    }
}

/// A built-in function takes its arguments.
fn call_native<'p>(
    alloc: Global,
    function: Native,
    values: Items<Value>,
    state: &mut State,
) -> Result<Next<'p>, Halt>
    ensures { (setting : Setting)
        → Leads (next_rest setting) (λ k. values_rest setting (any_values.Native function) values k state.old) result
        state.new }
{
    let made = native_call(alloc, function, values.as_slice(), state);
    drop(values);
    given(made)
}

/// `++` or `--` of a place whose indices are evaluated.
fn step<'p>(
    alloc: Global,
    op: UnaryOp,
    order: Order,
    name: &'p Bytes,
    indices: Items<Value>,
    state: &mut State,
) -> Result<Next<'p>, Halt>
    ensures { (setting : Setting)
        → Leads (next_rest setting) (λ k. values_rest setting (any_values.Step op order name.entry) indices k state.old)
        result
        state.new }
{
    let made = step_place(alloc, op, order, name, indices.as_slice(), state);
    drop(indices);
    given(made)
}

/// The old value of a compound assignment is read.
fn compound<'p>(
    alloc: Global,
    op: BinaryOp,
    name: &'p Bytes,
    indices: Items<Value>,
    right: &'p Boxed<Expression>,
    state: &State,
) -> Result<Next<'p>, Halt>
    ensures { (setting : Setting)
        → Leads (next_rest setting) (λ k. and_then (compound_under op name.now
        (evaluation right.now) indices setting state.now)
        (to_value k)) result state.now }
{
    match read_place(alloc, name, indices.as_slice(), state) {
        Ok(old) => Ok(Next {
            hand: Hand::Evaluate(right.as_ref()),
            waits: Some(Work::ForValue(ForValue::Combine(op, name, indices, old))),
        }),
        Err(why) => {
            drop(indices);
            Err(why)
        }
    }
}

/// A `??=`: its place is read.
fn coalesce_assign<'p>(
    alloc: Global,
    name: &'p Bytes,
    indices: Items<Value>,
    right: &'p Boxed<Expression>,
    state: &State,
) -> Result<Next<'p>, Halt>
    ensures { (setting : Setting)
        → Leads (next_rest setting) (λ k. and_then (coalescing_under name.now
        (evaluation right.now) indices setting state.now)
        (to_value k)) result state.now }
{
    match found_place(alloc, name, indices.as_slice(), state) {
        Ok(old) => Ok(or_assign(name, indices, right, old)),
        Err(why) => {
            drop(indices);
            Err(why)
        }
    }
}

/// A `??=` whose place was read.
fn or_assign<'p>(
    name: &'p Bytes,
    indices: Items<Value>,
    right: &'p Boxed<Expression>,
    old: Value,
) -> Next<'p>
    ensures { (setting : Setting) (k : Follows) (s : AnyState)
        → next_rest setting result k s ≡ and_then (if missing old
        then assigned_under false name.now (evaluation right.now) indices setting s else Done old s) (to_value k) }
{
    match present(old) {
        Some(old) => {
            drop(indices);
            give(old)
        }
        None => Next {
            hand: Hand::Evaluate(right.as_ref()),
            waits: Some(Work::ForValue(ForValue::Assign(name, indices, false))),
        },
    }
}

/// A place of an `isset` is read.
fn isset_place<'p>(
    alloc: Global,
    name: &'p Bytes,
    indices: Items<Value>,
    rest: &'p [Place],
    state: &State,
) -> Result<Next<'p>, Halt>
    ensures { (setting : Setting)
        → Leads (next_rest setting) (λ k. values_rest setting
        (any_values.Isset name.entry rest.entry) indices k state.now) result
        state.now }
{
    let absent = is_missing_place(alloc, name, indices.as_slice(), state);
    drop(indices);
    match absent {
        Ok(absent) => Ok(isset_on(absent, rest)),
        Err(why) => Err(why),
    }
}

/// On with an `isset`, whose place before was absent or null, or not.
fn isset_on<'p>(absent: bool, rest: &'p [Place]) -> Next<'p>
    ensures { (setting : Setting) (k : Follows) (s : AnyState)
        → next_rest setting result k s ≡ if absent then to_value k (any_kind.Bool false) s
        else isset_after setting rest.now k s }
{
    if absent {
        give(Value::Bool(false))
    } else {
        alone(Hand::Isset(rest))
    }
}
