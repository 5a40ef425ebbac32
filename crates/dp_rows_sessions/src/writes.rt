//! Changes of a program's states from outside, at its moments.

use dp_meaning::{NumberedWrite, Stop, Write, run_to, value_in};
use dp_parse::parse_expression;
use dp_rows::{Memory, at_space, number_of, unescaped};
use dp_state::State;
use dp_tree::{Bundle, Expression, is_pure};
use dp_value::Value;
use dp_view::read_name;
use std::alloc::Global;

/// The expression that a text is, if it is one.
fn tree_of(alloc: Global, text: &[u8]) -> Option<Expression> {
    if text.len() > 1_000_000 {
        return None;
    }
    parse_expression(alloc, text).ok()
}

/// A write at the moment of this number.
fn numbered(number: &[u8], write: Write) -> NumberedWrite {
    NumberedWrite {
        moment: number_of(number).unwrap_or(0),
        write,
    }
}

/// The evaluation of `N EXPRESSION`.
pub(crate) fn evaluation(alloc: Global, text: &[u8]) -> Result<Option<NumberedWrite>, Memory> {
    let (number, expression) = at_space(text);
    let expression = unescaped(alloc, expression)?;
    match tree_of(alloc, expression.as_slice()) {
        Some(expression) => Ok(Some(numbered(number, Write::Evaluate(expression)))),
        None => Ok(None),
    }
}

/// The value of an expression that changes nothing, in a state.
fn pure_value(
    alloc: Global,
    bundle: &Bundle,
    state: &State,
    expression: &Expression,
) -> Result<Option<Value>, Memory> {
    if !is_pure(expression) {
        return Ok(None);
    }
    value_in(alloc, state, bundle, expression)
}

/// The value of the expression of a text, if it is one that changes nothing, in a state.
pub(crate) fn value_of(
    alloc: Global,
    bundle: &Bundle,
    state: &State,
    text: &[u8],
) -> Result<Option<Value>, Memory> {
    match tree_of(alloc, text) {
        Some(expression) => pure_value(alloc, bundle, state, &expression),
        None => Ok(None),
    }
}

/// The value of an expression in the state of the first moment.
fn first_value(alloc: Global, bundle: &Bundle, text: &[u8]) -> Result<Option<Value>, Memory> {
    match run_to(alloc, bundle, &[], 1, 1)? {
        Stop::At(_, state) => value_of(alloc, bundle, &state, text),
        Stop::Ended(_, _) => Ok(None),
    }
}

/// The write of a value to the place of this name in the top frame, if it is a name.
fn write_to(alloc: Global, number: &[u8], name: &[u8], value: Value) -> Option<NumberedWrite> {
    match read_name(alloc, name) {
        Ok(path) => Some(numbered(
            number,
            Write::Place {
                level: 0,
                context: 0,
                path,
                value,
            },
        )),
        Err(_) => None,
    }
}

/// The write of `N NAME EXPRESSION`: the value of the expression at the place of this name in the top frame.
pub(crate) fn placing(
    alloc: Global,
    bundle: &Bundle,
    text: &[u8],
) -> Result<Option<NumberedWrite>, Memory> {
    let (number, behind) = at_space(text);
    let (name, expression) = at_space(behind);
    let expression = unescaped(alloc, expression)?;
    match first_value(alloc, bundle, expression.as_slice())? {
        Some(value) => Ok(write_to(alloc, number, name, value)),
        None => Ok(None),
    }
}
