//! The write that a command asks for.

ghost use Rattle.std.specs.Prelude.{◌≡◌, Ok, option_map, IfOk};
ghost use Rattle.dp_view.specs.Answers.{AnswersAfter};
ghost use Rattle.dp_view.specs.Named.{named_path as path_of_name};
ghost use Rattle.dp_write_commands.specs.Requests as spec;
ghost use Rattle.dp_write_commands.specs.inner.Writes.{Finds, IsTree, error_of, value_of_given};

use dp_bytes::{Bytes, Memory, Text, int_of_text};
use dp_command::{PropertyPlace, PropertySet};
use dp_packet::ErrorCode;
use dp_parse::{ParseError, parse_expression};
use dp_state::{Path, State};
use dp_token_rules::is_superglobal;
use dp_tree::Expression;
use dp_value::Value;
use dp_view::{ViewError, named_path};
use dp_wire::COMMAND_LIMIT;
use std::alloc::Global;

/// What bytes give a property: themselves as a text, or another value.
#[derive(Debug, Drop)]
pub(crate) enum Given {
    Text,
    Other(Value),
}

/// The value of type `bool` that bytes spell: false for `0`, true for `1`, else none.
fn bool_in(bytes: &[u8]) -> Option<Given>
    ensures { option_map (value_of_given bytes.now) result ≡ spec.bool_in bytes.now }
{
    if bytes == b"0".as_slice() {
        return Some(Given::Other(Value::Bool(false)));
    }
    if bytes == b"1".as_slice() {
        return Some(Given::Other(Value::Bool(true)));
    }
    None
}

/// The value of type `int` that bytes spell, if they spell one.
fn int_in(bytes: &[u8]) -> Option<Given>
    ensures { option_map (value_of_given bytes.now) result ≡ spec.int_in bytes.now }
{
    match int_of_text(bytes) {
        Some(n) => Some(Given::Other(Value::Int(n))),
        None => None,
    }
}

/// The value of type `null`, if there are no bytes.
fn null_in(bytes: &[u8]) -> Option<Given>
    ensures { option_map (value_of_given bytes.now) result ≡ spec.null_in bytes.now }
{
    if bytes.len() == 0 {
        Some(Given::Other(Value::Null))
    } else {
        None
    }
}

/// What bytes give by a type.
fn given_as(kind: &[u8], bytes: &[u8]) -> Option<Given>
    ensures { option_map (value_of_given bytes.now) result ≡ spec.value_as kind.now bytes.now }
{
    if kind == b"string".as_slice() {
        return Some(Given::Text);
    }
    if kind == b"int".as_slice() {
        return int_in(bytes);
    }
    if kind == b"bool".as_slice() {
        return bool_in(bytes);
    }
    if kind == b"null".as_slice() {
        return null_in(bytes);
    }
    None
}

/// The same where the type may be missing.
fn given_by(kind: &Option<Bytes>, bytes: &[u8]) -> Option<Given>
    ensures { option_map (value_of_given bytes.now) result ≡ spec.value_given kind.now bytes.now }
{
    match kind {
        Some(kind) => given_as(kind.as_slice(), bytes),
        None => Some(Given::Text),
    }
}

/// Whether a length that is given is that of the bytes.
fn has_length(given: Option<u32>, bytes: &[u8]) -> bool
    ensures { result ≡ spec.has_length given bytes.now }
{
    match given {
        Some(n) => n as usize == bytes.len(),
        None => true,
    }
}

/// What a property is to have, if it is a value.
pub(crate) fn given_in(set: &PropertySet) -> Option<Given>
    ensures { option_map (value_of_given set.now.value) result ≡ spec.requested_value set.now }
{
    if has_length(set.length, set.value.as_slice()) {
        given_by(&set.kind, set.value.as_slice())
    } else {
        None
    }
}

/// The value that bytes give.
pub(crate) fn value_of(alloc: Global, given: Given, bytes: &[u8]) -> Result<Value, Memory>
    ensures { IfOk result (λ value. value ≡ value_of_given bytes.now given) }
{
    match given {
        Given::Text => Ok(Value::Text(Text::from_slice(alloc, bytes)?)),
        Given::Other(value) => Ok(value),
    }
}

/// The path, if a program may name its variable; else the code 300.
fn unreserved(path: Path) -> Result<Path, ViewError>
    ensures { Finds result (spec.unreserved path) }
{
    if is_superglobal(path.name.as_slice()) {
        Err(ViewError::Code(ErrorCode::CannotGetProperty))
    } else {
        Ok(path)
    }
}

/// The path that is to be written.
pub(crate) fn requested_path(
    alloc: Global,
    state: &State,
    place: &PropertyPlace,
) -> Result<Path, ViewError>
    ensures { AnswersAfter (λ path. path) result
        (path_of_name state.now place.now.level place.now.context place.now.name) (spec.requested_path
        state.now place.now) }
{
    let name = place.name.as_slice();
    match named_path(alloc, state, place.level, place.context, name) {
        Ok(path) => unreserved(path),
        Err(why) => Err(why),
    }
}

/// Why there is no tree: 206, or out of memory.
fn no_expression(why: ParseError) -> ViewError
    ensures { result ≡ error_of why }
{
    match why {
        ParseError::Memory => ViewError::Memory,
        _ => ViewError::Code(ErrorCode::ErrorEvaluatingCode),
    }
}

/// The tree of a text that is an expression.
pub(crate) fn tree_of(alloc: Global, text: &[u8]) -> Result<Expression, ViewError>
    ensures { IsTree text.now result }
{
    if text.len() > COMMAND_LIMIT {
        return Err(ViewError::Code(ErrorCode::ErrorEvaluatingCode));
    }
    match parse_expression(alloc, text) {
        Ok(e) => Ok(e),
        Err(why) => Err(no_expression(why)),
    }
}
