//! What is done with constants.

#![tactic(auto, using(crate::proofs::AtOnceLaws::acting))]

ghost use Rattle.std.specs.Prelude.{◌≡◌};
ghost use Rattle.dp_tree.specs.declared.operators.Native.TheVariants as native;
ghost use Rattle.dp_value.specs.declared.value.Value.TheVariants as variant;
ghost use Rattle.dp_state.specs.Constants.{with_constant};
ghost use Rattle.dp_actions.specs.After.{Then};
ghost use Rattle.dp_actions.specs.AtOnce.{AtOnce, EndsSurely};
ghost use Rattle.dp_actions.specs.Calls.{native_run};
ghost use Rattle.dp_actions.specs.Constants as spec;
ghost use Rattle.dp_actions.specs.Run.{Done};

use crate::entry_reads::builtin_call;
use crate::faults::fatal;
use crate::halt::Halt;
use dp_bytes::Bytes;
use dp_lexer::is_given;
use dp_state::{FatalKind, State};
use dp_tree::Native;
use dp_value::Value;
use std::alloc::Global;

/// The value of a constant, which has to be there.
pub fn constant_value(name: &Bytes, state: &State) -> Result<Value, Halt>
    ensures run { AtOnce (spec.constant_run name.now state.now) result state.now }
    ensures sure { EndsSurely (spec.constant_run name.now state.now) result }
{
    match state.constant(name)? {
        Some(value) => Ok(value),
        None => Err(fatal(FatalKind::NoConstant, state)),
    }
}

/// Whether a name is one of `true`, `false` and `null`, in any case of letters.
fn is_literal(name: &[u8]) -> bool
    ensures { result ≡ spec.is_literal name.now }
{
    name.eq_ignore_ascii_case(b"true")
        || name.eq_ignore_ascii_case(b"false")
        || name.eq_ignore_ascii_case(b"null")
}

/// Defines a constant, and says whether it did. Its name has to be one that a program may give.
fn defining(alloc: Global, name: &[u8], value: &Value, state: &mut State) -> Result<Value, Halt>
    ensures run { AtOnce (spec.defining name.now value.now state.old) result state.new }
    ensures sure { EndsSurely (spec.defining name.now value.now state.old) result }
{
    if !is_given(name) {
        return Err(fatal(FatalKind::Unsupported, state));
    }
    let name = Bytes::from_slice(alloc, name)?;
    let is_new = state.define(&name, value.try_clone()?)?;
    Ok(Value::Bool(is_new))
}

/// `define`, of two values.
fn define_as(alloc: Global, name: &Value, value: &Value, state: &mut State) -> Result<Value, Halt>
    ensures run { AtOnce (spec.define_as name.now value.now state.old) result state.new }
    ensures sure { EndsSurely (spec.define_as name.now value.now state.old) result }
{
    match name {
        Value::Text(name) => defining(alloc, name.as_slice(), value, state),
        Value::Null => Err(fatal(FatalKind::Unsupported, state)),
        Value::Bool(_) => Err(fatal(FatalKind::Unsupported, state)),
        Value::Int(_) => Err(fatal(FatalKind::Unsupported, state)),
        Value::Array(_) => Err(fatal(FatalKind::Unsupported, state)),
    }
}

/// `define`
fn define(alloc: Global, values: &[Value], state: &mut State) -> Result<Value, Halt>
    ensures run { AtOnce (spec.define_run values.now state.old) result state.new }
    ensures sure { EndsSurely (spec.define_run values.now state.old) result }
{
    match values {
        [name, value] => define_as(alloc, name, value, state),
        _ => Err(fatal(FatalKind::Arguments, state)),
    }
}

/// Whether there is a constant of this name, or it is `true`, `false` or `null`.
fn is_there(alloc: Global, name: &[u8], state: &State) -> Result<Value, Halt>
    ensures run { AtOnce (spec.defined_as (variant.Text name.now) state.now) result state.now }
    ensures sure { EndsSurely (spec.defined_as (variant.Text name.now) state.now) result }
{
    if is_literal(name) {
        return Ok(Value::Bool(true));
    }
    let name = Bytes::from_slice(alloc, name)?;
    Ok(Value::Bool(state.has_constant(&name)))
}

/// `defined`, of one value.
fn defined_as(alloc: Global, name: &Value, state: &State) -> Result<Value, Halt>
    ensures run { AtOnce (spec.defined_as name.now state.now) result state.now }
    ensures sure { EndsSurely (spec.defined_as name.now state.now) result }
{
    match name {
        Value::Text(name) => is_there(alloc, name.as_slice(), state),
        Value::Null => Err(fatal(FatalKind::Unsupported, state)),
        Value::Bool(_) => Err(fatal(FatalKind::Unsupported, state)),
        Value::Int(_) => Err(fatal(FatalKind::Unsupported, state)),
        Value::Array(_) => Err(fatal(FatalKind::Unsupported, state)),
    }
}

/// `defined`
fn defined(alloc: Global, values: &[Value], state: &State) -> Result<Value, Halt>
    ensures run { AtOnce (spec.defined_run values.now state.now) result state.now }
    ensures sure { EndsSurely (spec.defined_run values.now state.now) result }
{
    match values {
        [name] => defined_as(alloc, name, state),
        _ => Err(fatal(FatalKind::Arguments, state)),
    }
}

/// The value of a built-in function of these values, which are lent to it.
pub fn native_call(
    alloc: Global,
    function: Native,
    values: &[Value],
    state: &mut State,
) -> Result<Value, Halt>
    ensures run { AtOnce (native_run function values.now state.old) result state.new }
    ensures define { function ≡ native.Define → EndsSurely (spec.define_run values.now state.old) result }
    ensures defined { function ≡ native.Defined → EndsSurely (spec.defined_run values.now state.old) result }
{
    match function {
        Native::Table(builtin) => builtin_call(alloc, builtin, values, state),
        Native::Define => define(alloc, values, state),
        Native::Defined => defined(alloc, values, state),
    }
}

/// Gives a constant a value, unless there is one of its name.
pub fn define_constant(name: &Bytes, value: Value, state: &mut State) -> Result<(), Halt>
    ensures { AtOnce (Done tt (with_constant name.now value state.old)) result state.new }
{
    let _is_new = state.define(name, value)?;
    Ok(())
}

/// Gives a constant the value of an evaluation, unless there is one of its name.
pub fn then_define(name: &Bytes, value: Result<Value, Halt>, state: &mut State) -> Result<(), Halt>
    ensures { Then value (λ v s. Done tt (with_constant name.now v s)) state.old result state.new }
{
    let value = value?;
    define_constant(name, value, state)
}
