//! Writes and removals among variables.

ghost use Rattle.std.specs.Prelude.{◌≡◌, ◌⊎◌, ◌++◌, [], false, not, is_some, None, Ok, Err, IfOk, IfErr, OnOk, OnErr};
ghost use Rattle.dp_state.specs.Variables.{slot_of, value_held, with_slot};
ghost use Rattle.dp_state.specs.Places.{with_null};
ghost use Rattle.dp_state.specs.inner.Parts.{assigned_in, removed_in, IsCauseIn, IsSureIn};
ghost use Rattle.dp_state.specs.States.{IsFatal};
ghost use Rattle.dp_state.specs.declared.state.Fault.TheVariants as fault;
ghost use Rattle.dp_value.specs.declared.value.Value.TheVariants as variant;
ghost use Rattle.dp_state.specs.declared.vars.Slot.TheVariants as variable;

use crate::moments::FatalKind;
use crate::state::Fault;
use crate::vars::{Slot, Vars};
use dp_bytes::{Bytes, Memory, Text};
use dp_value::{Key, Value, WEIGHT_LIMIT, append_at, remove_at, weight, write_at};
use std::alloc::Global;

/// Gives a variable a value, or gives it to the entry of the variable under `keys`, or pushes it there.
pub(crate) fn assign_in(
    vars: &mut Vars,
    name: &Bytes,
    keys: &[Option<Key>],
    push: bool,
    value: Value,
) -> Result<(), Fault>
    ensures ok { OnOk result (assigned_in name.now keys.now push value vars.old ≡ Ok vars.new) }
    ensures refused { IfErr result (IsCauseIn (assigned_in name.now keys.now push value vars.old)) }
    ensures sure { IsSureIn (assigned_in name.now keys.now push value vars.old) result }
    ensures err { OnErr result (vars.new ≡ vars.old) }
{
    let alloc = vars.allocator();
    if keys.is_empty() && !push {
        return assign_whole(vars, name, value);
    }
    let Some(held) = vars.value_mut(name) else {
        return assign_new(alloc, vars, name, keys, push, value);
    };
    match write_at(alloc, held, keys, push, value) {
        Ok(()) => Ok(()),
        Err(why) => Err(Fault::from(why)),
    }
}

/// Gives a variable a value.
fn assign_whole(vars: &mut Vars, name: &Bytes, value: Value) -> Result<(), Fault>
    ensures ok { OnOk result (assigned_in name.now [] false value vars.old ≡ Ok vars.new) }
    ensures refused { IfErr result (IsCauseIn (assigned_in name.now [] false value vars.old)) }
    ensures sure { IsSureIn (assigned_in name.now [] false value vars.old) result }
    ensures err { OnErr result (vars.new ≡ vars.old) }
{
    if weight(&value) > WEIGHT_LIMIT {
        return Err(Fault::Fatal(FatalKind::TooHeavy));
    }
    put(vars, name, value)?;
    Ok(())
}

/// Gives a variable a value of any weight.
fn put(vars: &mut Vars, name: &Bytes, value: Value) -> Result<(), Memory>
    ensures ok { OnOk result (vars.new ≡ with_slot vars.old name.now (variable.Held value)) }
    ensures err { OnErr result (vars.new ≡ vars.old) }
{
    match vars.value_mut(name) {
        Some(held) => {
            *held = value;
            Ok(())
        }
        None => vars.set(name, Slot::Held(value)),
    }
}

/// The same where the name holds no value yet.
fn assign_new(
    alloc: Global,
    vars: &mut Vars,
    name: &Bytes,
    keys: &[Option<Key>],
    push: bool,
    value: Value,
) -> Result<(), Fault>
    requires { value_held (slot_of vars.old name.now) ≡ None }
    ensures ok { OnOk result (assigned_in name.now keys.now push value vars.old ≡ Ok vars.new) }
    ensures refused { IfErr result (IsCauseIn (assigned_in name.now keys.now push value vars.old)) }
    ensures sure { IsSureIn (assigned_in name.now keys.now push value vars.old) result }
    ensures err { OnErr result (vars.new ≡ vars.old) }
{
    let mut made = Value::Null;
    match write_at(alloc, &mut made, keys, push, value) {
        Ok(()) => {
            vars.set(name, Slot::Held(made))?;
            Ok(())
        }
        Err(why) => Err(Fault::from(why)),
    }
}

/// Gives a variable, or its entry under `keys`, a text with a piece behind it. What stands there goes first, so that a
/// text that has no owner beside it grows in its place.
pub(crate) fn append_in(
    vars: &mut Vars,
    name: &Bytes,
    keys: &[Option<Key>],
    text: Text,
    piece: &[u8],
) -> Result<Text, Fault>
    ensures longer { IfOk result (λ longer. longer ≡ text ++ piece.now) }
    ensures ok { OnOk result (assigned_in name.now keys.now false (variant.Text (text ++ piece.now)) vars.old ≡ Ok
        vars.new) }
    ensures refused { IfErr result (IsCauseIn (assigned_in name.now keys.now false (variant.Text (text ++ piece.now))
        vars.old)) }
    ensures sure { IsSureIn (assigned_in name.now keys.now false (variant.Text (text ++ piece.now)) vars.old) result }
    ensures err { IsFatal result → vars.new ≡ vars.old }
    ensures memory { result ≡ Err fault.Memory
        → (vars.new ≡ vars.old) ⊎ (assigned_in name.now keys.now false variant.Null vars.old ≡ Ok vars.new) }
{
    let alloc = vars.allocator();
    let Some(held) = vars.value_mut(name) else {
        return append_new(alloc, vars, name, keys, text, piece);
    };
    match append_at(alloc, held, keys, text, piece) {
        Ok(longer) => Ok(longer),
        Err(why) => Err(Fault::from(why)),
    }
}

/// The same where the name holds no value yet.
fn append_new(
    alloc: Global,
    vars: &mut Vars,
    name: &Bytes,
    keys: &[Option<Key>],
    text: Text,
    piece: &[u8],
) -> Result<Text, Fault>
    requires { value_held (slot_of vars.old name.now) ≡ None }
    ensures longer { IfOk result (λ longer. longer ≡ text ++ piece.now) }
    ensures ok { OnOk result (assigned_in name.now keys.now false (variant.Text (text ++ piece.now)) vars.old ≡ Ok
        vars.new) }
    ensures refused { IfErr result (IsCauseIn (assigned_in name.now keys.now false (variant.Text (text ++ piece.now))
        vars.old)) }
    ensures sure { IsSureIn (assigned_in name.now keys.now false (variant.Text (text ++ piece.now)) vars.old) result }
    ensures err { OnErr result (vars.new ≡ vars.old) }
{
    let mut made = Value::Null;
    match append_at(alloc, &mut made, keys, text, piece) {
        Ok(longer) => {
            vars.set(name, Slot::Held(made))?;
            Ok(longer)
        }
        Err(why) => Err(Fault::from(why)),
    }
}

/// Takes the entry of a variable under `keys` away. Where the name holds no value, nothing changes.
pub(crate) fn remove_in(vars: &mut Vars, name: &Bytes, keys: &[Option<Key>]) -> Result<(), Fault>
    ensures ok { OnOk result (removed_in name.now keys.now vars.old ≡ Ok vars.new) }
    ensures refused { IfErr result (IsCauseIn (removed_in name.now keys.now vars.old)) }
    ensures sure { IsSureIn (removed_in name.now keys.now vars.old) result }
    ensures err { OnErr result (vars.new ≡ vars.old) }
{
    let Some(held) = vars.value_mut(name) else {
        return Ok(());
    };
    match remove_at(held, keys) {
        Ok(()) => Ok(()),
        Err(why) => Err(Fault::from(why)),
    }
}

/// Gives a name null where it is missing, and says whether it was.
pub(crate) fn make_null(vars: &mut Vars, name: &Bytes) -> Result<bool, Memory>
    ensures made { IfOk result (λ made. made ≡ not (is_some (slot_of vars.old name.now))) }
    ensures ok { OnOk result (vars.new ≡ with_null name.now vars.old) }
    ensures err { OnErr result (vars.new ≡ vars.old) }
{
    if vars.get(name).is_some() {
        return Ok(false);
    }
    vars.set(name, Slot::Held(Value::Null))?;
    Ok(true)
}

/// Gives a name the mark that it is bound.
pub(crate) fn bind_in(vars: &mut Vars, name: &Bytes) -> Result<(), Memory>
    ensures ok { OnOk result (vars.new ≡ with_slot vars.old name.now variable.Bound) }
    ensures err { OnErr result (vars.new ≡ vars.old) }
{
    vars.set(name, Slot::Bound)
}
