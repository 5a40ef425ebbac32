//! Constants: those that are there from the start, and those that a program defines.

ghost use Rattle.std.specs.Prelude.{◌≡◌, is_some, not, option_map, IfOk, IsNone, IsSome, OnErr, OnOk};
ghost use Rattle.std.specs.Map.{lookup};
ghost use Rattle.std.specs.Str.{bytes_eq};
ghost use Rattle.dp_state.specs.Constants as spec;
ghost use Rattle.dp_state.specs.Variables.{slot_of, value_held};
ghost use Rattle.dp_state.specs.inner.Standing.{value_of};

use crate::state::State;
use crate::vars::{Slot, Vars};
use dp_bytes::{Bytes, Memory, Text};
use dp_value::Value;
use std::alloc::Global;

/// The value of a constant that is there from the start, which takes no memory yet: a text of one byte, or an integer.
#[derive(Clone, Copy, Debug)]
pub(crate) enum Standing {
    Byte(u8),
    Int(i64),
}

/// What a constant of this name is from the start.
fn standing_named(name: &[u8]) -> Option<Standing>
    ensures { option_map value_of result ≡ lookup (bytes_eq name.now) spec.standing }
{
    if name == b"PHP_EOL".as_slice() {
        return Some(Standing::Byte(b'\n'));
    }
    if name == b"PHP_INT_MAX".as_slice() {
        return Some(Standing::Int(i64::MAX));
    }
    if name == b"PHP_INT_MIN".as_slice() {
        return Some(Standing::Int(i64::MIN));
    }
    None
}

/// The value of a constant that is there from the start.
fn standing_value(alloc: Global, standing: Standing) -> Result<Value, Memory>
    ensures { IfOk result (λ value. value ≡ value_of standing) }
{
    match standing {
        Standing::Byte(byte) => Ok(Value::Text(Text::from_slice(alloc, &[byte])?)),
        Standing::Int(number) => Ok(Value::Int(number)),
    }
}

/// The value of a constant that the program has defined.
fn held<'a>(constants: &'a Vars, name: &Bytes) -> Option<&'a Value>
    ensures { option_map (λ value. value.now) result ≡ value_held (slot_of constants.now name.now) }
{
    match constants.get(name) {
        None => None,
        Some(Slot::Bound) => None,
        Some(Slot::Held(value)) => Some(value),
    }
}

/// A value of two owners, if there is one. Where there is none, it takes no memory.
fn copied(found: Option<&Value>) -> Result<Option<Value>, Memory>
    ensures ok { IfOk result (λ copy. copy ≡ option_map (λ value. value.now) found.entry) }
    ensures sure { OnErr result (IsSome found.entry) }
{
    match found {
        None => Ok(None),
        Some(value) => Ok(Some(value.try_clone()?)),
    }
}

impl State {
    /// The value of a constant, found by its name in its case of letters. That there is none takes no memory to say.
    pub fn constant(&self, name: &Bytes) -> Result<Option<Value>, Memory>
        ensures ok { IfOk result (λ value. value ≡ spec.constant name.now self.now) }
        ensures sure { OnErr result (IsSome (spec.constant name.now self.now)) }
    {
        match standing_named(name.as_slice()) {
            Some(standing) => Ok(Some(standing_value(self.allocator(), standing)?)),
            None => copied(held(&self.constants, name)),
        }
    }

    /// Whether there is a constant of this name. Takes no memory.
    pub fn has_constant(&self, name: &Bytes) -> bool
        ensures { result ≡ is_some (spec.constant name.now self.now) }
    {
        match held(&self.constants, name) {
            Some(_) => true,
            None => standing_named(name.as_slice()).is_some(),
        }
    }

    /// Defines a constant, and says whether it did: where there is one of this name, that keeps its value, and no
    /// memory is taken. After out of memory the state is as before.
    pub fn define(&mut self, name: &Bytes, value: Value) -> Result<bool, Memory>
        ensures new { IfOk result (λ new. new ≡ not (is_some (spec.constant name.now self.old))) }
        ensures ok { OnOk result (self.new ≡ spec.with_constant name.now value self.old) }
        ensures sure { OnErr result (IsNone (spec.constant name.now self.old)) }
        ensures err { OnErr result (self.new ≡ self.old) }
    {
        if self.has_constant(name) {
            return Ok(false);
        }
        self.constants.set(name, Slot::Held(value))?;
        Ok(true)
    }
}
