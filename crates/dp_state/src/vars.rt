//! The variables of a frame, and the constants of a program.
//!
//! The first few are looked through by their names. Those that come when these are so many are found by the hash of
//! their names.

ghost use Rattle.std.specs.Prelude.{◌≡◌, ◌∷◌, ◌++◌, ◌≤◌, [], length, position, take, IfOk, OnErr, OnOk};
ghost use Rattle.std.specs.Str.{bytes_eq};

use crate::hashed::Hashed;
use dp_bytes::{Bytes, Memory};
use dp_value::Value;
use std::alloc::Global;
use std::marker::Model;

/// How many variables are looked through by their names, the most.
const NEAR: usize = 8;

/// What a name of a frame has: a value, or the mark that it is bound to the global variable of its name.
#[derive(Debug, Drop)]
pub enum Slot {
    Held(Value),
    Bound,
}

/// Variables in the order of their first assignment, or constants in that of their definition: the first few, and
/// behind them those that are found by the hash of their names. Contracts see the list of names and slots.
///
/// So many rows at the front are in use. What stands behind them was in use before, and has a name and no value:
/// whoever has the same name next copies none.
#[derive(Debug, Drop)]
pub struct Vars {
    near: Vec<(Bytes, Slot)>,
    used: usize,
    far: Option<Box<Hashed>>,
}

impl Model for Vars {
    ghost use Rattle.std.specs.Prelude.{◌++◌, List, ℕ, ◌≤◌, [], length, take};
    ghost use Rattle.std.specs.Coded.{coded×, coded_list, coded_ℕ};
    ghost use Rattle.std.specs.List.{IsDistinct};
    ghost use Rattle.std.specs.Map.{keys_of};
    ghost use Rattle.std.specs.Option.{option_map_or};
    ghost use Rattle.std.specs.Str.{bytes_eq};
    ghost use Rattle.dp_state.specs.declared.vars.Slot.{Slot as VariableSlot};
    ghost use Rattle.dp_state.specs.contracts.vars.Slot as slot;

    ghost Value = { List (List ℕ × VariableSlot) };

    ghost coded = { coded_list (coded× (coded_list coded_ℕ) slot.the_row.coded) };

    ghost view = { λ v. take v.used v.near.items ++ option_map_or (λ far. far.value) v.far [] };

    ghost invariant = { λ v. (v.used ≤ length v.near.items)
        × IsDistinct bytes_eq (keys_of (take v.used v.near.items ++ option_map_or (λ far. far.value) v.far [])) };
}

impl Slot {
    ghost use Rattle.std.specs.Prelude.{◌≡◌, option_map, Some};
    ghost use Rattle.std.specs.Borrow.{sem};
    ghost use Rattle.std.specs.Option.{option_map_or};
    ghost use Rattle.dp_state.specs.Variables.{sum_in, value_held};
    ghost use Rattle.dp_state.specs.declared.vars.Slot.TheVariants as variable;
    ghost use Rattle.dp_state.specs.inner.Loans.{LendsHeld};
    ghost use Rattle.dp_value.specs.declared.value.Value.TheVariants as any_value;

    /// Lends the value that is held.
    fn value_mut(&mut self) -> Option<&mut Value>
        ensures* writes_back { sem 𝓛 (LendsHeld self.entry result) }
        ensures value { option_map (λ value. value.now) result ≡ value_held (Some self.old) }
    {
        match self {
            Slot::Held(held) => Some(held),
            Slot::Bound => None,
        }
    }

    /// Adds to the integer that is held, and gives the sum.
    pub(crate) fn add(&mut self, by: i64) -> Option<i64>
        ensures sum { result ≡ sum_in by (Some self.old) }
        ensures added { self.new ≡ option_map_or (λ sum. variable.Held (any_value.Int sum)) result self.old }
    {
        let Slot::Held(held) = self else {
            return None;
        };
        let Value::Int(n) = *held else {
            return None;
        };
        let Some(sum) = n.checked_add(by) else {
            return None;
        };
        *held = Value::Int(sum);
        Some(sum)
    }
}

impl Vars {
    ghost use Rattle.std.specs.Prelude.{◌≡◌, [], length, is_some, option_map, slice_get, None, OnErr, OnOk};
    ghost use Rattle.std.specs.Borrow.{sem};
    ghost use Rattle.std.specs.List.{IsDistinct};
    ghost use Rattle.std.specs.Map.{keys_of};
    ghost use Rattle.std.specs.Str.{bytes_eq};
    ghost use Rattle.dp_state.specs.Variables.{slot_of, sum_in, value_held, with_slot, without};
    ghost use Rattle.dp_state.specs.inner.Loans.{LendsSlot, LendsValue};
    ghost use Rattle.dp_state.specs.inner.Parts.{with_replaced, with_sum};
    ghost use Rattle.dp_value.specs.declared.value.Value.TheVariants as any_value;

    /// No variables. Takes no memory.
    pub fn new(alloc: Global) -> Vars
        ensures { result ≡ [] }
    {
        Vars {
            near: Vec::new(alloc),
            used: 0,
            far: None,
        }
    }

    /// The number of variables, whose names are distinct. Takes no memory.
    pub fn len(&self) -> usize
        ensures len { result ≡ length self.now }
        ensures distinct { IsDistinct bytes_eq (keys_of self.now) }
    {
        match &self.far {
            None => self.used,
            Some(far) => self.used + far.len(),
        }
    }

    /// The variable at a position, counted from 0 in their order. Takes no memory.
    pub fn pair(&self, at: usize) -> Option<(&Bytes, &Slot)>
        ensures { option_map (λ p. (p.0.now, p.1.now)) result ≡ slice_get self.now at }
    {
        match self.near[..self.used].get(at) {
            Some((name, slot)) => Some((name, slot)),
            None => match &self.far {
                None => None,
                Some(far) => far.pair(at - self.used),
            },
        }
    }

    /// What a name has. Takes no memory.
    pub fn get(&self, name: &Bytes) -> Option<&Slot>
        ensures { option_map (λ slot. slot.now) result ≡ slot_of self.now name.now }
    {
        match near(&self.near[..self.used], name) {
            Some(at) => Some(&self.near[at].1),
            None => match &self.far {
                None => None,
                Some(far) => far.get(name),
            },
        }
    }

    /// Gives a name a slot. A name that is there keeps its place, a new one goes last.
    pub fn set(&mut self, name: &Bytes, slot: Slot) -> Result<(), Memory>
        ensures ok { OnOk result (self.new ≡ with_slot self.old name.now slot) }
        ensures err { OnErr result (self.new ≡ self.old) }
    {
        match self.slot_mut(name) {
            Some(there) => {
                *there = slot;
                Ok(())
            }
            None => self.push(name, slot),
        }
    }

    /// The same for a name that is not there.
    fn push(&mut self, name: &Bytes, slot: Slot) -> Result<(), Memory>
        requires { slot_of self.old name.now ≡ None }
        ensures ok { OnOk result (self.new ≡ with_slot self.old name.now slot) }
        ensures err { OnErr result (self.new ≡ self.old) }
    {
        match &mut self.far {
            Some(far) => Ok(far.set(name.try_clone()?, slot)?),
            None if self.used < NEAR => Ok(push_row(&mut self.near, &mut self.used, name, slot)?),
            None => {
                self.far = Some(first_far(self.allocator(), name, slot)?);
                Ok(())
            }
        }
    }

    /// Takes all variables out. Their rows are kept for those that come next. Takes no memory.
    pub(crate) fn clear(&mut self)
        ensures { self.new ≡ [] }
    {
        for row in self.near[..self.used].iter_mut() {
            row.1 = Slot::Bound;
        }
        self.used = 0;
        self.far = None;
    }

    /// Lends what a name has. Takes no memory.
    #[inline(always)]
    fn slot_mut(&mut self, name: &Bytes) -> Option<&mut Slot>
        ensures* writes_back { sem 𝓛 (LendsSlot self.entry name.now result) }
        ensures value { option_map (λ slot. slot.now) result ≡ slot_of self.old name.now }
    {
        match near(&self.near[..self.used], name) {
            Some(at) => Some(&mut self.near[at].1),
            None => match &mut self.far {
                None => None,
                Some(far) => far.slot_mut(name),
            },
        }
    }

    /// Lends the value that a name holds. Takes no memory.
    pub(crate) fn value_mut(&mut self, name: &Bytes) -> Option<&mut Value>
        ensures* writes_back { sem 𝓛 (LendsValue self.entry name.now result) }
        ensures value { option_map (λ value. value.now) result ≡ value_held (slot_of self.old name.now) }
    {
        match self.slot_mut(name) {
            Some(slot) => slot.value_mut(),
            None => None,
        }
    }

    /// Puts an integer in the place of the value that a name holds, and says whether it holds one. Takes no memory.
    pub(crate) fn put_integer(&mut self, name: &Bytes, n: i64) -> bool
        ensures held { result ≡ is_some (value_held (slot_of self.old name.now)) }
        ensures exchanged { self.new ≡ with_replaced name.now (any_value.Int n) self.old }
    {
        match self.value_mut(name) {
            Some(held) => {
                *held = Value::Int(n);
                true
            }
            None => false,
        }
    }

    /// Adds to the integer that a name holds, and gives the sum. Where there is none, nothing changes. Takes no memory.
    pub(crate) fn add(&mut self, name: &Bytes, by: i64) -> Option<i64>
        ensures sum { result ≡ sum_in by (slot_of self.old name.now) }
        ensures added { self.new ≡ with_sum name.now result self.old }
    {
        match self.slot_mut(name) {
            Some(slot) => slot.add(by),
            None => None,
        }
    }

    /// Takes a name out. Takes no memory.
    pub fn remove(&mut self, name: &Bytes)
        ensures { self.new ≡ without self.old name.now }
    {
        match near(&self.near[..self.used], name) {
            Some(at) => {
                drop(self.near.remove(at));
                self.used -= 1;
            }
            None => match &mut self.far {
                None => {}
                Some(far) => far.remove(name),
            },
        }
    }

    /// What the variables take their memory from.
    pub(crate) fn allocator(&self) -> Global {
        *self.near.allocator()
    }
}

/// Puts a new row behind those in use: in one that was in use before, if there is one.
fn push_row(
    rows: &mut Vec<(Bytes, Slot)>,
    used: &mut usize,
    name: &Bytes,
    slot: Slot,
) -> Result<(), Memory>
    requires { used.old ≤ length rows.old.items }
    ensures ok { OnOk result (take used.new rows.new.items ≡ take used.old rows.old.items ++ (name.now, slot) ∷ []) }
    ensures err { OnErr result (take used.new rows.new.items ≡ take used.old rows.old.items) }
    ensures within { used.new ≤ length rows.new.items }
{
    if *used < rows.len() {
        rename(&mut rows[*used].0, name)?;
        rows[*used].1 = slot;
    } else {
        rows.push((name.try_clone()?, slot))?;
    }
    *used += 1;
    Ok(())
}

/// The first of the variables that are found by the hash of their names.
fn first_far(alloc: Global, name: &Bytes, slot: Slot) -> Result<Box<Hashed>, Memory>
    ensures { IfOk result (λ far. far.value ≡ (name.now, slot) ∷ []) }
{
    let mut far = Hashed::new(alloc);
    far.set(name.try_clone()?, slot)?;
    Ok(Box::new(alloc, far)?)
}

/// Gives a name that is kept another one, which is copied where it is another.
pub(crate) fn rename(kept: &mut Bytes, name: &Bytes) -> Result<(), Memory>
    ensures ok { OnOk result (kept.new ≡ name.now) }
    ensures err { OnErr result (kept.new ≡ kept.old) }
{
    if !is_same(kept.as_slice(), name.as_slice()) {
        *kept = name.try_clone()?;
    }
    Ok(())
}

/// The position of a name among rows.
#[inline(always)]
fn near(rows: &[(Bytes, Slot)], name: &Bytes) -> Option<usize>
    ensures { result ≡ position (λ row. bytes_eq name.now row.0) rows.now }
{
    let mut rows = rows.iter();
    rows.position(|row| is_same(name.as_slice(), row.0.as_slice()))
}

/// Whether two names are the same. Their first bytes tell most names apart.
#[inline(always)]
fn is_same(name: &[u8], other: &[u8]) -> bool
    ensures { result ≡ bytes_eq name.now other.now }
{
    if name.len() != other.len() || name.first() != other.first() {
        return false;
    }
    name.len() <= 1 || are_equal(name, other)
}

/// The same byte by byte.
#[inline(never)]
fn are_equal(name: &[u8], other: &[u8]) -> bool
    ensures { result ≡ bytes_eq name.now other.now }
{
    name == other
}
