//! Variables that are found by the hash of their names.
//!
//! A variable that is taken away from the front stays as it is kept, without a value, until as many are taken as are
//! left. Then they are cleared at once. So all variables are taken away one after another in a time by their number.

ghost use Rattle.std.specs.Prelude.{◌≡◌, ◌+◌, ◌<◌, ◌≤◌, drop, length, remove, take};
ghost use Rattle.std.specs.Map.{keys_of};
ghost use Rattle.std.specs.Str.{bytes_eq};
ghost use Rattle.dp_value.specs.Place.{IsAbsent};

use crate::vars::Slot;
use dp_bytes::{Bytes, Memory};
use indexmap::IndexMap;
use std::alloc::Global;
use std::marker::Model;

/// Variables in the order of their first assignment, so many of which at the front are taken away already. Contracts
/// see the list of names and slots of those that are left.
#[derive(Debug, Drop)]
pub(crate) struct Hashed {
    slots: IndexMap<Bytes, Slot>,
    gone: usize,
}

impl Model for Hashed {
    ghost use Rattle.std.specs.Prelude.{List, ℕ, ◌≤◌, drop, length};
    ghost use Rattle.std.specs.Coded.{coded×, coded_list, coded_ℕ};
    ghost use Rattle.dp_state.specs.declared.vars.Slot.{Slot as VariableSlot};
    ghost use Rattle.dp_state.specs.contracts.vars.Slot as slot;

    ghost Value = { List (List ℕ × VariableSlot) };

    ghost coded = { coded_list (coded× (coded_list coded_ℕ) slot.the_row.coded) };

    ghost view = { λ v. drop v.gone v.slots.entries };

    ghost invariant = { λ v. v.gone ≤ length v.slots.entries };
}

impl Hashed {
    ghost use Rattle.std.specs.Prelude.{◌≡◌, ◌<◌, ◌^◌, [], length, option_map, position, slice_get, None, OnErr, OnOk};
    ghost use Rattle.std.specs.Borrow.{sem};
    ghost use Rattle.std.specs.List.{IsDistinct};
    ghost use Rattle.std.specs.Map.{keys_of, values_of};
    ghost use Rattle.std.specs.Str.{bytes_eq};
    ghost use Rattle.dp_state.specs.Variables.{slot_of, with_slot, without};
    ghost use Rattle.dp_state.specs.inner.Loans.{LendsHashed};

    /// No variables. Takes no memory.
    pub(crate) fn new(alloc: Global) -> Hashed
        ensures { result ≡ [] }
    {
        Hashed {
            slots: IndexMap::new(alloc),
            gone: 0,
        }
    }

    /// The number of variables, whose names are distinct. Takes no memory.
    pub(crate) fn len(&self) -> usize
        ensures len { result ≡ length self.now }
        ensures small { result < 2 ^ 63 }
        ensures distinct { IsDistinct bytes_eq (keys_of self.now) }
    {
        self.slots.len() - self.gone
    }

    /// The variable at a position, counted from 0 in their order. Takes no memory.
    pub(crate) fn pair(&self, at: usize) -> Option<(&Bytes, &Slot)>
        ensures { option_map (λ p. (p.0.now, p.1.now)) result ≡ slice_get self.now at }
    {
        let rows = self.slots.len();
        if at >= rows - self.gone {
            return None;
        }
        self.slots.get_index(self.gone + at)
    }

    /// What a name has. Takes no memory.
    pub(crate) fn get(&self, name: &Bytes) -> Option<&Slot>
        ensures { option_map (λ slot. slot.now) result ≡ slot_of self.now name.now }
    {
        match self.place(name) {
            Some(at) => self.slot_at(at),
            None => None,
        }
    }

    /// The position of a name, found by its hash.
    fn place(&self, name: &Bytes) -> Option<usize>
        ensures { result ≡ position (bytes_eq name.now) (keys_of self.now) }
    {
        let Some(row) = self.slots.get_index_of(name) else {
            return None;
        };
        if row < self.gone {
            return None;
        }
        Some(row - self.gone)
    }

    /// What the name at a position has.
    fn slot_at(&self, at: usize) -> Option<&Slot>
        ensures { option_map (λ slot. slot.now) result ≡ slice_get (values_of self.now) at }
    {
        match self.pair(at) {
            Some((_, slot)) => Some(slot),
            None => None,
        }
    }

    /// Gives a name a slot. A name that is there keeps its place, a new one goes last.
    pub(crate) fn set(&mut self, name: Bytes, slot: Slot) -> Result<(), Memory>
        ensures ok { OnOk result (self.new ≡ with_slot self.old name slot) }
        ensures err { OnErr result (self.new ≡ self.old) }
    {
        forget(&mut self.slots, &mut self.gone, &name);
        self.slots.insert(name, slot)?;
        Ok(())
    }

    /// Lends what a name has. Takes no memory.
    pub(crate) fn slot_mut(&mut self, name: &Bytes) -> Option<&mut Slot>
        ensures* writes_back { sem 𝓛 (LendsHashed self.entry name.now result) }
        ensures value { option_map (λ slot. slot.now) result ≡ slot_of self.old name.now }
    {
        let Some(at) = self.place(name) else {
            return None;
        };
        // The number of rows is what says that a row fits.
        let _rows = self.slots.len();
        self.slots.get_index_mut(self.gone + at)
    }

    /// Takes a name out. Takes no memory.
    pub(crate) fn remove(&mut self, name: &Bytes)
        ensures { self.new ≡ without self.old name.now }
    {
        let Some(at) = self.place(name) else {
            return;
        };
        take_out(&mut self.slots, &mut self.gone, at);
    }
}

/// Clears the rows that are taken away already where this name is in one of them.
fn forget(slots: &mut IndexMap<Bytes, Slot>, gone: &mut usize, name: &Bytes)
    requires { gone.old ≤ length slots.old.entries }
    ensures left { drop gone.new slots.new.entries ≡ drop gone.old slots.old.entries }
    ensures within { gone.new ≤ length slots.new.entries }
    ensures fresh { IsAbsent (bytes_eq name.now) (keys_of (take gone.new slots.new.entries)) }
{
    if *gone == 0 {
        return;
    }
    let Some(row) = slots.get_index_of(name) else {
        return;
    };
    if row < *gone {
        clear(slots, gone);
    }
}

/// Takes a row out of those that are left: the first by a mark, any other by closing up.
fn take_out(slots: &mut IndexMap<Bytes, Slot>, gone: &mut usize, at: usize)
    requires { gone.old + at < length slots.old.entries }
    ensures left { drop gone.new slots.new.entries ≡ remove (drop gone.old slots.old.entries) at }
    ensures within { gone.new ≤ length slots.new.entries }
{
    clear_many(slots, gone);
    take_row(slots, gone, at);
}

/// The same where fewer rows are taken away than are left.
fn take_row(slots: &mut IndexMap<Bytes, Slot>, gone: &mut usize, at: usize)
    requires { gone.old + at < length slots.old.entries }
    ensures left { drop gone.new slots.new.entries ≡ remove (drop gone.old slots.old.entries) at }
    ensures within { gone.new ≤ length slots.new.entries }
{
    // The number of rows is what says that a row fits.
    let _rows = slots.len();
    if at > 0 {
        let _ = slots.shift_remove_index(*gone + at);
        return;
    }
    let Some(slot) = slots.get_index_mut(*gone) else {
        return;
    };
    *slot = Slot::Bound;
    *gone += 1;
}

/// Clears the rows that are taken away already where they are as many as those that are left.
fn clear_many(slots: &mut IndexMap<Bytes, Slot>, gone: &mut usize)
    requires { gone.old ≤ length slots.old.entries }
    ensures left { drop gone.new slots.new.entries ≡ drop gone.old slots.old.entries }
    ensures within { gone.new ≤ length slots.new.entries }
{
    if *gone >= slots.len() - *gone {
        clear(slots, gone);
    }
}

/// Clears the rows that are taken away already.
fn clear(slots: &mut IndexMap<Bytes, Slot>, gone: &mut usize)
    requires { gone.old ≤ length slots.old.entries }
    ensures left { slots.new.entries ≡ drop gone.old slots.old.entries }
    ensures none { gone.new ≡ 0 }
{
    drop(slots.drain(..*gone));
    *gone = 0;
}
