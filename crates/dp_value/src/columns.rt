//! The keys and values of an array, side by side.

ghost use Rattle.std.specs.Prelude.{◌≡◌, ◌==◌, ◌+◌, ◌<◌, ◌≤◌, ◌↔◌, ◌⊎◌, [], min, length, slice_get};
ghost use Rattle.std.specs.Prelude.{is_some, option_map, IfOk, OnOk, OnErr, IfErr, IsErrOf};
ghost use Rattle.dp_value.specs.Data.{null, pairs_weight};
ghost use Rattle.dp_value.specs.Table.{empty, value_at, put, table_set, table_remove};
ghost use Rattle.dp_value.specs.Table.{table_exchange, swapped, weight_limit, IsTable, raised as raised_by};
ghost use Rattle.dp_value.specs.Value.{data_of};
ghost use Rattle.dp_value.specs.inner.Writes.{IsTooMuch};

use crate::kept::Kept;
use crate::rows::{nth_value, replace_nth, store, take_out};
use crate::value::Columns;
use crate::{Key, Value, ValueError, WEIGHT_LIMIT, weight};
use dp_bytes::Memory;
use std::alloc::Global;
use std::rc::Rc;

impl Columns {
    /// The array without entries, in which no integer key was ever used. Takes no memory.
    pub(crate) fn new(alloc: Global) -> Columns
        ensures { result ≡ empty }
    {
        Columns {
            kept: Kept::Rising(Vec::new(alloc)),
            values: Vec::new(alloc),
            start: 0,
            gone: 0,
            closed: 0,
            largest: None,
            weight: 0,
        }
    }

    /// The number of entries. Takes no memory.
    pub(crate) fn len(&self) -> usize
        ensures len { result ≡ length self.now.pairs }
        ensures table { IsTable self.now }
    {
        self.kept.len() - self.gone
    }

    /// Whether there is no entry. Takes no memory.
    pub(crate) fn is_empty(&self) -> bool
        ensures { result ≡ (length self.now.pairs == 0) }
    {
        self.len() == 0
    }

    /// The entry at a position, counted from 0 in the array's order. Takes no memory.
    pub(crate) fn pair(&self, at: usize) -> Option<(&Key, &Value)>
        ensures { option_map (λ p. (p.0.now, data_of p.1.now)) result ≡ slice_get self.now.pairs at }
    {
        if at >= self.len() {
            return None;
        }
        let key = self.kept.at(self.start, self.gone, at);
        Some((key, nth_value(&self.values, self.start, self.gone, at)))
    }

    /// The value under a key. Takes no memory.
    pub(crate) fn get(&self, key: &Key) -> Option<&Value>
        ensures { option_map (λ v. data_of v.now) result ≡ value_at self.now key.now }
    {
        let at = self.kept.place(self.start, self.gone, key)?;
        Some(nth_value(&self.values, self.start, self.gone, at))
    }

    /// The largest integer key ever used, if any.
    pub(crate) fn largest(&self) -> Option<i64>
        ensures { result ≡ self.now.largest }
    {
        self.largest
    }

    /// What the entries weigh together. Takes no memory.
    pub(crate) fn weight(&self) -> u64
        ensures { result ≡ pairs_weight self.now.pairs }
    {
        self.weight
    }

    /// The value under a key, and what weighs beside it, the key counted; or the largest `u64` where that is more.
    pub(crate) fn entry(&self, key: &Key) -> (Option<&Value>, u64)
        ensures value { option_map (λ v. data_of v.now) result.0 ≡ value_at self.now key.now }
        ensures beside { result.1 ≡ min (pairs_weight (put self.now.pairs key.now null)) u64.MAX }
    {
        match self.kept.place(self.start, self.gone, key) {
            Some(at) => {
                let value = nth_value(&self.values, self.start, self.gone, at);
                let of_value = weight(value);
                (Some(value), self.weight - of_value)
            }
            None => {
                let of_key = key.weight();
                (None, self.weight.saturating_add(1).saturating_add(of_key))
            }
        }
    }

    /// What the entries would weigh with this value under this key, or the largest `u64` where it is more.
    pub(crate) fn weight_with(&self, key: &Key, value: &Value) -> u64
        ensures { result ≡ min (pairs_weight (put self.now.pairs key.now (data_of value.now))) u64.MAX }
    {
        let added = weight(value);
        let (_, others) = self.entry(key);
        others.saturating_add(added)
    }

    /// Puts a value under a key. A present key keeps its place, a new one goes last.
    ///
    /// `TooHeavy` comes exactly where the entries would weigh more than `WEIGHT_LIMIT`. After a
    /// refusal the array is as before.
    pub(crate) fn set(&mut self, key: Key, value: Value) -> Result<(), ValueError>
        ensures ok { OnOk result (self.new ≡ table_set self.old key (data_of value)) }
        ensures too_heavy { IsErrOf result ValueError.TooHeavy ↔ IsTooMuch self.old.pairs key (data_of value) }
        ensures only { IfErr result (λ e. (e ≡ ValueError.TooHeavy) ⊎ (e ≡ ValueError.Memory)) }
        ensures err { OnErr result (self.new ≡ self.old) }
    {
        let weight = self.weight_with(&key, &value);
        if weight > WEIGHT_LIMIT {
            return Err(ValueError::TooHeavy);
        }
        Ok(self.insert(key, value, weight)?)
    }

    /// Puts a value under a key, where the entries weigh so much with it and that is within the limit. After a refusal
    /// the array is as before.
    pub(crate) fn insert(&mut self, key: Key, value: Value, weight: u64) -> Result<(), Memory>
        requires weighs { weight ≡ pairs_weight (put self.old.pairs key (data_of value)) }
        requires light { weight ≤ weight_limit }
        ensures ok { OnOk result (self.new ≡ table_set self.old key (data_of value)) }
        ensures err { OnErr result (self.new ≡ self.old) }
    {
        let largest = raised(self.largest, &key);
        store(
            &mut self.kept,
            &mut self.values,
            &mut self.start,
            &mut self.gone,
            key,
            value,
        )?;
        self.largest = largest;
        self.weight = weight;
        Ok(())
    }

    /// Puts a value in the place of the one under a key, and gives that one out. Where the key is not
    /// there, nothing changes. The caller shows that the entries stay within the limit, and may use what
    /// holds of every array. Takes no memory.
    pub(crate) fn exchange(&mut self, key: &Key, value: Value) -> Option<Value>
        requires { IsTable self.old → pairs_weight (swapped self.old.pairs key.now (data_of value)) ≤ weight_limit }
        ensures value { option_map data_of result ≡ value_at self.old key.now }
        ensures exchanged { self.new ≡ table_exchange self.old key.now (data_of value) }
        ensures table { IsTable self.old }
    {
        let at = self.kept.place(self.start, self.gone, key)?;
        let added = weight(&value);
        let old = replace_nth(&mut self.values, self.start, self.gone, at, value);
        self.weight = self.weight - weight(&old) + added;
        Some(old)
    }

    /// Removes a key and its value, and says whether the key was there. The entries close up, and the
    /// largest integer key ever used stays. Takes no memory.
    pub fn remove(&mut self, key: &Key) -> bool
        ensures found { result ≡ is_some (value_at self.old key.now) }
        ensures removed { self.new ≡ table_remove self.old key.now }
    {
        let Some(at) = self.kept.place(self.start, self.gone, key) else {
            return false;
        };
        let weight = take_out(
            &mut self.kept,
            &mut self.values,
            &mut self.start,
            &mut self.gone,
            &mut self.closed,
            at,
        );
        self.weight -= weight;
        true
    }
}

/// Puts a value under a key of what an array keeps, which is copied first where it has other owners.
///
/// `TooHeavy` comes as in `Columns::set`, whatever memory there is. After a refusal the array is as before.
pub(crate) fn set_in(columns: &mut Rc<Columns>, key: Key, value: Value) -> Result<(), ValueError>
    ensures ok { OnOk result (columns.new.value ≡ table_set columns.old.value key (data_of value)) }
    ensures too_heavy { IsErrOf result ValueError.TooHeavy ↔ IsTooMuch columns.old.value.pairs key (data_of value) }
    ensures only { IfErr result (λ e. (e ≡ ValueError.TooHeavy) ⊎ (e ≡ ValueError.Memory)) }
    ensures err { OnErr result (columns.new.value ≡ columns.old.value) }
{
    let weight = columns.weight_with(&key, &value);
    if weight > WEIGHT_LIMIT {
        return Err(ValueError::TooHeavy);
    }
    Ok(Rc::make_mut(columns)?.insert(key, value, weight)?)
}

/// The columns of an array with one entry.
pub(crate) fn first_entry(alloc: Global, key: Key, value: Value) -> Result<Rc<Columns>, ValueError>
    ensures ok { IfOk result (λ b. b.value ≡ table_set empty key (data_of value)) }
    ensures too_heavy { IsErrOf result ValueError.TooHeavy ↔ IsTooMuch [] key (data_of value) }
    ensures only { IfErr result (λ e. (e ≡ ValueError.TooHeavy) ⊎ (e ≡ ValueError.Memory)) }
{
    let mut columns = Columns::new(alloc);
    columns.set(key, value)?;
    Ok(Rc::new(alloc, columns)?)
}

/// The largest integer key ever used, once this key is used too.
fn raised(largest: Option<i64>, key: &Key) -> Option<i64>
    ensures { result ≡ raised_by largest key.now }
{
    match (largest, key) {
        (_, Key::Text(_)) => largest,
        (None, Key::Int(n)) => Some(*n),
        (Some(m), Key::Int(n)) => Some(m.max(*n)),
    }
}
