//! The values of the language.

ghost use Rattle.std.specs.Prelude.{◌≡◌, ◌==◌, ◌<◌, ◌↔◌, ◌⊎◌, length, min, slice_get, is_some, option_map};
ghost use Rattle.std.specs.Prelude.{None, Some, Ok, false, OnOk, OnErr, IfOk, IfErr, IsErrOf};
ghost use Rattle.dp_value.specs.Data.{null, pairs_weight};
ghost use Rattle.dp_value.specs.Table.{empty, value_at, put, table_set, table_push, table_remove};
ghost use Rattle.dp_value.specs.Table.{weight_limit, largest_int, IsTable};

use crate::columns::{first_entry, set_in};
use crate::kept::Kept;
use crate::{Key, ValueError};
use dp_bytes::{Memory, Text};
use std::alloc::Global;
use std::marker::Model;
use std::rc::Rc;

/// The most that a text or an array may weigh.
pub const WEIGHT_LIMIT: u64 = 1_048_576;

/// A value of the language. Source: the PHP manual, "Types".
#[cycle(value)]
#[derive(Debug, Drop)]
pub enum Value {
    Null,
    Bool(bool),
    Int(i64),
    Text(Text),
    Array(PhpArray),
}

/// An ordered map from keys to values. Contracts see the pairs in order, whose keys are distinct,
/// and the largest integer key ever used, if any. It points to what it keeps, which may have several
/// owners, and takes no memory before the first entry.
#[cycle(value)]
#[derive(Debug, Drop)]
pub struct PhpArray {
    pub(crate) alloc: Global,
    pub(crate) columns: Option<Rc<Columns>>,
}

impl Model for PhpArray {
    ghost use Rattle.dp_value.specs.Data.{Table};
    ghost use Rattle.dp_value.specs.inner.Codes.{table_code};

    ghost Value = { Table };

    ghost coded = { table_code };

    ghost use Rattle.dp_value.specs.inner.Behind.{table_behind};

    ghost view = { table_behind };

    ghost use Rattle.dp_value.specs.inner.Sizes.{array_size};

    ghost size = { array_size };

    ghost use Rattle.std.proofs.Common.{arith};

    ghost size_decreases = { λ a h. Prim.grind arith };
}

/// What an array keeps behind its pointer: its keys and its values side by side, from which row on how many are removed
/// already, how many closed up since these moved, the largest integer key ever used, and the weight of what is left. A
/// value that is removed is null.
#[cycle(value)]
#[derive(Debug, Drop)]
pub struct Columns {
    pub(crate) kept: Kept,
    pub(crate) values: Vec<Value>,
    pub(crate) start: usize,
    pub(crate) gone: usize,
    pub(crate) closed: usize,
    pub(crate) largest: Option<i64>,
    pub(crate) weight: u64,
}

impl Model for Columns {
    ghost use Rattle.dp_value.specs.Data.{Table};
    ghost use Rattle.dp_value.specs.inner.Codes.{table_code};

    ghost Value = { Table };

    ghost coded = { table_code };

    ghost use Rattle.dp_value.specs.inner.Inside.{table_of, IsArray};

    ghost view = { table_of };

    ghost invariant = { IsArray };

    ghost use Rattle.dp_value.specs.inner.Sizes.{columns_size};

    ghost size = { columns_size };

    ghost use Rattle.dp_value.specs.inner.Falls.{most_le_depth};
    ghost use Rattle.dp_value.specs.inner.Kept.{kept_keys};

    ghost size_decreases = { λ a h. most_le_depth a.start a.gone (kept_keys a.kept) a.values.items h.rows.same_length
        h.rows.nulls };
}

impl PhpArray {
    ghost use Rattle.dp_value.specs.Value.{data_of};

    /// The array without entries, in which no integer key was ever used. Takes no memory.
    pub fn new(alloc: Global) -> PhpArray
        ensures { result ≡ empty }
    {
        PhpArray {
            alloc,
            columns: None,
        }
    }

    /// The number of entries. Takes no memory.
    pub fn len(&self) -> usize
        ensures len { result ≡ length self.now.pairs }
        ensures table { IsTable self.now }
    {
        match &self.columns {
            None => 0,
            Some(columns) => columns.len(),
        }
    }

    /// Whether there is no entry. Takes no memory.
    pub fn is_empty(&self) -> bool
        ensures { result ≡ (length self.now.pairs == 0) }
    {
        match &self.columns {
            None => true,
            Some(columns) => columns.is_empty(),
        }
    }

    /// The entry at a position, counted from 0 in the array's order. Takes no memory.
    pub fn pair(&self, at: usize) -> Option<(&Key, &Value)>
        ensures { option_map (λ p. (p.0.now, data_of p.1.now)) result ≡ slice_get self.now.pairs at }
    {
        match &self.columns {
            None => None,
            Some(columns) => columns.pair(at),
        }
    }

    /// The value under a key. Takes no memory.
    pub fn get(&self, key: &Key) -> Option<&Value>
        ensures { option_map (λ v. data_of v.now) result ≡ value_at self.now key.now }
    {
        match &self.columns {
            None => None,
            Some(columns) => columns.get(key),
        }
    }

    /// The value under a key, and what weighs beside it, the key counted; or the largest `u64` where that is more.
    pub(crate) fn entry(&self, key: &Key) -> (Option<&Value>, u64)
        ensures value { option_map (λ v. data_of v.now) result.0 ≡ value_at self.now key.now }
        ensures beside { result.1 ≡ min (pairs_weight (put self.now.pairs key.now null)) u64.MAX }
    {
        match &self.columns {
            None => (None, key.weight().saturating_add(1)),
            Some(columns) => columns.entry(key),
        }
    }

    /// The largest integer key ever used, if any.
    pub(crate) fn largest(&self) -> Option<i64>
        ensures { result ≡ self.now.largest }
    {
        match &self.columns {
            None => None,
            Some(columns) => columns.largest(),
        }
    }

    /// What the entries weigh together. Takes no memory.
    pub(crate) fn weight(&self) -> u64
        ensures { result ≡ pairs_weight self.now.pairs }
    {
        match &self.columns {
            None => 0,
            Some(columns) => columns.weight(),
        }
    }

    /// Puts a value under a key. A present key keeps its place, a new one goes last.
    ///
    /// `TooHeavy` comes exactly where the entries would weigh more than `WEIGHT_LIMIT`. After a
    /// refusal the array is as before.
    pub fn set(&mut self, key: Key, value: Value) -> Result<(), ValueError>
        ensures ok { OnOk result (self.new ≡ table_set self.old key (data_of value)) }
        ensures too_heavy { IsErrOf result ValueError.TooHeavy ↔
            (weight_limit < pairs_weight (put self.old.pairs key (data_of value))) }
        ensures only { IfErr result (λ e. (e ≡ ValueError.TooHeavy) ⊎ (e ≡ ValueError.Memory)) }
        ensures err { OnErr result (self.new ≡ self.old) }
    {
        if let Some(columns) = &mut self.columns {
            return set_in(columns, key, value);
        }
        self.columns = Some(first_entry(self.alloc, key, value)?);
        Ok(())
    }

    /// Puts a value under the next integer key: one more than the largest ever used, or 0.
    ///
    /// `NextIndex` comes first, exactly where the largest key ever used is 9,223,372,036,854,775,807;
    /// then `TooHeavy` as in `set`. After a refusal the array is as before.
    pub fn push(&mut self, value: Value) -> Result<(), ValueError>
        ensures ok { OnOk result (self.new ≡ table_push self.old (data_of value)) }
        ensures next_index { IsErrOf result ValueError.NextIndex ↔ (self.old.largest ≡ Some largest_int) }
        ensures too_heavy { IsErrOf result ValueError.TooHeavy ↔
            ((¬ (self.old.largest ≡ Some largest_int))
            × (weight_limit < pairs_weight (table_push self.old (data_of value)).pairs)) }
        ensures only { IfErr result (λ e. (e ≡ ValueError.NextIndex) ⊎ (e ≡ ValueError.TooHeavy)
            ⊎ (e ≡ ValueError.Memory)) }
        ensures err { OnErr result (self.new ≡ self.old) }
    {
        match self.largest() {
            None => self.set(Key::Int(0), value),
            Some(i64::MAX) => Err(ValueError::NextIndex),
            Some(largest) => self.set(Key::Int(largest + 1), value),
        }
    }

    /// Removes a key and its value, and says whether the key was there. The entries close up, and the
    /// largest integer key ever used stays. Takes no memory where the key is not there, nor where what
    /// the array keeps has no other owner: else it is copied first. After a refusal the array is as before.
    pub fn remove(&mut self, key: &Key) -> Result<bool, Memory>
        ensures found { IfOk result (λ found. found ≡ is_some (value_at self.old key.now)) }
        ensures removed { OnOk result (self.new ≡ table_remove self.old key.now) }
        ensures idle { value_at self.old key.now ≡ None → result ≡ Ok false }
        ensures err { OnErr result (self.new ≡ self.old) }
    {
        let Some(_) = self.get(key) else {
            return Ok(false);
        };
        Ok(self.own()?.remove(key))
    }
}
