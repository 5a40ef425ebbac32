//! Lists that grow at their end.

ghost use Rattle.std.specs.Prelude.{◌≡◌, ◌++◌, ◌∷◌, [], ◌==◌, length, OnOk};

use crate::Memory;
use dp_bytes::{Bytes, Items};
use std::alloc::Global;
use std::marker::Model;

/// A list that grows at its end.
#[derive(Debug, Drop)]
pub(crate) struct Growing<T> {
    values: Vec<T>,
}

impl<T> Model for Growing<T> {
    ghost use Rattle.std.specs.Prelude.{List};
    ghost use Rattle.std.specs.Coded.{coded_list};

    ghost Value = { List T };

    ghost coded = { coded_list T.code };

    ghost view = { λ l. l.values.items };
}

impl<T: Drop> Growing<T> {
    /// An empty list.
    pub(crate) fn new(alloc: Global) -> Self
        ensures { result ≡ [] }
    {
        Growing {
            values: Vec::new(alloc),
        }
    }

    /// Puts a value at the end.
    pub(crate) fn push(&mut self, value: T) -> Result<(), Memory>
        ensures { OnOk result (self.new ≡ self.old ++ value ∷ []) }
    {
        self.values.push(value)?;
        Ok(())
    }

    /// Whether the list is empty.
    pub(crate) fn is_empty(&self) -> bool
        ensures { result ≡ (length self.now == 0) }
    {
        self.values.is_empty()
    }

    /// The values, as they stand in the list.
    pub(crate) fn as_slice(&self) -> &[T]
        ensures { result.now ≡ self.now }
    {
        self.values.as_slice()
    }

    /// The values, as a list that grows no more.
    pub(crate) fn into_items(self) -> Items<T>
        ensures { result ≡ self }
    {
        Items::of(self.values)
    }
}

impl Growing<u8> {
    /// Puts these bytes at the end.
    pub(crate) fn extend(&mut self, bytes: &[u8]) -> Result<(), Memory>
        ensures { OnOk result (self.new ≡ self.old ++ bytes.now) }
    {
        self.values.extend_from_slice(bytes)
    }

    /// The bytes, as a list that grows no more.
    pub(crate) fn into_bytes(self) -> Bytes
        ensures { result ≡ self }
    {
        Bytes::of(self.values)
    }
}
