//! Places in a journal by keys.

ghost use Rattle.std.specs.Prelude.{◌≡◌, [], if◌then◌else◌, bytes_eq, Some, None, OnOk, OnErr, List, ℕ};
ghost use Rattle.dp_registry.specs.inner.Tables.{place_of};

use dp_bytes::{Bytes, Memory};
use indexmap::IndexMap;
use std::alloc::Global;
use std::marker::Model;

/// At most one place under each key, found by the key's hash.
#[derive(Debug, Drop)]
pub(crate) struct Places {
    places: IndexMap<Bytes, usize>,
}

impl Model for Places {
    ghost use Rattle.std.specs.Prelude.{List, ℕ};

    ghost Value = { List (List ℕ × ℕ) };

    ghost view = { λ p. p.places.entries };
}

impl Places {
    /// No place kept yet. Takes no memory.
    pub(crate) fn new(alloc: Global) -> Places
        ensures { result ≡ [] }
    {
        Places {
            places: IndexMap::new(alloc),
        }
    }

    /// The place under a key.
    pub(crate) fn get(&self, key: &Bytes) -> Option<usize>
        ensures { result ≡ place_of self.now key.now }
    {
        self.places.get(key).copied()
    }

    /// Puts a place under a key, in the stead of the one that is there.
    pub(crate) fn set(&mut self, key: Bytes, at: usize) -> Result<(), Memory>
        ensures ok { OnOk result ((other : List ℕ)
            → place_of self.new other ≡ (if bytes_eq key other then Some at else place_of self.old other)) }
        ensures err { OnErr result (self.new ≡ self.old) }
    {
        self.places.insert(key, at)?;
        Ok(())
    }

    /// Takes the place under a key away.
    pub(crate) fn remove(&mut self, key: &Bytes)
        ensures { (other : List ℕ)
            → place_of self.new other ≡ (if bytes_eq key.now other then None else place_of self.old other) }
    {
        let _ = self.places.swap_remove(key);
    }
}
