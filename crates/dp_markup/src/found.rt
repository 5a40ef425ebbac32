//! The attributes of a start tag as they are found.

ghost use Rattle.std.specs.Prelude.{◌≡◌, ◌++◌, ◌∷◌, [], true, IfOk, OnOk};
ghost use Rattle.dp_markup.specs.Grammar.{is_new};

use crate::Memory;
use dp_bytes::{Bytes, Items};
use indexmap::IndexMap;
use std::alloc::Global;
use std::marker::Model;

/// Attributes in the order in which they came, no two of which have one name. A name is looked up
/// by its hash.
#[derive(Debug, Drop)]
pub(crate) struct Found {
    attributes: IndexMap<Bytes, Bytes>,
}

impl Model for Found {
    ghost use Rattle.std.specs.Prelude.{List, ℕ};

    ghost Value = { List (List ℕ × List ℕ) };

    ghost view = { λ f. f.attributes.entries };
}

impl Found {
    /// No attributes.
    pub(crate) fn new(alloc: Global) -> Found
        ensures { result ≡ [] }
    {
        Found {
            attributes: IndexMap::new(alloc),
        }
    }

    /// Whether no attribute has this name yet.
    #[tactic(auto, using(crate::proofs::Lookups::not_found))]
    pub(crate) fn lacks(&self, name: &Bytes) -> bool
        ensures { result ≡ is_new self.now name.now }
    {
        self.attributes.get(name).is_none()
    }

    /// Puts an attribute behind the others.
    #[tactic(auto, using(crate::proofs::Lookups::behind))]
    pub(crate) fn add(&mut self, name: Bytes, value: Bytes) -> Result<(), Memory>
        requires { is_new self.old name ≡ true }
        ensures { OnOk result (self.new ≡ self.old ++ (name, value) ∷ []) }
    {
        self.attributes.insert(name, value)?;
        Ok(())
    }

    /// The attributes.
    pub(crate) fn into_items(self, alloc: Global) -> Result<Items<(Bytes, Bytes)>, Memory>
        ensures { IfOk result (λ items. items ≡ self) }
    {
        let attributes: Vec<(Bytes, Bytes)> = self.attributes.into_iter().collect(alloc)?;
        Ok(Items::of(attributes))
    }
}
