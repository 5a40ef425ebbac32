//! Names that differ, looked up by their hash.

ghost use Rattle.std.specs.Prelude.{◌≡◌, ◌++◌, ◌∷◌, [], not, if◌then◌else◌, IfOk};
ghost use Rattle.std.specs.List.{list_any};
ghost use Rattle.std.specs.Str.{bytes_eq};

use dp_bytes::{Bytes, Items, Memory};
use indexmap::IndexSet;
use std::alloc::Global;
use std::marker::Model;

/// Names that differ, in the order in which they came. A name is looked up by its hash.
#[derive(Drop)]
pub(crate) struct Names {
    names: IndexSet<Bytes>,
}

impl Model for Names {
    ghost use Rattle.std.specs.Prelude.{List, ℕ};

    ghost Value = { List (List ℕ) };

    ghost view = { λ n. n.names.keys };
}

impl Names {
    /// No names.
    pub(crate) fn new(alloc: Global) -> Names
        ensures { result ≡ [] }
    {
        Names {
            names: IndexSet::new(alloc),
        }
    }

    /// Puts a name behind the others, where it is none of them. Says whether it did.
    #[tactic(auto, using(crate::proofs::NameLemmas::named, crate::proofs::NameLemmas::added_names))]
    pub(crate) fn add(&mut self, name: Bytes) -> Result<bool, Memory>
        ensures new { IfOk result (λ added. added ≡ not (list_any (λ other. bytes_eq other name) self.old)) }
        ensures names { IfOk result (λ added. self.new ≡ (if added then self.old ++ name ∷ [] else self.old)) }
    {
        Ok(self.names.insert(name)?)
    }

    /// The names.
    pub(crate) fn into_items(self, alloc: Global) -> Result<Items<Bytes>, Memory>
        ensures { IfOk result (λ items. items ≡ self) }
    {
        let names: Vec<Bytes> = self.names.into_iter().collect(alloc)?;
        Ok(Items::of(names))
    }
}
