//! Names as they stand in the text, each kept without a copy.

ghost use Rattle.std.specs.Prelude.{◌≡◌, ◌==◌, ◌++◌, ◌∷◌, [], true, OnOk};
ghost use Rattle.dp_markup.specs.inner.Names.{is_unseen};

use crate::Memory;
use indexmap::IndexMap;
use std::alloc::Global;
use std::hash::{Hash, Hasher};
use std::marker::Model;

/// A name as it stands in the text.
#[derive(Debug, Drop)]
pub(crate) struct Name<'a> {
    bytes: &'a [u8],
}

impl<'a> Model for Name<'a> {
    ghost use Rattle.std.specs.Prelude.{List, ℕ};

    ghost Value = { List ℕ };

    ghost view = { λ n. n.bytes.now };
}

impl<'a> PartialEq for Name<'a> {
    ghost use Rattle.std.specs.Cmp.Lexicographic.{pointwise};
    ghost use Rattle.std.specs.Cmp.Rules.{comparing};
    ghost use Rattle.std.proofs.Common.{rules};

    ghost eq = { pointwise ◌==◌ };

    ghost laws = { Prim.search (comparing, rules) };

    fn eq(&self, other: &Name<'a>) -> bool {
        self.bytes == other.bytes
    }
}

impl<'a> Eq for Name<'a> {
    ghost use Rattle.std.specs.Cmp.Rules.{comparing};
    ghost use Rattle.std.proofs.Common.{rules};

    ghost laws = { Prim.search (comparing, rules) };
}

impl<'a> Hash for Name<'a> {
    ghost use Rattle.std.specs.Hash as fed;
    ghost use Rattle.std.specs.Cmp.Rules.{hashing};
    ghost use Rattle.std.proofs.Common.{rules};

    ghost hash_input = { fed.slice fed.u8 };

    ghost respects_eq = { Prim.search (hashing, rules) };

    fn hash<H: Hasher>(&self, state: &mut H) {
        self.bytes.hash(state);
    }
}

impl<'a> Name<'a> {
    /// The name that these bytes are.
    pub(crate) fn of(bytes: &'a [u8]) -> Name<'a>
        ensures { result ≡ bytes.now }
    {
        Name { bytes }
    }
}

/// The names of the attributes that were found, no two of which are one.
#[derive(Debug, Drop)]
pub(crate) struct Names<'a> {
    names: IndexMap<Name<'a>, ()>,
}

impl<'a> Model for Names<'a> {
    ghost use Rattle.std.specs.Prelude.{List, ℕ};

    ghost Value = { List (List ℕ × Unit {0}) };

    ghost view = { λ n. n.names.entries };
}

impl<'a> Names<'a> {
    /// No names.
    pub(crate) fn new(alloc: Global) -> Names<'a>
        ensures { result ≡ [] }
    {
        Names {
            names: IndexMap::new(alloc),
        }
    }

    /// Whether no attribute has this name yet.
    #[tactic(auto, using(crate::proofs::Lookups::not_found))]
    pub(crate) fn lacks(&self, name: &Name<'a>) -> bool
        ensures { result ≡ is_unseen self.now name.now }
    {
        self.names.get(name).is_none()
    }

    /// Puts a name behind the others.
    #[tactic(auto, using(crate::proofs::Lookups::behind))]
    pub(crate) fn add(&mut self, name: Name<'a>) -> Result<(), Memory>
        requires { is_unseen self.old name ≡ true }
        ensures { OnOk result (self.new ≡ self.old ++ (name.entry, tt) ∷ []) }
    {
        self.names.insert(name, ())?;
        Ok(())
    }
}
