//! A list of names that contracts alone see.
ghost use Rattle.std.specs.Prelude.{◌≡◌, ℕ, List, [], ◌∷◌, ◌++◌};
ghost use Rattle.std.specs.Borrow.{ftrue};

use std::marker::{Model, PhantomData};

/// The names that a shelf was asked for. It takes no memory, and its calls do nothing.
#[derive(Drop)]
pub(crate) struct Names {
    marker: PhantomData<u8>,
    pub(crate) ghost names: { List (List ℕ) },
}

impl Model for Names {
    ghost also_owns = { λ _. ftrue };
}

impl Names {
    /// No name yet.
    pub(crate) fn new() -> Self
        ensures { result.names ≡ [] }
    {
        Names {
            marker: PhantomData,
        }
    }

    /// One name more.
    pub(crate) fn note(&mut self, _name: &[u8])
        ensures { self.new.names ≡ self.old.names ++ _name.now ∷ [] }
    {}
}
