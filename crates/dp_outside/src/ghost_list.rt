//! Lists that contracts alone see.
ghost use Rattle.std.specs.Prelude.{◌≡◌, List, [], ◌∷◌, ◌++◌};
ghost use Rattle.std.specs.Borrow.{ftrue};

use std::marker::{Model, PhantomData};

/// What came so far, three values at a time. It takes no memory, and its calls do nothing: an object in memory tells by
/// it what it was asked for.
#[derive(Drop)]
pub struct GhostList<A, B, C> {
    of: PhantomData<(A, B, C)>,
    pub ghost items: { List (A × (B × C)) },
}

impl<A, B, C> Model for GhostList<A, B, C> {
    ghost also_owns = { λ _. ftrue };
}

/// It owns nothing.
unsafe impl<A: Send, B: Send, C: Send> Send for GhostList<A, B, C> {}

impl<A, B, C> GhostList<A, B, C> {
    /// Nothing came yet.
    pub fn new() -> GhostList<A, B, C>
        ensures { result.items ≡ [] }
    {
        GhostList { of: PhantomData }
    }

    /// What came so far, and then these.
    pub fn with(&self, first: &A, second: &B, third: &C) -> GhostList<A, B, C>
        ensures { result.items ≡ self.now.items ++ (first.now, (second.now, third.now)) ∷ [] }
    {
        GhostList { of: PhantomData }
    }
}
