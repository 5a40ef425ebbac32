//! One value on the heap.

ghost use Rattle.std.specs.Prelude.{◌≡◌, IfOk};

use dp_bytes::Memory;
use std::alloc::Global;
use std::marker::Model;

/// One value on the heap. Contracts see the value.
#[derive(Debug, Drop)]
pub struct Boxed<T> {
    held: Box<T>,
}

impl<T> Model for Boxed<T> {
    ghost Value = { T };

    ghost coded = { T.code };

    ghost view = { λ b. b.held.value };
}

impl<T> Boxed<T> {
    /// The value, lent. Takes no memory.
    pub fn as_ref(&self) -> &T
        ensures { result.now ≡ self.now }
    {
        &self.held
    }

    /// The value, off the heap. Takes no memory.
    pub fn into_inner(self) -> T
        ensures { result ≡ self }
    {
        let Boxed { held } = self;
        Box::into_inner(held)
    }
}

impl<T: Drop> Boxed<T> {
    /// The value, on the heap.
    pub fn new(alloc: Global, value: T) -> Result<Self, Memory>
        ensures { IfOk result (λ b. b ≡ value) }
    {
        Ok(Boxed {
            held: Box::new(alloc, value)?,
        })
    }
}
