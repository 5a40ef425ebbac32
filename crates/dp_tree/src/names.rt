//! Names in any case of letters.

ghost use Rattle.std.specs.Prelude.{◌≡◌, IfOk};
ghost use Rattle.std.specs.Str.{str_to_ascii_lowercase};

use dp_bytes::{Bytes, Memory};
use std::alloc::Global;
use std::marker::Model;

/// A name that is looked up in any case of letters. Contracts see the name as written.
///
/// It is kept in lower case too, where there was memory for that.
#[derive(Drop)]
pub struct AnyCase<'a> {
    pub(crate) written: &'a [u8],
    pub(crate) lower: Option<Bytes>,
}

impl<'a> Model for AnyCase<'a> {
    ghost use Rattle.std.specs.Prelude.{List, ℕ, ◌≡◌, IfSome};
    ghost use Rattle.std.specs.Str.{str_to_ascii_lowercase};

    ghost Value = { List ℕ };

    ghost view = { λ n. n.written.now };

    ghost invariant = { λ n. IfSome n.lower (λ lower. lower ≡ str_to_ascii_lowercase n.written.now) };
}

impl<'a> AnyCase<'a> {
    /// This name. What is asked of it is answered without memory too, but then by a walk.
    pub fn new(alloc: Global, name: &'a [u8]) -> AnyCase<'a>
        ensures { result ≡ name.now }
    {
        AnyCase {
            written: name,
            lower: lowered(alloc, name).ok(),
        }
    }
}

/// A name in lower case.
pub(crate) fn lowered(alloc: Global, name: &[u8]) -> Result<Bytes, Memory>
    ensures { IfOk result (λ lower. lower ≡ str_to_ascii_lowercase name.now) }
{
    Ok(Bytes::of(name.to_ascii_lowercase(alloc)?))
}
