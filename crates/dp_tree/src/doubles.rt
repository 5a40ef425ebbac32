//! Functions that have a name which is taken.

ghost use Rattle.std.specs.Prelude.{◌≡◌, ◌||◌, ◌++◌, ◌∷◌, [], false, is_some, IfOk, OnOk, MatchOption};
ghost use Rattle.std.specs.List.{list_any};
ghost use Rattle.std.specs.Str.{bytes_eq};
ghost use Rattle.dp_tree.specs.Builtins as builtins;
ghost use Rattle.dp_tree.specs.Doubles.{HasNoDouble, IsDouble};

use crate::builtins::builtin_of;
use crate::names::lowered;
use crate::tree::Function;
use dp_bytes::{Bytes, Memory};
use indexmap::IndexSet;
use std::alloc::Global;

/// Whether a name is that of a built-in function, or is among these names, which are in lower case.
fn is_taken(names: &IndexSet<Bytes>, name: &[u8], lower: &Bytes) -> bool
    ensures { result ≡ (is_some (builtins.builtin_of name.now) || list_any (bytes_eq lower.now) names.now.keys) }
{
    builtin_of(name).is_some() || names.contains(lower)
}

/// Puts a name behind the others, which do not have it.
fn keep(names: &mut IndexSet<Bytes>, lower: Bytes) -> Result<(), Memory>
    requires { list_any (bytes_eq lower) names.old.keys ≡ false }
    ensures { OnOk result (names.new.keys ≡ names.old.keys ++ lower ∷ []) }
{
    names.insert(lower)?;
    Ok(())
}

/// The name, as written, of the first function whose name is that of a built-in or of a function before it, in any case
/// of letters. Takes time linear in the names.
pub fn first_double(alloc: Global, functions: &[Function]) -> Result<Option<Bytes>, Memory>
    ensures { IfOk result (λ found. MatchOption found (HasNoDouble functions.now) (IsDouble functions.now)) }
{
    let mut names = IndexSet::new(alloc);
    for function in functions {
        let name = function.name.as_slice();
        let lower = lowered(alloc, name)?;
        if is_taken(&names, name, &lower) {
            return Ok(Some(Bytes::from_slice(alloc, name)?));
        }
        keep(&mut names, lower)?;
    }
    Ok(None)
}
