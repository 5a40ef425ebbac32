//! What names call.

ghost use Rattle.std.specs.Prelude.{option_map, ◌≡◌};
ghost use Rattle.dp_actions.specs.Calls.{callee as callee_named, callee_of};

use dp_bytes::Bytes;
use dp_state::State;
use dp_tree::{Bundle, Function, Native, builtin_of};

/// What a name calls: a built-in function, or one of the file of this number.
#[derive(Clone, Copy)]
pub enum Callee<'a> {
    BuiltIn(Native),
    Declared { file: u32, function: &'a Function },
}

/// What a name calls, in any case of letters.
pub fn look_up<'a>(bundle: &'a Bundle, name: &Bytes, state: &State) -> Option<Callee<'a>>
    ensures { option_map callee_of result ≡ callee_named bundle.now name.now state.now }
{
    if let Some(function) = builtin_of(name.as_slice()) {
        return Some(Callee::BuiltIn(function));
    }
    let reference = state.function(bundle, name.as_slice())?;
    let function = bundle.function(reference)?;
    Some(Callee::Declared {
        file: reference.file,
        function,
    })
}
