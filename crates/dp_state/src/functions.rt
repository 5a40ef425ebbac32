//! The functions of a program by their names.

ghost use Rattle.std.specs.Prelude.{◌≡◌};
ghost use Rattle.dp_state.specs.Functions.{declared_function};

use crate::state::State;
use dp_tree::{Bundle, FunctionRef};

impl State {
    /// The declared function of this name, in any case of letters. The functions of a file that has few of them are
    /// walked; in any other file it is found by the hash of the name in lower case, and where there is no memory for
    /// that, these are walked too.
    pub fn function(&self, bundle: &Bundle, name: &[u8]) -> Option<FunctionRef>
        ensures { result ≡ declared_function bundle.now name.now self.now.declared }
    {
        self.declared.named(self.allocator(), bundle, name)
    }
}
