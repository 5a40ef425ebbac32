//! Why no piece of a text was found, before its place in the whole is known.

ghost use Rattle.std.specs.Prelude.{◌≡◌};

use std::alloc::AllocError;

/// Why a text has no tokens.
#[derive(Clone, Copy, Debug, PartialEq, Eq)]
pub enum Fault {
    BadByte,
    OpenString,
    OpenComment,
    WideNumber,
}

/// Why no piece was found: what is wrong and at which byte from here, or out of memory.
#[derive(Debug, Drop)]
pub(crate) enum Wrong {
    Fault(Fault, usize),
    Memory,
}

impl From<AllocError> for Wrong {
    ghost use Rattle.dp_lexer.specs.declared.fault.Wrong.TheVariants.{Memory};

    ghost from_gives = { λ _ e. e ≡ Memory };

    fn from(_refused: AllocError) -> Wrong {
        Wrong::Memory
    }
}
