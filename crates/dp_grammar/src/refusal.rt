//! Why symbols were not read.

ghost use Rattle.std.specs.Prelude.{◌≡◌};

use std::alloc::{AllocError, AllocFailed};

/// Why symbols were not read. The number is how many symbols there are from the one that is named
/// to the end.
#[derive(Debug, Drop)]
pub enum Refusal {
    Unexpected(usize),
    TooDeep(usize),
    Memory,
}

impl From<AllocError> for Refusal {
    ghost use Rattle.dp_grammar.specs.declared.refusal.Refusal.TheVariants as refusal;

    ghost from_gives = { λ _ e. e ≡ refusal.Memory };

    fn from(_: AllocError) -> Refusal {
        Refusal::Memory
    }
}

impl<T: Drop> From<AllocFailed<T>> for Refusal {
    ghost use Rattle.dp_grammar.specs.declared.refusal.Refusal.TheVariants as refusal;

    ghost from_gives = { λ _ e. e ≡ refusal.Memory };

    fn from(_: AllocFailed<T>) -> Refusal {
        Refusal::Memory
    }
}
