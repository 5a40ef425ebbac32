//! Why a run breaks off.

use dp_bytes::Memory;
use dp_state::{Moment, Outcome};
use dp_tree::Boxed;
use std::alloc::AllocFailed;

/// Why a run breaks off.
#[derive(Drop)]
pub enum Halt {
    /// The program is over.
    Finished(Outcome),
    /// The moment came at which it was to stop. It is on the heap, since most answers have none.
    Stopped(Boxed<Moment>),
    /// Out of memory.
    Memory,
}

impl From<Memory> for Halt {
    ghost use Rattle.std.specs.Prelude.{◌≡◌};
    ghost use Rattle.dp_actions.specs.declared.halt.Halt.TheVariants as halt;

    ghost from_gives = { λ _ h. h ≡ halt.Memory };

    fn from(_refused: Memory) -> Halt {
        Halt::Memory
    }
}

impl<T: Drop> From<AllocFailed<T>> for Halt {
    ghost use Rattle.std.specs.Prelude.{◌≡◌};
    ghost use Rattle.dp_actions.specs.declared.halt.Halt.TheVariants as halt;

    ghost from_gives = { λ _ h. h ≡ halt.Memory };

    fn from(_refused: AllocFailed<T>) -> Halt {
        Halt::Memory
    }
}
