//! What a request leads to.

ghost use Rattle.std.specs.Prelude.{◌≡◌};
ghost use Rattle.dp_dap.specs.declared.effects.Unanswered.TheVariants.{Memory};

use dp_bytes::{Bytes, Items};
use dp_dap_messages::{News, Refusal};
use dp_engine::SessionEnd;
use serde_json::Value;
use std::alloc::{AllocError, AllocFailed};

/// What a request that is not refused leads to.
#[derive(Drop)]
pub(crate) struct Effect {
    pub(crate) body: Option<Value>,
    /// What the program wrote.
    pub(crate) written: Bytes,
    pub(crate) news: News,
    /// How the gateway has ended, if it has.
    pub(crate) ended: Option<SessionEnd>,
}

/// The answer to a request: the texts of its messages, what the program wrote, which an event tells, and how the
/// gateway has ended, if it has.
#[derive(Debug, Drop)]
pub struct DapAnswer {
    pub messages: Items<Bytes>,
    pub ended: Option<SessionEnd>,
    pub program: Bytes,
}

/// Why a request is not done.
#[derive(Clone, Copy, Debug, PartialEq, Eq)]
pub(crate) enum Unanswered {
    Refused(Refusal),
    /// Out of memory.
    Memory,
}

impl From<AllocError> for Unanswered {
    ghost from_gives = { λ _ e. e ≡ Memory };

    fn from(_refused: AllocError) -> Unanswered {
        Unanswered::Memory
    }
}

impl<T: Drop> From<AllocFailed<T>> for Unanswered {
    ghost from_gives = { λ _ e. e ≡ Memory };

    fn from(_refused: AllocFailed<T>) -> Unanswered {
        Unanswered::Memory
    }
}
