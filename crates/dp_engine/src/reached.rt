//! Where machines have come to.
ghost use Rattle.std.specs.Prelude.{◌≡◌};
ghost use Rattle.dp_engine.specs.inner.Places.{place_of};

use crate::states::Position;
use dp_state::Outcome;

/// Where a machine has come to, which has the state there.
#[derive(Clone, Copy, Debug)]
pub enum Reached {
    /// The moment of this number, at this depth.
    Moment { number: u64, depth: u32 },
    /// The end of its program.
    End(Outcome),
}

impl Reached {
    /// The number and the depth of the moment that a session has then, and where it stands.
    pub(crate) fn place(self) -> (u64, u32, Position)
        ensures { result ≡ place_of self }
    {
        match self {
            Reached::Moment { number, depth } => (number, depth, Position::Break),
            Reached::End(outcome) => (0, 1, Position::Stopping(outcome)),
        }
    }
}

/// Where a machine has come to that passed one moment, and whether its program stops there. At the end it does not.
#[derive(Clone, Copy, Debug)]
pub struct Passed {
    pub reached: Reached,
    pub stops: bool,
}
