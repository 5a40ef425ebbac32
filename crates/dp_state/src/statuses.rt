//! The statuses of programs, by how they ended.
ghost use Rattle.std.specs.Prelude.{◌≡◌};
ghost use Rattle.dp_state.specs.Statuses as spec;

use crate::moments::Outcome;

/// The status of a program that a command killed before its end.
pub const KILLED_STATUS: u8 = 210;

/// The status of a program that could not go on, or reached its bound.
pub const UNFINISHED_STATUS: u8 = 255;

/// The status of a program that ended so; one that was killed did not.
pub fn status(outcome: Option<Outcome>) -> u8
    ensures { result ≡ spec.status outcome }
{
    match outcome {
        None => KILLED_STATUS,
        Some(Outcome::Done) => 0,
        Some(Outcome::Exit(number)) => number,
        Some(
            Outcome::Fatal {
                kind: _,
                file: _,
                line: _,
            },
        ) => UNFINISHED_STATUS,
        Some(Outcome::Bound) => UNFINISHED_STATUS,
    }
}
