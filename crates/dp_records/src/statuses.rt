//! The statuses with which sessions end.
ghost use Rattle.std.specs.Prelude.{◌≡◌, if◌then◌else◌};
ghost use Rattle.dp_state.specs.Statuses.{status};
ghost use Rattle.dp_records.specs.Statuses as spec;

use dp_state::{KILLED_STATUS, Outcome, UNFINISHED_STATUS, status};

/// The greatest status of a PHP program that came to its end, or exited.
const EXIT_LIMIT: u8 = 199;

/// Bytes stood in no command's place.
const BAD_STATUS: u8 = 207;

/// The status of a session whose program ended so, or where bytes stand in no command's place.
pub(crate) fn status_of(bad: bool, outcome: Option<Outcome>) -> u8
    ensures { result ≡ if bad then spec.bad_status else status outcome }
{
    if bad { BAD_STATUS } else { status(outcome) }
}

/// Whether a session may end with it.
pub(crate) fn is_status(number: u8) -> bool
    ensures { result ≡ spec.is_status number }
{
    number <= EXIT_LIMIT
        || number == BAD_STATUS
        || number == KILLED_STATUS
        || number == UNFINISHED_STATUS
}
