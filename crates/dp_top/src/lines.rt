//! What scripts and lists of events have alike.
ghost use Rattle.std.specs.Prelude.{◌≡◌, false};
ghost use Rattle.dp_top.specs.inner.BadLines.{is_bad_line};

use crate::failures::{Failure, Refused};
use dp_outside::ShelfError;

/// The most bytes of a script, and of a list of events.
pub(crate) const LINES_LIMIT: usize = 1_048_576;

/// The failure to report where a script or a list of events was not fetched.
pub(crate) fn unfetched<'a>(name: &'a str, why: ShelfError) -> Refused<'a>
    ensures failed { why ≡ ShelfError.Failed → (result.failure ≡ Failure.ShelfFailed) × (result.name.now ≡ name.now) }
    ensures missing { why ≡ ShelfError.Missing → (result.failure ≡ Failure.NoFile) × (result.name.now ≡ name.now) }
    ensures memory { why ≡ ShelfError.Memory → result.failure ≡ Failure.Memory }
    ensures unread { is_bad_line result.failure ≡ false }
{
    match why {
        ShelfError::Failed => Refused {
            failure: Failure::ShelfFailed,
            name: name.as_bytes(),
        },
        ShelfError::Missing => Refused {
            failure: Failure::NoFile,
            name: name.as_bytes(),
        },
        ShelfError::Memory => Refused::unnamed(Failure::Memory),
    }
}
