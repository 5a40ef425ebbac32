//! The command of an IDE is read from its link.
ghost use Rattle.std.specs.Prelude.{◌≡◌, ◌+◌, ◌<◌, ◌≤◌, length, take, drop, IfOk, OnOk};
ghost use Rattle.std.specs.Io.KnownBytes.{ReadConsumes};
ghost use Rattle.dp_outside.specs.Causes.{HasCause};
ghost use Rattle.dp_outside.specs.Reports.{StaysSilent};
ghost use Rattle.dp_outside.specs.Streams.{TakeGives};
ghost use Rattle.dp_relay.specs.Asked.{read_limit};
ghost use Rattle.dp_relay.specs.inner.Reading.{Heard, source_end};

use crate::errors::RelayError;
use dp_outside::{Failed, Source};
use dp_wire::first_nul;

/// The most bytes that are read of a command and the NUL behind it.
pub(crate) const READ_LIMIT: usize = 4_097;

/// Reads one piece behind so many bytes of the buffer, and answers its length: 0 at the end of the input.
fn read_behind<S: Source>(source: &mut S, buffer: &mut [u8], count: usize) -> Result<usize, Failed>
    requires room { count < length buffer.old }
    ensures room { length buffer.new ≡ length buffer.old }
    ensures front { take count buffer.new ≡ take count buffer.old }
    ensures within { IfOk result (λ more. count + more ≤ length buffer.old) }
    ensures left { ReadConsumes (S.left source.old) (S.left source.new) result (drop count buffer.new) }
    ensures given { TakeGives (S.given source.old) (S.given source.new) result (drop count buffer.new) }
    ensures untold_left { StaysSilent (S.left source.old) (S.left source.new) }
    ensures untold_given { StaysSilent (S.given source.old) (S.given source.new) }
    ensures held { OnOk result (S.faults source.new ≡ S.faults source.old) }
    ensures cause { HasCause (S.faults source.old) (S.faults source.new) result }
{
    source.take(&mut buffer[count..])
}

/// Reads a command to the front of the buffer and answers its length. A byte is looked at once.
pub(crate) fn read_command<S: Source>(
    source: &mut S,
    buffer: &mut [u8],
) -> Result<usize, RelayError>
    requires room { length buffer.old ≡ read_limit }
    ensures room { length buffer.new ≡ read_limit }
    ensures heard { Heard (source_end S.Source source.old) (source_end S.Source source.new) buffer.new result }
{
    let mut count = 0;
    'pieces: while count < READ_LIMIT {
        let Ok(more) = read_behind(source, buffer, count) else {
            return Err(RelayError::ReadFault);
        };
        if more == 0 {
            return Ok(count);
        }
        if let Some(place) = first_nul(&buffer[count..count + more]) {
            return Ok(count + place);
        }
        count += more;
    }
    Err(RelayError::TooLong)
}
