//! The lines of a record, as they are written.
ghost use Rattle.std.specs.Prelude.{◌≡◌, IfOk};
ghost use Rattle.dp_records.specs.Records as spec;

use crate::entry::Stream;
use dp_bytes::Memory;
use hex::encode;
use std::alloc::Global;

/// The word of a line.
fn word(stream: Stream) -> &'static [u8]
    ensures { result.now ≡ spec.word_of stream }
{
    match stream {
        Stream::In => b"in",
        Stream::Out => b"out",
        Stream::Own => b"own",
    }
}

/// The line that tells these bytes.
pub(crate) fn line_text(alloc: Global, stream: Stream, bytes: &[u8]) -> Result<Vec<u8>, Memory>
    ensures { IfOk result (λ line. line.items ≡ spec.line_of (record { stream = stream; bytes = bytes.now })) }
{
    let digits = encode(alloc, bytes)?;
    let mut line = Vec::from_slice(alloc, word(stream))?;
    line.extend_from_slice(b" ")?;
    line.extend_from_slice(digits.as_bytes())?;
    line.extend_from_slice(b"\n")?;
    Ok(line)
}

/// The last line.
pub(crate) fn end_text(alloc: Global, status: u8) -> Result<Vec<u8>, Memory>
    ensures { IfOk result (λ line. line.items ≡ spec.end_line status) }
{
    let digits = status.to_string(alloc)?;
    let mut line = Vec::from_slice(alloc, b"end ")?;
    line.extend_from_slice(digits.as_bytes())?;
    line.extend_from_slice(b"\n")?;
    Ok(line)
}
