//! Reads and writes as often as it takes.
ghost use Rattle.std.specs.Prelude.{◌≡◌, ◌+◌, ◌<◌, ◌≤◌, length, IfOk, IfErr};
ghost use Rattle.std.specs.Io.KnownBytes.{ReadConsumes, WriteAppends};
ghost use Rattle.dp_outside.specs.Streams.{PutAppends};
ghost use Rattle.dp_adapters.specs.inner.Transfers.{Fronts};

use dp_outside::{Failed, ShelfError};
use std::alloc::Global;
use std::io::{ErrorKind, Read, Write};

/// The most bytes of one read.
const PIECE: usize = 4096;

/// One read, made again where a signal interrupts it.
pub(crate) fn read_some<R: Read>(reader: &mut R, buf: &mut [u8]) -> Result<usize, Failed>
    ensures bound { IfOk result (λ count. count ≤ length buf.new) }
    ensures bytes { ReadConsumes (R.remaining reader.old) (R.remaining reader.new) result buf.new }
{
    'tries: for _ in 0..u64::MAX {
        match reader.read(buf) {
            Ok(count) => return Ok(count),
            Err(e) => {
                if e.kind() != ErrorKind::Interrupted {
                    return Err(Failed);
                }
            }
        }
    }
    Err(Failed)
}

/// One write, made again where a signal interrupts it. It takes at least one byte.
pub(crate) fn write_some<W: Write>(writer: &mut W, bytes: &[u8]) -> Result<usize, Failed>
    ensures some { IfOk result (λ count. (0 < count) × (count ≤ length bytes.now)) }
    ensures bytes { WriteAppends (W.contents writer.old) (W.contents writer.new) result bytes.now }
{
    'tries: for _ in 0..u64::MAX {
        match writer.write(bytes) {
            Ok(0) => return Err(Failed),
            Ok(count) => return Ok(count),
            Err(e) => {
                if e.kind() != ErrorKind::Interrupted {
                    return Err(Failed);
                }
            }
        }
    }
    Err(Failed)
}

/// Writes all of the bytes, or fails after a front of them.
fn write_pieces<W: Write>(writer: &mut W, bytes: &[u8]) -> Result<(), Failed>
    ensures { PutAppends (W.contents writer.old) (W.contents writer.new) result bytes.now }
{
    let mut rest = bytes;
    'pieces: while !rest.is_empty() {
        let count = write_some(writer, rest)?;
        rest = &rest[count..];
    }
    Ok(())
}

/// Writes all of the bytes, or fails after a front of them, and hands them on to where the writer writes.
#[tactic(auto, using(crate::proofs::Fronts::all_and_kept))]
pub(crate) fn write_whole<W: Write>(writer: &mut W, bytes: &[u8]) -> Result<(), Failed>
    ensures { PutAppends (W.contents writer.old) (W.contents writer.new) result bytes.now }
{
    write_pieces(writer, bytes)?;
    match writer.flush() {
        Ok(()) => Ok(()),
        Err(_) => Err(Failed),
    }
}

/// The first `limit + 1` bytes that the reader gives, or all of them where there are fewer.
pub(crate) fn read_front<R: Read>(
    alloc: Global,
    reader: &mut R,
    limit: usize,
) -> Result<Vec<u8>, ShelfError>
    ensures length { IfOk result (λ bytes. length bytes.items ≤ limit + 1) }
    ensures bytes { IfOk result (λ bytes. Fronts (R.remaining reader.old) limit bytes.items) }
    ensures refused { IfErr result (λ e. e ≡ ShelfError.Missing → ⊥) }
{
    let mut bytes = Vec::new(alloc);
    let mut buf = [0; PIECE];
    'pieces: while bytes.len() <= limit {
        let room = (limit - bytes.len()).min(PIECE - 1) + 1;
        let Ok(count) = read_some(reader, &mut buf[..room]) else {
            return Err(ShelfError::Failed);
        };
        if count == 0 {
            return Ok(bytes);
        }
        bytes.extend_from_slice(&buf[..count])?;
    }
    Ok(bytes)
}
