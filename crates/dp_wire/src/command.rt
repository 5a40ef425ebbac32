//! The frame of a command.

ghost use Rattle.std.specs.Prelude.{◌≡◌, IfOk};
ghost use Rattle.dp_wire.specs.Frames.{IsCommand, command_frame};

use dp_bytes::{Bytes, Memory};
use std::alloc::Global;

/// The frame of a command: the line and a NUL.
///
/// DBGp 1.0, "Message Packets". The line has no NUL and at most 1,048,576 bytes.
pub fn command_bytes(alloc: Global, line: &[u8]) -> Result<Bytes, Memory>
    requires { IsCommand line.now }
    ensures { IfOk result (λ frame. frame ≡ command_frame line.now) }
{
    let mut frame = Vec::new(alloc);
    frame.extend_from_slice(line)?;
    frame.push(0)?;
    Ok(Bytes::of(frame))
}
