//! The frame of a packet.

ghost use Rattle.std.specs.Prelude.{◌≡◌, length, IfOk};
ghost use Rattle.dp_wire.specs.Frames.{IsPacketText, packet_frame};

use dp_bytes::{Bytes, Memory};
use std::alloc::Global;

/// The frame of a packet's text: its length in decimal, a NUL, the text, a NUL.
///
/// DBGp 1.0, "Message Packets". The text has 1 to 16,777,216 bytes.
pub fn packet_bytes(alloc: Global, text: &[u8]) -> Result<Bytes, Memory>
    requires { IsPacketText text.now }
    ensures { IfOk result (λ frame. frame ≡ packet_frame text.now) }
{
    let length = text.len().to_string(alloc)?;
    let mut frame = Vec::new(alloc);
    frame.extend_from_slice(length.as_bytes())?;
    frame.push(0)?;
    frame.extend_from_slice(text)?;
    frame.push(0)?;
    Ok(Bytes::of(frame))
}
