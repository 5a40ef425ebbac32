//! The frame of a body.

ghost use Rattle.std.specs.Prelude.{◌≡◌, IfOk};
ghost use Rattle.dp_bodies.specs.Frames.{body_frame};

use crate::heads::{HEAD_END, LENGTH_NAME};
use dp_bytes::{Bytes, Memory};
use std::alloc::Global;

/// The frame of a body: its head with its length, whatever that is, and the body.
pub fn body_bytes(alloc: Global, text: &[u8]) -> Result<Bytes, Memory>
    ensures { IfOk result (λ frame. frame ≡ body_frame text.now) }
{
    let length = text.len().to_string(alloc)?;
    let mut frame = Vec::new(alloc);
    frame.extend_from_slice(LENGTH_NAME)?;
    frame.extend_from_slice(length.as_bytes())?;
    frame.extend_from_slice(HEAD_END)?;
    frame.extend_from_slice(text)?;
    Ok(Bytes::of(frame))
}
