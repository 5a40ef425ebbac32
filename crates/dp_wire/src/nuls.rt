//! Where a NUL stands among bytes.

ghost use Rattle.std.specs.Prelude.{◌<◌, length, IfSome};
ghost use Rattle.dp_wire.specs.Frames.{FirstNul};

/// The place of the first NUL. Takes no memory.
pub fn first_nul(bytes: &[u8]) -> Option<usize>
    ensures first { FirstNul bytes.now result }
    ensures within { IfSome result (λ at. at < length bytes.now) }
{
    for (at, byte) in bytes.iter().enumerate() {
        if *byte == 0 {
            return Some(at);
        }
    }
    None
}
