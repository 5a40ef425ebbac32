//! How many frames bytes are.
ghost use Rattle.std.specs.Prelude.{◌≡◌, length, IfOk};
ghost use Rattle.dp_lanes.specs.Lanes.{texts_in};

use crate::lane::{Lane, LaneKind};
use dp_bytes::Memory;
use std::alloc::Global;

/// How many whole frames of this kind the bytes begin with. Takes memory for a copy of them.
pub fn count_frames(alloc: Global, kind: LaneKind, bytes: &[u8]) -> Result<u64, Memory>
    ensures { IfOk result (λ count. count ≡ length (texts_in kind bytes.now)) }
{
    let mut lane = Lane::new(alloc, kind);
    lane.append(bytes)?;
    let mut count = 0u64;
    'frames: loop {
        match lane.next() {
            Ok(Some(_)) => {
                lane.drop_front();
                count += 1;
            }
            Ok(None) => return Ok(count),
            Err(_) => return Ok(count),
        }
    }
}
