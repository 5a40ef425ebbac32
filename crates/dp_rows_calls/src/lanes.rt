//! Calls of lanes: the whole frames that a stream has, in whatever pieces it comes, and where it is bad.

use dp_lanes::{Lane, LaneKind, bad_place, carry};
use dp_rows::{Memory, put_bytes};
use std::alloc::Global;

/// The frames that a lane hands out of a stream that comes in two pieces, and then what it holds or where it is bad.
fn carried(alloc: Global, kind: LaneKind, front: &[u8], back: &[u8]) -> Result<String, Memory> {
    let mut lane = Lane::new(alloc, kind);
    let mut frames = carry(alloc, &mut lane, front)?;
    let more = carry(alloc, &mut lane, back)?;
    frames.extend_from_slice(more.as_slice())?;
    let mut text = String::from_str(alloc, "frames ")?;
    put_bytes(&mut text, frames.as_slice())?;
    match bad_place(&lane) {
        Some(place) => write!(text, "\nbad at {place}\n")?,
        None => {
            text.push_str("\nholds ")?;
            put_bytes(&mut text, lane.bytes())?;
            text.push('\n')?;
        }
    }
    Ok(text)
}

/// What a lane does with a stream, and where it has to be cut for others to come of it.
pub(crate) fn told_lane(alloc: Global, kind: LaneKind, input: &[u8]) -> Result<String, Memory> {
    let mut text = carried(alloc, kind, input, &[])?;
    for at in 0..input.len() {
        if let Some((front, back)) = input.split_at_checked(at) {
            let other = carried(alloc, kind, front, back)?;
            if other.as_bytes() != text.as_bytes() {
                writeln!(text, "others where it is cut at {at}")?;
                return Ok(text);
            }
        }
    }
    Ok(text)
}
