//! What a lane hands out of the bytes that come in it, and where it is bad.
ghost use Rattle.std.specs.Prelude.{ℕ, List, IfOk, OnOk};
ghost use Rattle.dp_lanes.specs.declared.lane.LaneKind.{LaneKind as Kind};
ghost use Rattle.dp_lanes.specs.Places.{Carries, Follows, IsBadPlace};
ghost use Rattle.dp_lanes.specs.inner.Deliveries.{HandsAll};

use crate::lane::Lane;
use dp_bytes::Memory;
use std::alloc::Global;

/// Hands out each whole frame that is held: puts it behind `out`.
fn hand_out(lane: &mut Lane, out: &mut Vec<u8>) -> Result<(), Memory>
    ensures { OnOk result (HandsAll lane.old lane.new out.old.items out.new.items) }
{
    'frames: loop {
        let Ok(Some(frame)) = lane.front() else {
            return Ok(());
        };
        out.extend_from_slice(frame)?;
        lane.drop_front();
    }
}

/// Takes bytes of the stream in, and answers the frames that they complete.
pub fn carry(alloc: Global, lane: &mut Lane, bytes: &[u8]) -> Result<Vec<u8>, Memory>
    ensures { (kind : Kind) (stream : List ℕ) → Follows kind lane.old stream
        → IfOk result (λ out. Carries kind lane.new stream bytes.now out.items) }
{
    let mut out = Vec::new(alloc);
    lane.append(bytes)?;
    hand_out(lane, &mut out)?;
    Ok(out)
}

/// Where the stream of a lane is bad, the place of that. Takes no memory.
pub fn bad_place(lane: &Lane) -> Option<u64>
    ensures { (kind : Kind) (stream : List ℕ) → Follows kind lane.now stream → IsBadPlace kind stream result }
{
    match lane.next() {
        Ok(None) => None,
        Ok(Some(_)) => None,
        Err(why) => Some(why.place(lane.dropped())),
    }
}
