//! A lane's run.
ghost use Rattle.std.specs.Prelude.{◌≡◌, ◌<◌, ◌≤◌, true, ℕ, List, OnOk, length};
ghost use Rattle.dp_lanes.specs.declared.lane.LaneKind.{LaneKind as Kind};
ghost use Rattle.dp_lanes.specs.Lanes.{is_bad};
ghost use Rattle.dp_lanes.specs.Places.{Follows, IsBadIn, IsPart, kind_of, lane_piece_limit, received_in};
ghost use Rattle.dp_relay.specs.Ends.{ends};
ghost use Rattle.dp_relay.specs.LaneRuns.{LaneRan};
ghost use Rattle.dp_relay.specs.inner.Turns.{Fed, Put};

use crate::ends::LaneEnd;
use dp_lanes::{Lane, PIECE_LIMIT, bad_place};
use dp_outside::{Job, Sink, Source};

/// A lane that has dropped nothing, between a source and a sink.
#[derive(Drop)]
pub(crate) struct LaneJob<S, K> {
    pub(crate) lane: Lane,
    pub(crate) source: S,
    pub(crate) sink: K,
}

/// A lane that has run: its source and its sink come back.
#[derive(Drop)]
pub(crate) struct LaneDone<S, K> {
    pub(crate) source: S,
    pub(crate) sink: K,
    pub(crate) end: LaneEnd,
}

/// Where the stream of a lane is bad, the place of that.
pub(crate) fn bad_offset(lane: &Lane) -> u64
    ensures { (kind : Kind) (stream : List ℕ) → Follows kind lane.now stream → is_bad kind stream ≡ true
        → IsBadIn kind stream result }
{
    match bad_place(lane) {
        Some(offset) => offset,
        None => 0,
    }
}

/// Puts each whole frame that is held. `Ok` where more has to come.
fn pass_frames<K: Sink>(lane: &mut Lane, sink: &mut K) -> Result<(), LaneEnd>
    ensures way { kind_of lane.new ≡ kind_of lane.old }
    ensures part { OnOk result (IsPart (kind_of lane.new) (received_in lane.new).held) }
    ensures put { Put lane.old lane.new (K.taken sink.old) (K.taken sink.new) (K.faults sink.old) (K.faults sink.new)
        result }
{
    'frames: loop {
        match lane.front() {
            Ok(Some(frame)) => {
                if sink.put(frame).is_err() {
                    return Err(LaneEnd::WriteFault);
                }
            }
            Ok(None) => return Ok(()),
            Err(_) => {
                let offset = bad_offset(lane);
                return Err(LaneEnd::BadFrame { offset });
            }
        }
        lane.drop_front();
    }
}

/// Reads a piece. `false` at the end of the source.
pub(crate) fn read_piece<S: Source>(
    source: &mut S,
    lane: &mut Lane,
    buffer: &mut [u8],
) -> Result<bool, LaneEnd>
    requires part { IsPart (kind_of lane.old) (received_in lane.old).held }
    requires room { (0 < length buffer.old) × (length buffer.old ≤ lane_piece_limit) }
    ensures buffer { length buffer.new ≡ length buffer.old }
    ensures way { kind_of lane.new ≡ kind_of lane.old }
    ensures fed { Fed lane.old lane.new (S.left source.old) (S.left source.new) (S.given source.old)
        (S.given source.new) (S.faults source.old) (S.faults source.new) result }
{
    match source.take(buffer) {
        Ok(0) => Ok(false),
        Ok(count) => match lane.feed(&buffer[..count]) {
            Ok(()) => Ok(true),
            Err(_) => Err(LaneEnd::Memory),
        },
        Err(_) => Err(LaneEnd::ReadFault),
    }
}

/// Runs a lane to its end.
fn run_lane<S: Source, K: Sink>(source: &mut S, mut lane: Lane, sink: &mut K) -> LaneEnd
    requires start { (received_in lane).dropped ≡ 0 }
    ensures { LaneRan (kind_of lane) (received_in lane).held (ends S.Source K.Sink source.old sink.old)
        (ends S.Source K.Sink source.new sink.new) result }
{
    let mut buffer = [0; PIECE_LIMIT];
    'pieces: for _ in 0..u64::MAX {
        if let Err(end) = pass_frames(&mut lane, sink) {
            return end;
        }
        match read_piece(source, &mut lane, &mut buffer) {
            Ok(true) => {}
            Ok(false) => return LaneEnd::End,
            Err(end) => return end,
        }
    }
    LaneEnd::Memory
}

impl<S: Source + Send + Drop, K: Sink + Send + Drop> Job for LaneJob<S, K> {
    ghost use Rattle.std.specs.Prelude.{◌≡◌};

    type Done = LaneDone<S, K>;

    ghost may_run = { λ job. (received_in job.lane).dropped ≡ 0 };

    ghost may_give = { λ job done. LaneRan (kind_of job.lane) (received_in job.lane).held
        (ends S.Source K.Sink job.source job.sink) (ends S.Source K.Sink done.source done.sink) done.end };

    fn run(self) -> LaneDone<S, K> {
        let LaneJob {
            lane,
            mut source,
            mut sink,
        } = self;
        let end = run_lane(&mut source, lane, &mut sink);
        sink.finish();
        LaneDone { source, sink, end }
    }
}
