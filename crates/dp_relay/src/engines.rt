//! The service of an engine: its first packet is read, and it is joined to the IDE that holds its key.
ghost use Rattle.std.specs.Prelude.{◌≡◌, ◌<◌, ◌∷◌, [], None, Some, option_map, IfOk};
ghost use Rattle.dp_lanes.specs.declared.lane.LaneKind.TheVariants.{Up};
ghost use Rattle.dp_lanes.specs.Places.{received_in};
ghost use Rattle.dp_outside.specs.Causes.{HasCause};
ghost use Rattle.dp_outside.specs.Links.{link, made};
ghost use Rattle.dp_outside.specs.Names.{IsHost};
ghost use Rattle.dp_outside.specs.Reports.{BeginsEmpty, grown};
ghost use Rattle.dp_relay.specs.Ends.{ends};
ghost use Rattle.dp_relay.specs.Engines.{EngineServed, standing};
ghost use Rattle.dp_relay.specs.inner.Openings.{Fronts, IsUndropped, JoinEnds, LanesRan, Opened, end_of_reading};
ghost use Rattle.dp_relay.specs.inner.Openings.{end_of_refusal};

use crate::ends::{LaneEnd, RelayEnd};
use crate::lanes::{LaneDone, LaneJob, bad_offset, read_piece};
use dp_bytes::Bytes;
use dp_desk::{Clerk, Desk};
use dp_lanes::{Lane, LaneKind, PIECE_LIMIT};
use dp_outside::{Dialer, Failed, Host, Sink, Source, Spawner};
use dp_proxy::{InitError, key_of_init};
use dp_registry::{Pass, Refusal};
use std::alloc::Global;
use std::sync::Wait;
use std::sync::ledger::Ledger;

/// The key in the packet at the front of the lane, `None` where more of it has to come.
fn key_at_front(alloc: Global, lane: &Lane) -> Result<Option<Bytes>, RelayEnd>
    requires lane { IsUndropped lane.now }
    ensures { Fronts (received_in lane.now).held result }
{
    match lane.next() {
        Ok(Some(range)) => match key_of_init(alloc, &lane.bytes()[range]) {
            Ok(key) => Ok(Some(key)),
            Err(InitError::BadInit) => Err(RelayEnd::BadInit),
            Err(InitError::Memory) => Err(RelayEnd::Memory),
        },
        Ok(None) => Ok(None),
        Err(_) => Err(RelayEnd::BadFrame {
            offset: bad_offset(lane),
        }),
    }
}

/// How a service ends whose reading failed.
fn reading_end(end: LaneEnd) -> RelayEnd
    ensures { result ≡ end_of_reading end }
{
    match end {
        LaneEnd::ReadFault => RelayEnd::ReadFault,
        LaneEnd::End => RelayEnd::Memory,
        LaneEnd::WriteFault => RelayEnd::Memory,
        LaneEnd::BadFrame { offset: _ } => RelayEnd::Memory,
        LaneEnd::Memory => RelayEnd::Memory,
    }
}

/// Reads the engine's first packet, which the lane goes on to hold, and answers its key.
fn first_key<S: Source>(alloc: Global, source: &mut S, lane: &mut Lane) -> Result<Bytes, RelayEnd>
    requires lane { IsUndropped lane.old }
    requires empty { (received_in lane.old).held ≡ [] }
    ensures { Opened lane.new (S.left source.old) (S.left source.new) (S.given source.old) (S.given source.new)
        (S.faults source.old) (S.faults source.new) result }
{
    let mut buffer = [0; PIECE_LIMIT];
    'pieces: for _ in 0..u64::MAX {
        match key_at_front(alloc, lane) {
            Ok(Some(key)) => return Ok(key),
            Ok(None) => {}
            Err(end) => return Err(end),
        }
        match read_piece(source, lane, &mut buffer) {
            Ok(true) => {}
            Ok(false) => return Err(RelayEnd::BadInit),
            Err(end) => return Err(reading_end(end)),
        }
    }
    Err(RelayEnd::Memory)
}

/// Dials the IDE of a pass.
fn dial_ide<D: Dialer>(dialer: &mut D, pass: &Pass) -> Result<(D::In, D::Out), Failed>
    requires host { IsHost pass.now.host }
    ensures source { IfOk result (λ link. D.In.faults link.0 ≡ 0) }
    ensures sink { IfOk result (λ link. D.Out.faults link.1 ≡ 0) }
    ensures unread { IfOk result (λ link. BeginsEmpty (D.In.given link.0)) }
    ensures cause { HasCause (D.faults dialer.old) (D.faults dialer.new) result }
    ensures dials { D.dials dialer.new ≡ grown (D.dials dialer.old) (record {
      host = pass.now.host;
      port = pass.now.port;
      made = made (λ two. link D.In.Source D.Out.Sink two.0 two.1) result;
    } ∷ []) }
    ensures returned { D.returned dialer.new ≡ D.returned dialer.old }
    ensures retired { D.retired dialer.new ≡ D.retired dialer.old }
{
    match Host::of(pass.host.as_slice()) {
        Some(host) => dialer.dial(&host, pass.port),
        // A pass names a host, so this is proved not to come.
        None => unreachable!(),
    }
}

/// Runs the two lanes of a session beside one another, and finishes both sinks.
fn run_lanes<
    S: Source + Send + Drop,
    K: Sink + Send + Drop,
    I: Source + Send + Drop,
    O: Sink + Send + Drop,
    P: Spawner,
>(
    alloc: Global,
    lane: Lane,
    engine: (S, K),
    ide: (I, O),
    session: u64,
    spawner: &mut P,
) -> (RelayEnd, (S, K), (I, O))
    requires lane { IsUndropped lane }
    ensures { LanesRan (received_in lane).held session (ends S.Source K.Sink engine.0 engine.1)
        (ends S.Source K.Sink result.1.0 result.1.1) (ends I.Source O.Sink ide.0 ide.1)
        (ends I.Source O.Sink result.2.0 result.2.1) (P.starts spawner.old) (P.starts spawner.new)
        (P.faults spawner.old) (P.faults spawner.new) result.0 }
{
    let (source, sink) = engine;
    let (from, to) = ide;
    let up = LaneJob {
        lane,
        source,
        sink: to,
    };
    let down = LaneJob {
        lane: Lane::new(alloc, LaneKind::Down),
        source: from,
        sink,
    };
    match spawner.beside(up, down) {
        Ok((up, down)) => {
            let LaneDone {
                source,
                sink: to,
                end: up,
            } = up;
            let LaneDone {
                source: from,
                sink,
                end: down,
            } = down;
            let end = RelayEnd::Joined { session, up, down };
            (end, (source, sink), (from, to))
        }
        Err((up, down)) => {
            let LaneJob {
                lane: _,
                source,
                sink: mut to,
            } = up;
            let LaneJob {
                lane: _,
                source: from,
                mut sink,
            } = down;
            to.finish();
            sink.finish();
            (RelayEnd::NoThread, (source, sink), (from, to))
        }
    }
}

/// Joins an engine to the IDE of its pass, and runs the two lanes.
fn join_ide<S: Source + Send + Drop, K: Sink + Send + Drop, D: Dialer, P: Spawner>(
    alloc: Global,
    lane: Lane,
    source: S,
    mut sink: K,
    pass: &Pass,
    dialer: &mut D,
    spawner: &mut P,
) -> (RelayEnd, S, K, Option<(D::In, D::Out)>)
    requires lane { IsUndropped lane }
    requires host { IsHost pass.now.host }
    ensures joined { JoinEnds (received_in lane).held
        (standing (ends S.Source K.Sink source sink) (D.dials dialer.old) (D.faults dialer.old)
        (P.starts spawner.old) (P.faults spawner.old))
        (standing (ends S.Source K.Sink result.1 result.2) (D.dials dialer.new) (D.faults dialer.new)
        (P.starts spawner.new) (P.faults spawner.new)) pass.now
        (option_map (λ two. ends D.In.Source D.Out.Sink two.0 two.1) result.3) result.0 }
    ensures returned { D.returned dialer.new ≡ D.returned dialer.old }
    ensures retired { D.retired dialer.new ≡ D.retired dialer.old }
{
    match dial_ide(dialer, pass) {
        Ok(ide) => {
            let engine = (source, sink);
            let (end, (source, sink), ide) = run_lanes(
                alloc,
                lane,
                engine,
                ide,
                pass.session,
                spawner,
            );
            (end, source, sink, Some(ide))
        }
        Err(_) => {
            sink.finish();
            (RelayEnd::DialFault, source, sink, None)
        }
    }
}

/// How a service ends whose admission is refused.
fn refused_end(why: Refusal) -> RelayEnd
    ensures { result ≡ end_of_refusal why }
{
    match why {
        Refusal::Memory => RelayEnd::Memory,
        Refusal::Taken { host, port } => RelayEnd::NoSession(Refusal::Taken { host, port }),
        Refusal::Unknown => RelayEnd::NoSession(Refusal::Unknown),
        Refusal::NotYours => RelayEnd::NoSession(Refusal::NotYours),
        Refusal::Busy { session } => RelayEnd::NoSession(Refusal::Busy { session }),
        Refusal::Full { events, live } => RelayEnd::NoSession(Refusal::Full { events, live }),
    }
}

/// Serves an engine: reads its first packet, has its key admitted, dials the IDE that holds the key, and runs the two
/// lanes beside one another, of which the one up begins with that packet, byte for byte. Both sinks are finished, and
/// the session is dismissed, before the links are handed back. It waits.
///
/// Nothing is put on the IDE's link where no lane was started. After `Memory` no session was given.
pub fn serve_engine<
    R: Wait,
    A: Ledger,
    B: Ledger,
    C: Ledger,
    S: Source + Send + Drop,
    K: Sink + Send + Drop,
    D: Dialer,
    P: Spawner,
>(
    rt: &R,
    alloc: Global,
    desk: &Desk<A, B, C>,
    clerk: &mut Clerk<A, B, C>,
    mut source: S,
    mut sink: K,
    dialer: &mut D,
    spawner: &mut P,
) -> (RelayEnd, S, K, Option<(D::In, D::Out)>)
    requires desk { clerk.old.desk ≡ desk.now }
    ensures served { EngineServed clerk.old clerk.new
        (standing (ends S.Source K.Sink source sink) (D.dials dialer.old) (D.faults dialer.old)
        (P.starts spawner.old) (P.faults spawner.old))
        (standing (ends S.Source K.Sink result.1 result.2) (D.dials dialer.new) (D.faults dialer.new)
        (P.starts spawner.new) (P.faults spawner.new))
        (option_map (λ two. ends D.In.Source D.Out.Sink two.0 two.1) result.3) result.0 }
    ensures returned { D.returned dialer.new ≡ D.returned dialer.old }
    ensures retired { D.retired dialer.new ≡ D.retired dialer.old }
{
    let mut lane = Lane::new(alloc, LaneKind::Up);
    let key = match first_key(alloc, &mut source, &mut lane) {
        Ok(key) => key,
        Err(end) => {
            sink.finish();
            return (end, source, sink, None);
        }
    };
    let pass = match desk.admit(rt, clerk, key.as_slice()) {
        Ok(pass) => pass,
        Err(why) => {
            sink.finish();
            return (refused_end(why), source, sink, None);
        }
    };
    let ended = join_ide(alloc, lane, source, sink, &pass, dialer, spawner);
    desk.dismiss(rt, clerk, pass);
    ended
}
