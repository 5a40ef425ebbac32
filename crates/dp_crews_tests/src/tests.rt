//! What serving all links comes to.

ghost use Rattle.std.specs.Prelude.{◌≡◌, [], IfOk, All};
ghost use Rattle.dp_memory_links.specs.Fakes.{IsFreshCall};

use crate::{CountedGate, Links, PairDialer, PairGate, SeenSink, StagedSource};
use dp_adapters::ThreadSpawner;
use dp_crews::{Sizes, Summary, serve_all};
use dp_memory_links::{GatePart, ListDialer, ListGate};
use dp_outside::{ByteSink, ByteSource, Host, Memory, TurnSpawner};
use std::alloc::{AllocError, Global};
use std::marker::Brand;
use std::sync::Wait;
use std::sync::atomic::AtomicUsize;
use std::sync::atomic::Ordering::SeqCst;
use std::sync::ledger::Blank;
use std::test::*;
use std::thread::Threads;

/// An IDE asks for the key A, for as many sessions as come.
const ASKED: &[u8] = b"proxyinit -p 9000 -k A -m 1\0";

/// It is given the key.
const REPLY: &[u8] = b"121\0<?xml version=\"1.0\" encoding=\"iso-8859-1\"?>\n\
    <proxyinit success=\"1\" idekey=\"A\" address=\"10.0.0.1\" port=\"9000\"></proxyinit>\0";

/// The first packet of an engine with the key A.
const INIT: &[u8] = b"208\0<?xml version=\"1.0\" encoding=\"iso-8859-1\"?>\n\
    <init xmlns=\"urn:debugger_protocol_v1\" appid=\"dbgp\" idekey=\"A\" session=\"\" thread=\"1\" \
    parent=\"\" language=\"PHP\" protocol_version=\"1.0\" fileuri=\"file:///a.php\"></init>\0";

/// What it answers to the first command.
const RESPONSE: &[u8] = b"164\0<?xml version=\"1.0\" encoding=\"iso-8859-1\"?>\n\
    <response xmlns=\"urn:debugger_protocol_v1\" command=\"step_into\" transaction_id=\"1\" \
    status=\"break\" reason=\"ok\"></response>\0";

/// Both of them.
const PACKETS: &[u8] = b"208\0<?xml version=\"1.0\" encoding=\"iso-8859-1\"?>\n\
    <init xmlns=\"urn:debugger_protocol_v1\" appid=\"dbgp\" idekey=\"A\" session=\"\" thread=\"1\" \
    parent=\"\" language=\"PHP\" protocol_version=\"1.0\" fileuri=\"file:///a.php\"></init>\0\
    164\0<?xml version=\"1.0\" encoding=\"iso-8859-1\"?>\n\
    <response xmlns=\"urn:debugger_protocol_v1\" command=\"step_into\" transaction_id=\"1\" \
    status=\"break\" reason=\"ok\"></response>\0";

/// The first command of an IDE, the second, and both.
const COMMAND: &[u8] = b"step_into -i 1\0";

const LATER: &[u8] = b"stop -i 2\0";

const COMMANDS: &[u8] = b"step_into -i 1\0stop -i 2\0";

/// An IDE gives up the key A, which nobody holds.
const GIVEN_UP: &[u8] = b"proxystop -k A\0";

/// The first packet of Xdebug 3.3 without its key.
const KEYLESS: &[u8] = b"296\0<?xml version=\"1.0\" encoding=\"iso-8859-1\"?>\n\
    <init xmlns=\"urn:debugger_protocol_v1\" xmlns:xdebug=\"https://xdebug.org/dbgp/xdebug\" \
    fileuri=\"file:///srv/a.php\" language=\"PHP\" xdebug:language_version=\"8.3.0\" \
    protocol_version=\"1.0\" appid=\"77\"><engine version=\"3.3.0\">\
    <![CDATA[Xdebug]]></engine></init>\0";

/// The first packet of an engine with the key Z.
const UNKNOWN: &[u8] = b"208\0<?xml version=\"1.0\" encoding=\"iso-8859-1\"?>\n\
    <init xmlns=\"urn:debugger_protocol_v1\" appid=\"dbgp\" idekey=\"Z\" session=\"\" thread=\"1\" \
    parent=\"\" language=\"PHP\" protocol_version=\"1.0\" fileuri=\"file:///a.php\"></init>\0";

/// What the sinks of a run took so far, how many sources were read to their ends, and how many links came back.
#[derive(Drop)]
struct Board {
    asker: AtomicUsize,
    engines: (AtomicUsize, AtomicUsize),
    ides: (AtomicUsize, AtomicUsize),
    ends: AtomicUsize,
    retired: AtomicUsize,
}

/// Nothing was taken, read or given back yet.
fn empty_board() -> Board {
    Board {
        asker: AtomicUsize::new(0),
        engines: (AtomicUsize::new(0), AtomicUsize::new(0)),
        ides: (AtomicUsize::new(0), AtomicUsize::new(0)),
        ends: AtomicUsize::new(0),
        retired: AtomicUsize::new(0),
    }
}

/// A sink of which these bytes are wanted.
fn sink_of<'a>(wanted: &'a [u8], seen: &'a AtomicUsize) -> SeenSink<'a> {
    SeenSink {
        wanted,
        count: 0,
        seen,
    }
}

/// The gate of IDEs: one asks for the key A.
fn asking<'a>(board: &'a Board) -> PairGate<'a> {
    let source = StagedSource {
        first: ASKED,
        last: &[],
        after: 0,
        seen: &board.asker,
        ends: &board.ends,
    };
    let links = Links {
        near: Some((source, sink_of(REPLY, &board.asker))),
        far: None,
    };
    PairGate::new(links, 0, &board.asker, &board.retired)
}

/// An engine, which gives its first packet, and once it took a command the response.
fn engine_of<'a>(board: &'a Board, seen: &'a AtomicUsize) -> (StagedSource<'a>, SeenSink<'a>) {
    let source = StagedSource {
        first: INIT,
        last: RESPONSE,
        after: COMMAND.len(),
        seen,
        ends: &board.ends,
    };
    (source, sink_of(COMMANDS, seen))
}

/// The gate of engines, which come once the asker was answered.
fn coming<'a>(board: &'a Board) -> PairGate<'a> {
    let links = Links {
        near: Some(engine_of(board, &board.engines.0)),
        far: Some(engine_of(board, &board.engines.1)),
    };
    PairGate::new(links, REPLY.len(), &board.asker, &board.retired)
}

/// An IDE, which gives its first command, and the next one once the other IDE took a response.
fn ide_of<'a>(
    board: &'a Board,
    seen: &'a AtomicUsize,
    other: &'a AtomicUsize,
) -> (StagedSource<'a>, SeenSink<'a>) {
    let source = StagedSource {
        first: COMMAND,
        last: LATER,
        after: PACKETS.len(),
        seen: other,
        ends: &board.ends,
    };
    (source, sink_of(PACKETS, seen))
}

/// The dialer, whose links are those of the two IDEs.
fn dialing<'a>(board: &'a Board) -> PairDialer<'a> {
    let links = Links {
        near: Some(ide_of(board, &board.ides.0, &board.ides.1)),
        far: Some(ide_of(board, &board.ides.1, &board.ides.0)),
    };
    PairDialer::new(links, &board.retired)
}

/// Serves one IDE and two engines in threads.
fn two_sessions<R: Threads + Wait + Sync>(
    rt: &R,
    alloc: Global,
    board: &Board,
) -> Result<Summary, Fail> {
    let blanks = (Blank::new(65536), Blank::new(65536), Blank::new(65536));
    let mut spawner = ThreadSpawner::new(rt);
    let sizes = Sizes {
        registrations: 1,
        sessions: 2,
    };
    let (served, _ides, _engines) = serve_all::<_, Brand, Brand, Brand, _, _, _, _>(
        rt,
        alloc,
        blanks,
        asking(board),
        coming(board),
        &mut dialing(board),
        &mut spawner,
        sizes,
    );
    match served {
        Ok((summary, _registry)) => Ok(summary),
        Err(_) => Err(Fail::from("not all were served")),
    }
}

/// Each of two sessions goes on only once the other has had a response: they run beside one another. All sinks took
/// what was sent to them, all sources were read to their ends, and all links came back.
#[test]
fn sessions_that_need_each_other(rt: HostRuntime) -> Result<(), Fail> {
    let board = empty_board();
    let summary = two_sessions(&rt, rt.alloc(), &board)?;
    let wanted = Summary {
        accepted: 1,
        admitted: 2,
        refused: 0,
        full: 0,
        unfit: 0,
        failed: 0,
        starved: 0,
    };
    assert_eq!(rt; summary, wanted);
    assert_eq!(rt; board.asker.load(SeqCst), REPLY.len());
    assert_eq!(rt; board.engines.0.load(SeqCst), COMMANDS.len());
    assert_eq!(rt; board.engines.1.load(SeqCst), COMMANDS.len());
    assert_eq!(rt; board.ides.0.load(SeqCst), PACKETS.len());
    assert_eq!(rt; board.ides.1.load(SeqCst), PACKETS.len());
    assert_eq!(rt; board.ends.load(SeqCst), 4);
    assert_eq!(rt; board.retired.load(SeqCst), 5);
    Ok(())
}

/// A source of these bytes, and a sink.
fn link_of(alloc: Global, bytes: &[u8]) -> Result<(ByteSource, ByteSink), AllocError>
    ensures unread { IfOk result (λ l. l.0.tape.given ≡ []) }
    ensures source { IfOk result (λ l. l.0.plan.faults ≡ 0) }
    ensures sink { IfOk result (λ l. l.1.plan.faults ≡ 0) }
{
    let source = ByteSource::new(bytes.to_vec(alloc)?, Vec::new(alloc), Vec::new(alloc))?;
    let sink = ByteSink::new(alloc, 1000, Vec::new(alloc))?;
    Ok((source, sink))
}

/// A part of a gate: one link, which gives these bytes.
fn part_of(alloc: Global, bytes: &[u8]) -> Result<GatePart, Memory>
    ensures fresh { IfOk result (λ part. All IsFreshCall part.links) }
{
    let (source, sink) = link_of(alloc, bytes)?;
    let Some(host) = Host::of(b"10.0.0.1") else {
        return Err(Memory);
    };
    let mut links = Vec::new(alloc);
    links.push((source, sink, host))?;
    Ok(GatePart {
        links,
        fails: Vec::new(alloc),
    })
}

/// A gate of as many parts as texts, each with a link that gives one.
#[tactic(auto, using(crate::proofs::FreshLaws::more_parts))]
fn gate_of(alloc: Global, texts: &[&[u8]]) -> Result<CountedGate, Memory> {
    let mut parts = Vec::new(alloc);
    for text in texts {
        parts.push(part_of(alloc, text)?)?;
    }
    Ok(CountedGate::new(ListGate::new(alloc, 9000, parts)?))
}

/// Serves an IDE and three engines in turn, none of which is joined. What it came to, and of each gate of engines how
/// many links came back.
fn unfit_sessions<R: Threads + Wait + Sync + Send>(
    rt: &R,
    alloc: Global,
) -> Result<(Summary, Vec<u32>), Fail> {
    let blanks = (Blank::new(65536), Blank::new(65536), Blank::new(65536));
    let mut spawner = TurnSpawner::<R>::new(alloc, Vec::new(alloc))?;
    let sizes = Sizes {
        registrations: 1,
        sessions: 3,
    };
    let (served, _ides, engines) = serve_all::<_, Brand, Brand, Brand, _, _, _, _>(
        rt,
        alloc,
        blanks,
        gate_of(alloc, &[GIVEN_UP])?,
        gate_of(alloc, &[b"".as_slice(), KEYLESS, UNKNOWN])?,
        &mut ListDialer::new(alloc, Vec::new(alloc))?,
        &mut spawner,
        sizes,
    );
    let Ok((summary, _registry)) = served else {
        return Err(Fail::from("not all were served"));
    };
    let mut retired = Vec::new(alloc);
    for gate in &engines {
        retired.push(gate.retired())?;
    }
    Ok((summary, retired))
}

/// An engine that sends nothing and one without a key are unfit, one with a key that nobody holds is refused, and each
/// link comes back to its own gate.
#[test]
fn engines_that_are_not_joined(rt: HostRuntime) -> Result<(), Fail> {
    let (summary, retired) = unfit_sessions(&rt, rt.alloc())?;
    let wanted = Summary {
        accepted: 0,
        admitted: 0,
        refused: 1,
        full: 0,
        unfit: 2,
        failed: 0,
        starved: 0,
    };
    assert_eq!(rt; summary, wanted);
    assert_eq!(rt; retired.as_slice(), [1, 1, 1].as_slice());
    Ok(())
}
