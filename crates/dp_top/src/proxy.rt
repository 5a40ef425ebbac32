//! The command `proxy`: registrations and sessions over links, in threads.
ghost use Rattle.std.specs.Prelude.{◌≡◌, ◌≤◌, List, [], Ok, Err, map, IfOk, MatchResult};
ghost use Rattle.std.specs.Io.KnownBytes.{Appends};
ghost use Rattle.dp_desk.specs.Made.{all_shares};
ghost use Rattle.dp_outside.specs.Changes.{change};
ghost use Rattle.dp_registry.specs.declared.entry.Entry.{Entry};
ghost use Rattle.dp_crews.specs.Gates.{gating};
ghost use Rattle.dp_crews.specs.Relays.{faults};
ghost use Rattle.dp_words.specs.Commands.{service_seen};
ghost use Rattle.dp_words.specs.Words.{served_limit};
ghost use Rattle.dp_top.specs.Proxy as spec;
ghost use Rattle.dp_top.specs.Seen.{net_seen};
ghost use Rattle.dp_top.specs.Statuses.{exit_limit};
ghost use Rattle.dp_top.specs.inner.Proxied.{AreShut, Came, Ran, UnsaidSo};

use crate::failures::{Failure, Refused};
use crate::numbers::with_number;
use dp_bytes::{Bytes, Memory};
use dp_crews::{AllError, Sizes, Summary, serve_all};
use dp_outside::{Net, Sink, Spawner};
use dp_registry::Registry;
use dp_words::Proxy;
use std::alloc::Global;
use std::marker::Brand;
use std::sync::Wait;
use std::sync::ledger::{Blank, Ledger};
use std::thread::Threads;

/// The shares of each ledger of a registry that threads share.
const ALL_SHARES: u64 = 65_536;

/// The line of the numbers.
fn line_of(alloc: Global, summary: &Summary) -> Result<Bytes, Memory>
    ensures { IfOk result (λ line. line ≡ spec.summary_line summary.now) }
{
    let text = with_number(alloc, Vec::new(alloc), b"accepted ", summary.accepted)?;
    let text = with_number(alloc, text, b" admitted ", summary.admitted)?;
    let text = with_number(alloc, text, b" refused ", summary.refused)?;
    let text = with_number(alloc, text, b" full ", summary.full)?;
    let text = with_number(alloc, text, b" unfit ", summary.unfit)?;
    let text = with_number(alloc, text, b" failed ", summary.failed)?;
    let mut text = with_number(alloc, text, b" starved ", summary.starved)?;
    text.push(b'\n')?;
    Ok(Bytes::of(text))
}

/// The failure that an end of serving is.
fn failure_of(why: AllError) -> Failure
    ensures { result ≡ spec.failure_of why }
{
    match why {
        AllError::GateFault => Failure::Network,
        AllError::NoThread => Failure::Network,
        AllError::Memory => Failure::Memory,
    }
}

/// Shuts each gate, in their order.
fn shut_all<N: Net>(net: &mut N, doors: Vec<N::Door>)
    ensures { AreShut (map (gating N.Door.Gate) doors.items) (net_seen N.Dialer net.old) (net_seen N.Dialer net.new) }
{
    for door in doors {
        net.shut(door);
    }
}

/// The numbers of what was served, where all were.
fn numbers_of(served: Result<(Summary, Registry), AllError>) -> Result<Summary, AllError>
    ensures { MatchResult result (λ summary. (journal : List Entry) × (served ≡ Ok (summary, journal)))
        (λ why. served ≡ Err why) }
{
    match served {
        Ok((summary, _)) => Ok(summary),
        Err(why) => Err(why),
    }
}

/// Serves at two new gates, and shuts each gate that comes back.
fn serve_at<
    R: Threads + Wait + Sync,
    A: Ledger + Send + Sync,
    B: Ledger + Send + Sync,
    C: Ledger + Send + Sync,
    N: Net,
    P: Spawner,
>(
    rt: &R,
    alloc: Global,
    blanks: (Blank, Blank, Blank),
    request: Proxy,
    ides: N::Door,
    engines: N::Door,
    net: &mut N,
    spawner: &mut P,
) -> Result<Summary, AllError>
    requires registrations { (1 ≤ request.registrations) × (request.registrations ≤ served_limit) }
    requires sessions { (1 ≤ request.sessions) × (request.sessions ≤ served_limit) }
    requires registers { (blanks.0.name ≡ A.name) × (blanks.0.parts ≡ A.parts) × (blanks.0.parts ≡ all_shares) }
    requires admits { (blanks.1.name ≡ B.name) × (blanks.1.parts ≡ B.parts) × (blanks.1.parts ≡ all_shares) }
    requires dismissals { (blanks.2.name ≡ C.name) × (blanks.2.parts ≡ C.parts) × (blanks.2.parts ≡ all_shares) }
    requires ides { spec.IsNew request.ide_port (gating N.Door.Gate ides) }
    requires engines { spec.IsNew request.engine_port (gating N.Door.Gate engines) }
    ensures ran { Ran (service_seen request) result (net_seen N.Dialer net.old) (net_seen N.Dialer net.new)
        (faults (P.faults spawner.old) (P.faults spawner.new)) }
    ensures net_later { N.faults net.old ≤ N.faults net.new }
    ensures returned_later { N.returned net.old ≤ N.returned net.new }
    ensures spawner_later { P.faults spawner.old ≤ P.faults spawner.new }
{
    let sizes = Sizes {
        registrations: request.registrations,
        sessions: request.sessions,
    };
    let (served, ides, engines) = serve_all::<R, A, B, C, N::Door, N::Door, N, P>(
        rt, alloc, blanks, ides, engines, net, spawner, sizes,
    );
    shut_all(net, ides);
    shut_all(net, engines);
    numbers_of(served)
}

/// Opens a gate at each port, serves at them, and shuts them.
fn serve_ports<
    R: Threads + Wait + Sync,
    A: Ledger + Send + Sync,
    B: Ledger + Send + Sync,
    C: Ledger + Send + Sync,
    N: Net,
    P: Spawner,
>(
    rt: &R,
    alloc: Global,
    blanks: (Blank, Blank, Blank),
    request: Proxy,
    net: &mut N,
    spawner: &mut P,
) -> Result<Summary, AllError>
    requires registrations { (1 ≤ request.registrations) × (request.registrations ≤ served_limit) }
    requires sessions { (1 ≤ request.sessions) × (request.sessions ≤ served_limit) }
    requires registers { (blanks.0.name ≡ A.name) × (blanks.0.parts ≡ A.parts) × (blanks.0.parts ≡ all_shares) }
    requires admits { (blanks.1.name ≡ B.name) × (blanks.1.parts ≡ B.parts) × (blanks.1.parts ≡ all_shares) }
    requires dismissals { (blanks.2.name ≡ C.name) × (blanks.2.parts ≡ C.parts) × (blanks.2.parts ≡ all_shares) }
    ensures came { Came (service_seen request) result (net_seen N.Dialer net.old) (net_seen N.Dialer net.new)
        (faults (P.faults spawner.old) (P.faults spawner.new)) }
    ensures net_later { N.faults net.old ≤ N.faults net.new }
    ensures returned_later { N.returned net.old ≤ N.returned net.new }
    ensures spawner_later { P.faults spawner.old ≤ P.faults spawner.new }
{
    let Ok(ides) = net.gate(request.ide_port) else {
        return Err(AllError::GateFault);
    };
    let Ok(engines) = net.gate(request.engine_port) else {
        net.shut(ides);
        return Err(AllError::GateFault);
    };
    serve_at::<R, A, B, C, N, P>(rt, alloc, blanks, request, ides, engines, net, spawner)
}

/// Puts the line of the numbers.
fn print<'a, K: Sink>(alloc: Global, summary: &Summary, out: &mut K) -> Result<u8, Refused<'a>>
    ensures ends { MatchResult result
        (λ status. (status ≡ 0) × Appends (K.taken out.old) (K.taken out.new) (spec.summary_line summary.now))
        (λ why. (why.name.now ≡ [])
        × UnsaidSo why.failure (spec.summary_line summary.now) (change K.taken K.faults out.old out.new)) }
    ensures out_later { K.faults out.old ≤ K.faults out.new }
{
    match line_of(alloc, summary) {
        Ok(line) => match out.put(line.as_slice()) {
            Ok(()) => Ok(0),
            Err(_) => Err(Refused::unnamed(Failure::Output)),
        },
        Err(_) => Err(Refused::unnamed(Failure::Memory)),
    }
}

/// Serves so many registrations and sessions, and prints the numbers, with ledgers for the registry that is shared.
fn serve_and_print<
    'a,
    R: Threads + Wait + Sync,
    A: Ledger + Send + Sync,
    B: Ledger + Send + Sync,
    C: Ledger + Send + Sync,
    K: Sink,
    N: Net,
    P: Spawner,
>(
    rt: &R,
    alloc: Global,
    blanks: (Blank, Blank, Blank),
    request: Proxy,
    net: &mut N,
    spawner: &mut P,
    out: &mut K,
) -> Result<u8, Refused<'a>>
    requires registrations { (1 ≤ request.registrations) × (request.registrations ≤ served_limit) }
    requires sessions { (1 ≤ request.sessions) × (request.sessions ≤ served_limit) }
    requires registers { (blanks.0.name ≡ A.name) × (blanks.0.parts ≡ A.parts) × (blanks.0.parts ≡ all_shares) }
    requires admits { (blanks.1.name ≡ B.name) × (blanks.1.parts ≡ B.parts) × (blanks.1.parts ≡ all_shares) }
    requires dismissals { (blanks.2.name ≡ C.name) × (blanks.2.parts ≡ C.parts) × (blanks.2.parts ≡ all_shares) }
    ensures ends { MatchResult result
        (λ status. spec.Proxies status (service_seen request) (change K.taken K.faults out.old out.new)
        (net_seen N.Dialer net.old) (net_seen N.Dialer net.new)
        (faults (P.faults spawner.old) (P.faults spawner.new)))
        (λ why. spec.ProxyFails why.failure why.name.now (service_seen request)
        (change K.taken K.faults out.old out.new)
        (net_seen N.Dialer net.old) (net_seen N.Dialer net.new)
        (faults (P.faults spawner.old) (P.faults spawner.new))) }
    ensures out_later { K.faults out.old ≤ K.faults out.new }
    ensures net_later { N.faults net.old ≤ N.faults net.new }
    ensures returned_later { N.returned net.old ≤ N.returned net.new }
    ensures spawner_later { P.faults spawner.old ≤ P.faults spawner.new }
{
    match serve_ports::<R, A, B, C, N, P>(rt, alloc, blanks, request, net, spawner) {
        Ok(summary) => print(alloc, &summary, out),
        Err(why) => Err(Refused::unnamed(failure_of(why))),
    }
}

/// Serves so many registrations and sessions, and prints the numbers of what came of them.
pub(crate) fn proxy<'a, R: Threads + Wait + Sync, K: Sink, N: Net, P: Spawner>(
    rt: &R,
    alloc: Global,
    request: Proxy,
    net: &mut N,
    spawner: &mut P,
    out: &mut K,
) -> Result<u8, Refused<'a>>
    requires registrations { (1 ≤ request.registrations) × (request.registrations ≤ served_limit) }
    requires sessions { (1 ≤ request.sessions) × (request.sessions ≤ served_limit) }
    ensures ends { MatchResult result
        (λ status. spec.Proxies status (service_seen request) (change K.taken K.faults out.old out.new)
        (net_seen N.Dialer net.old) (net_seen N.Dialer net.new)
        (faults (P.faults spawner.old) (P.faults spawner.new)))
        (λ why. spec.ProxyFails why.failure why.name.now (service_seen request)
        (change K.taken K.faults out.old out.new)
        (net_seen N.Dialer net.old) (net_seen N.Dialer net.new)
        (faults (P.faults spawner.old) (P.faults spawner.new))) }
    ensures status { IfOk result (λ status. status ≤ exit_limit) }
    ensures out_later { K.faults out.old ≤ K.faults out.new }
    ensures net_later { N.faults net.old ≤ N.faults net.new }
    ensures returned_later { N.returned net.old ≤ N.returned net.new }
    ensures spawner_later { P.faults spawner.old ≤ P.faults spawner.new }
{
    let blanks = (
        Blank::new(ALL_SHARES),
        Blank::new(ALL_SHARES),
        Blank::new(ALL_SHARES),
    );
    serve_and_print::<R, Brand, Brand, Brand, K, N, P>(
        rt, alloc, blanks, request, net, spawner, out,
    )
}
