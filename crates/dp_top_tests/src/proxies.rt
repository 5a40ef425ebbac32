//! The command `proxy`, called as a program calls it, in a thread beside an IDE and engines over loopback.

use crate::calls::{Ended, WAIT_SECONDS, call, free_port, has_written};
use crate::peers::{ask, received, send};
use dp_adapters::TcpNet;
use dp_outside::{MapShelf, Memory, Net};
use std::alloc::Global;
use std::net::{Net as Sockets, TcpListener, TcpStream};
use std::sync::Wait;
use std::test::Fail;
use std::thread::{Threads, join};
use std::time::Duration;

/// The first packet of an engine of the key K, a packet behind it, and a half one.
const SENT: &[u8] = b"24\0<init idekey=\"K\"></init>\04\0<a/>\04\0<b";

/// How many of these bytes are whole packets.
const WHOLE: usize = 35;

/// The first packet of an engine whose key nobody holds.
const UNKNOWN: &[u8] = b"24\0<init idekey=\"Z\"></init>\0";

/// A first packet without a key.
const KEYLESS: &[u8] = b"13\0<init></init>\0";

/// What the proxy prints.
const NUMBERS: &[u8] = b"accepted 1 admitted 1 refused 1 full 0 unfit 1 failed 0 starved 0\n";

/// The ports of the proxy, and that at which the IDE waits.
#[derive(Clone, Copy)]
struct Ports {
    ides: u16,
    engines: u16,
    own: u16,
}

/// Serves two registrations and three engines.
fn serve<R: Threads + Wait + Sync + Send + Sockets<Listener = TcpListener, Stream = TcpStream>>(
    rt: &R,
    alloc: Global,
    ports: Ports,
) -> Result<Ended, Memory> {
    let ides = format!(in alloc; "{}", ports.ides)?;
    let engines = format!(in alloc; "{}", ports.engines)?;
    let words = ["proxy", ides.as_str(), engines.as_str(), "2", "3"];
    let mut shelf = MapShelf::new(Vec::new(alloc), Vec::new(alloc))?;
    call(rt, alloc, &words, &mut shelf)
}

/// One after another: the IDE registers K, and then again for another port, which is refused; an engine whose key
/// nobody holds, one without a key, and one of K come. What the IDE received of the last.
fn play<R: Threads + Wait + Sync + Send + Sockets<Listener = TcpListener, Stream = TcpStream>>(
    rt: &R,
    alloc: Global,
    ports: Ports,
) -> Result<Vec<u8>, Memory> {
    let first = format!(in alloc; "proxyinit -p {} -k K -m 1\0", ports.own)?;
    let mut net = TcpNet::new(rt, Duration::from_secs(WAIT_SECONDS));
    let Ok(mut gate) = net.gate(ports.own) else {
        return Ok(Vec::new(alloc));
    };
    ask(&mut net, ports.ides, first.as_bytes());
    ask(&mut net, ports.ides, b"proxyinit -p 1 -k K\0");
    send(&mut net, ports.engines, UNKNOWN);
    send(&mut net, ports.engines, KEYLESS);
    send(&mut net, ports.engines, SENT);
    let all = received(alloc, &mut gate);
    net.shut(gate);
    all
}

/// The IDE receives the whole packets of its engine and no other byte, and the numbers are exact.
#[test]
fn an_ide_receives_its_engine(rt: HostRuntime) -> Result<(), Fail> {
    let alloc = rt.alloc();
    let ports = Ports {
        ides: free_port(&rt)?,
        engines: free_port(&rt)?,
        own: free_port(&rt)?,
    };
    let (served, received) = join(&rt, || serve(&rt, alloc, ports), || play(&rt, alloc, ports));
    assert!(rt; has_written(&served, NUMBERS));
    let received = received?;
    assert_eq!(rt; received.as_slice(), &SENT[..WHOLE]);
    Ok(())
}
