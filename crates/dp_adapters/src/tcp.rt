//! Links and gates over TCP. They tell nothing, and each count rises where a call fails.
ghost use Rattle.std.specs.Prelude.{◌≡◌, IfOk, IfSome, None};

use crate::streams::halves;
use crate::{TcpSink, TcpSource};
use arrayvec::ArrayString;
use dp_outside::{Dialer, Failed, Faults, Gate, HOST_LIMIT, Host, Net};
use std::fmt::Write;
use std::io::ErrorKind;
use std::net::{IpAddr, Ipv4Addr, Net as Sockets, TcpListener, TcpStream};
use std::str;
use std::time::Duration;

/// A link to the host, where it takes one. A stream that the system joined to itself, since it gave it the very port
/// that it dials, is no link.
fn connect<R: Sockets<Listener = TcpListener, Stream = TcpStream>>(
    rt: &R,
    host: &Host,
    port: u16,
) -> Result<(TcpSource, TcpSink), Failed>
    ensures source { IfOk result (λ link. link.0.faults ≡ 0) }
    ensures sink { IfOk result (λ link. link.1.faults ≡ 0) }
{
    let Ok(name) = str::from_utf8(host.text()) else {
        return Err(Failed);
    };
    let Ok(stream) = TcpStream::connect(rt, (name, port)) else {
        return Err(Failed);
    };
    match (stream.local_addr(), stream.peer_addr()) {
        (Ok(near), Ok(far)) if near != far => halves(stream, None),
        _ => Err(Failed),
    }
}

/// The name of a peer: its address as text. Takes no memory.
fn host_of(address: IpAddr) -> Option<Host> {
    let mut text: ArrayString<HOST_LIMIT> = ArrayString::new();
    if write!(text, "{address}").is_err() {
        return None;
    }
    Host::of(text.as_bytes())
}

/// The link of a stream that came, and the host at its other end. `None` where it cannot be used.
fn set_up(stream: TcpStream, address: IpAddr, limit: Duration) -> Option<(TcpSource, TcpSink, Host)>
    ensures source { IfSome result (λ link. link.0.faults ≡ 0) }
    ensures sink { IfSome result (λ link. link.1.faults ≡ 0) }
{
    match (host_of(address), halves(stream, Some(limit))) {
        (Some(host), Ok((source, sink))) => Some((source, sink, host)),
        _ => None,
    }
}

/// The next link at a listener that can be used. It waits again where a signal interrupts it, where a peer was gone
/// before its turn, and where a link cannot be set up, which it drops. An error of the listener itself is the failure.
fn next_link(listener: &TcpListener, limit: Duration) -> Result<(TcpSource, TcpSink, Host), Failed>
    ensures source { IfOk result (λ link. link.0.faults ≡ 0) }
    ensures sink { IfOk result (λ link. link.1.faults ≡ 0) }
{
    'tries: for _ in 0..u64::MAX {
        match listener.accept() {
            Ok((stream, address)) => {
                if let Some(link) = set_up(stream, address.ip(), limit) {
                    return Ok(link);
                }
            }
            Err(e) => {
                if e.kind() != ErrorKind::Interrupted && e.kind() != ErrorKind::ConnectionAborted {
                    return Err(Failed);
                }
            }
        }
    }
    Err(Failed)
}

/// A gate at a port of this machine, on each of its IPv4 addresses. A link of it that gives no byte within the limit
/// that the network was made with fails. A link that cannot be set up is dropped, and the next one is waited for.
#[derive(Drop)]
pub struct TcpGate {
    listener: TcpListener,
    limit: Duration,
    port: u16,
    faults: Faults,
    returned: Faults,
}

impl TcpGate {
    /// How often it has failed.
    pub fn faults(&self) -> u64
        ensures { result ≡ self.now.faults }
    {
        self.faults.count()
    }
}

impl Gate for TcpGate {
    type In = TcpSource;

    type Out = TcpSink;

    ghost faults = { λ g. g.faults };

    ghost returned = { λ g. g.returned };

    ghost port = { λ g. g.port };

    ghost accepts = { λ _. None };

    ghost accepted = { λ _. None };

    ghost retired = { λ _. None };

    fn accept(&mut self) -> Result<(TcpSource, TcpSink, Host), Failed> {
        let link = next_link(&self.listener, self.limit);
        if link.is_err() {
            self.faults.raise();
        }
        link
    }

    fn retire(&mut self, source: TcpSource, sink: TcpSink) {
        if source.faults() != 0 || sink.faults() != 0 {
            self.returned.raise();
        }
    }

    fn twin(&mut self) -> Result<Self, Failed> {
        let Ok(listener) = self.listener.try_clone() else {
            self.faults.raise();
            return Err(Failed);
        };
        Ok(TcpGate {
            listener,
            limit: self.limit,
            port: self.port,
            faults: Faults::new(),
            returned: Faults::new(),
        })
    }
}

/// The network over TCP.
#[derive(Drop)]
pub struct TcpNet<'r, R> {
    rt: &'r R,
    limit: Duration,
    faults: Faults,
    returned: Faults,
}

impl<'r, R> TcpNet<'r, R> {
    /// The network of this runtime. No call has failed yet. A link that a gate gives fails where a take waits longer
    /// than `limit` for its first byte; a `limit` of 0 counts as a nanosecond, and the system may round up to its own
    /// units.
    pub fn new(rt: &'r R, limit: Duration) -> Self
        ensures faults { result.faults ≡ 0 }
        ensures returned { result.returned ≡ 0 }
    {
        let limit = if limit.is_zero() {
            Duration::from_nanos(1)
        } else {
            limit
        };
        TcpNet {
            rt,
            limit,
            faults: Faults::new(),
            returned: Faults::new(),
        }
    }

    /// How often it has failed.
    pub fn faults(&self) -> u64
        ensures { result ≡ self.now.faults }
    {
        self.faults.count()
    }

    /// How often a link or a gate came back that had failed.
    pub fn returned(&self) -> u64
        ensures { result ≡ self.now.returned }
    {
        self.returned.count()
    }
}

impl<'r, R: Sockets<Listener = TcpListener, Stream = TcpStream> + Sync> Dialer for TcpNet<'r, R> {
    type In = TcpSource;

    type Out = TcpSink;

    ghost faults = { λ n. n.faults };

    ghost returned = { λ n. n.returned };

    ghost dials = { λ _. None };

    ghost retired = { λ _. None };

    ghost asked_gates = { λ _. None };

    ghost shut_doors = { λ _. None };

    fn dial(&mut self, host: &Host, port: u16) -> Result<(TcpSource, TcpSink), Failed> {
        let link = connect(self.rt, host, port);
        if link.is_err() {
            self.faults.raise();
        }
        link
    }

    fn retire(&mut self, source: TcpSource, sink: TcpSink) {
        if source.faults() != 0 || sink.faults() != 0 {
            self.returned.raise();
        }
    }

    fn twin(&mut self) -> Result<Self, Failed> {
        Ok(TcpNet::new(self.rt, self.limit))
    }
}

/// A listener at this port.
fn listen<R: Sockets<Listener = TcpListener, Stream = TcpStream>>(
    rt: &R,
    port: u16,
) -> Result<TcpListener, Failed> {
    match TcpListener::bind(rt, (Ipv4Addr::UNSPECIFIED, port)) {
        Ok(listener) => Ok(listener),
        Err(_) => Err(Failed),
    }
}

impl<'r, R: Sockets<Listener = TcpListener, Stream = TcpStream> + Sync> Net for TcpNet<'r, R> {
    type Door = TcpGate;

    fn gate(&mut self, port: u16) -> Result<TcpGate, Failed> {
        let Ok(listener) = listen(self.rt, port) else {
            self.faults.raise();
            return Err(Failed);
        };
        Ok(TcpGate {
            listener,
            limit: self.limit,
            port,
            faults: Faults::new(),
            returned: Faults::new(),
        })
    }

    fn shut(&mut self, door: TcpGate) {
        if door.faults.count() != 0 || door.returned.count() != 0 {
            self.returned.raise();
        }
    }
}
