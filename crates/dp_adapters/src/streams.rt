//! The two halves of a link over TCP, each over a handle of its stream. They tell nothing.
ghost use Rattle.std.specs.Prelude.{◌≡◌, ◌≤◌, length, IfOk, None};

use crate::transfers::{read_some, write_whole};
use dp_outside::{Failed, Faults, Sink, Source};
use std::net::{Shutdown, TcpStream};
use std::time::Duration;

/// A source over one handle of a stream; the link's sink has the other. Where the link came by a gate, a take that
/// waits too long for its first byte fails; from that byte on a take waits as long as it has to.
#[derive(Drop)]
pub struct TcpSource {
    stream: TcpStream,
    faults: Faults,
    has_limit: bool,
}

impl TcpSource {
    /// How often it has failed.
    pub fn faults(&self) -> u64
        ensures { result ≡ self.now.faults }
    {
        self.faults.count()
    }
}

/// One read. Once it gave a byte there is no limit on the time of those to come.
fn read_on(stream: &mut TcpStream, has_limit: &mut bool, buf: &mut [u8]) -> Result<usize, Failed>
    ensures { IfOk result (λ count. count ≤ length buf.new) }
{
    let count = read_some(stream, buf)?;
    if *has_limit && count != 0 {
        if stream.set_read_timeout(None).is_err() {
            return Err(Failed);
        }
        *has_limit = false;
    }
    Ok(count)
}

impl Source for TcpSource {
    ghost left = { λ _. None };

    ghost given = { λ _. None };

    ghost faults = { λ s. s.faults };

    ghost tells_both = { λ _ told. told };

    fn take(&mut self, buf: &mut [u8]) -> Result<usize, Failed> {
        let taken = read_on(&mut self.stream, &mut self.has_limit, buf);
        if taken.is_err() {
            self.faults.raise();
        }
        taken
    }
}

/// A sink over one handle of a stream; the link's source has the other. A put is one write, as long as the system takes
/// all at once, and is sent without delay.
#[derive(Drop)]
pub struct TcpSink {
    stream: TcpStream,
    faults: Faults,
}

impl TcpSink {
    /// How often it has failed.
    pub fn faults(&self) -> u64
        ensures { result ≡ self.now.faults }
    {
        self.faults.count()
    }
}

impl Sink for TcpSink {
    ghost taken = { λ _. None };

    ghost faults = { λ s. s.faults };

    fn put(&mut self, bytes: &[u8]) -> Result<(), Failed> {
        let put = write_whole(&mut self.stream, bytes);
        if put.is_err() {
            self.faults.raise();
        }
        put
    }

    /// Shuts the link down in both directions: the peer reads an end, and so does the link's own source.
    fn finish(&mut self) {
        let _ = self.stream.shutdown(Shutdown::Both);
    }
}

/// The source and the sink of a stream, over two handles of it, which sends without delay. The first byte is waited for
/// within the limit, where there is one.
pub(crate) fn halves(
    stream: TcpStream,
    limit: Option<Duration>,
) -> Result<(TcpSource, TcpSink), Failed>
    ensures source { IfOk result (λ link. link.0.faults ≡ 0) }
    ensures sink { IfOk result (λ link. link.1.faults ≡ 0) }
{
    if stream.set_nodelay(true).is_err() || stream.set_read_timeout(limit).is_err() {
        return Err(Failed);
    }
    let Ok(other) = stream.try_clone() else {
        return Err(Failed);
    };
    let source = TcpSource {
        stream,
        faults: Faults::new(),
        has_limit: limit.is_some(),
    };
    let sink = TcpSink {
        stream: other,
        faults: Faults::new(),
    };
    Ok((source, sink))
}
