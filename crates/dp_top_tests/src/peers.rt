//! What speaks with a proxy over the network of the system.

use dp_outside::{Dialer, Gate, Host, Memory, Net, Sink, Source};
use std::alloc::Global;
use std::thread;

/// How often a port is dialed at most. The gate may not be there yet.
const MOST_DIALS: u32 = 100_000;

/// How often a source is read at most.
const MOST_READS: u32 = 10_000;

/// A link to a port of this machine, once something waits there.
fn dialed<N: Net>(net: &mut N, port: u16) -> Option<(N::In, N::Out)> {
    let host = Host::of(b"127.0.0.1")?;
    for _ in 0..MOST_DIALS {
        if let Ok(link) = net.dial(&host, port) {
            return Some(link);
        }
        thread::yield_now();
    }
    None
}

/// All that a source gives.
fn read_all<S: Source>(alloc: Global, source: &mut S) -> Result<Vec<u8>, Memory> {
    let mut all = Vec::new(alloc);
    let mut piece = [0; 64];
    for _ in 0..MOST_READS {
        match source.take(&mut piece) {
            Ok(0) => break,
            Ok(count) => all.extend_from_slice(&piece[..count])?,
            Err(_) => break,
        }
    }
    Ok(all)
}

/// Reads a source up to its end.
fn read_out<S: Source>(source: &mut S) {
    let mut piece = [0; 64];
    for _ in 0..MOST_READS {
        match source.take(&mut piece) {
            Ok(0) => break,
            Ok(_) => {}
            Err(_) => break,
        }
    }
}

/// Sends what an IDE asks, and waits for the end of the answer.
pub(crate) fn ask<N: Net>(net: &mut N, port: u16, command: &[u8]) {
    if let Some((mut source, mut sink)) = dialed(net, port) {
        let _ = sink.put(command);
        read_out(&mut source);
        net.retire(source, sink);
    }
}

/// An engine that sends these bytes one by one, and ends its link.
pub(crate) fn send<N: Net>(net: &mut N, port: u16, bytes: &[u8]) {
    if let Some((source, mut sink)) = dialed(net, port) {
        for byte in bytes {
            let _ = sink.put(&[*byte]);
        }
        sink.finish();
        net.retire(source, sink);
    }
}

/// The next link at a gate: all that comes on it.
pub(crate) fn received<G: Gate>(alloc: Global, gate: &mut G) -> Result<Vec<u8>, Memory> {
    match gate.accept() {
        Ok((mut source, sink, _)) => {
            let all = read_all(alloc, &mut source);
            gate.retire(source, sink);
            all
        }
        Err(_) => Ok(Vec::new(alloc)),
    }
}
