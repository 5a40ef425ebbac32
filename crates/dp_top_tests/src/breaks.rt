//! The command `async`, called as a program calls it, in a thread beside its IDE over loopback: a program in a loop
//! that never ends is stopped.

use crate::calls::{Ended, WAIT_SECONDS, call, free_port, shelf_with};
use dp_adapters::TcpNet;
use dp_outside::{Gate, Memory, Net, Sink, Source};
use std::alloc::Global;
use std::net::{Net as Sockets, TcpListener, TcpStream};
use std::sync::Wait;
use std::test::Fail;
use std::thread;
use std::thread::{Threads, join};
use std::time::Duration;

const PROGRAM: &str = "<?php\nwhile (true) ;\n";

/// What ends the response to the `break`.
const BROKEN: &[u8] = b"command=\"break\" transaction_id=\"2\" success=\"1\"></response>\0";

/// The status where no link comes about, and that of a program that was stopped.
const NO_LINK: u8 = 208;

const KILLED: u8 = 210;

/// How often the engine is run at most. The gate may not be there yet.
const MOST_RUNS: u32 = 100_000;

/// How often the IDE reads at most.
const MOST_READS: u32 = 1_000_000;

/// Runs the engine that listens, and again where no link comes about.
fn debug<R: Threads + Wait + Sync + Send + Sockets<Listener = TcpListener, Stream = TcpStream>>(
    rt: &R,
    alloc: Global,
    port: &str,
) -> Result<Ended, Memory> {
    let words = [
        "async",
        "--bound",
        "100000000",
        "127.0.0.1",
        port,
        "K",
        "a.php",
    ];
    let mut shelf = shelf_with(alloc, "a.php", PROGRAM)?;
    for _ in 0..MOST_RUNS {
        let ended = call(rt, alloc, &words, &mut shelf)?;
        if ended.status != NO_LINK {
            return Ok(ended);
        }
        thread::yield_now();
    }
    Err(Memory)
}

/// Whether this text comes within so many reads.
fn reads_up_to<S: Source>(alloc: Global, source: &mut S, text: &[u8]) -> Result<bool, Memory> {
    let mut all = Vec::new(alloc);
    let mut piece = [0; 64];
    for _ in 0..MOST_READS {
        match source.take(&mut piece) {
            Ok(0) => return Ok(false),
            Ok(count) => all.extend_from_slice(&piece[..count])?,
            Err(_) => return Ok(false),
        }
        if !text.is_empty() && all.windows(text.len()).any(|part| part == text) {
            return Ok(true);
        }
    }
    Ok(false)
}

/// The IDE of the next link: it lets the program run, breaks into it, and stops it. Whether the `break` was answered.
fn break_in<R: Threads + Wait + Sync + Send + Sockets<Listener = TcpListener, Stream = TcpStream>>(
    rt: &R,
    alloc: Global,
    port: u16,
) -> Result<bool, Memory> {
    let mut net = TcpNet::new(rt, Duration::from_secs(WAIT_SECONDS));
    let Ok(mut gate) = net.gate(port) else {
        return Ok(false);
    };
    let Ok((mut source, mut sink, _)) = gate.accept() else {
        net.shut(gate);
        return Ok(false);
    };
    let _ = sink.put(b"run -i 1\0");
    let _ = sink.put(b"break -i 2\0");
    let broken = reads_up_to(alloc, &mut source, BROKEN);
    let _ = sink.put(b"stop -i 3\0");
    let _ = reads_up_to(alloc, &mut source, b"no such text".as_slice());
    gate.retire(source, sink);
    net.shut(gate);
    broken
}

/// A `break` that comes while the program runs is answered, and `stop` ends it.
#[test]
fn a_running_program_is_stopped(rt: HostRuntime) -> Result<(), Fail> {
    let alloc = rt.alloc();
    let port = free_port(&rt)?;
    let text = format!(in alloc; "{port}")?;
    let text = text.as_str();
    let (ended, broken) = join(
        &rt,
        || debug(&rt, alloc, text),
        || break_in(&rt, alloc, port),
    );
    let broken = broken?;
    assert!(rt; broken);
    assert_eq!(rt; ended?.status, KILLED);
    Ok(())
}
