//! The engine and the scripted IDE, each called as a program calls it, in two threads over loopback.

use crate::calls::{Ended, call, free_port, has_written, shelf_with};
use dp_outside::Memory;
use std::alloc::Global;
use std::net::{Net as Sockets, TcpListener, TcpStream};
use std::sync::Wait;
use std::test::Fail;
use std::thread;
use std::thread::{Threads, join};

const PROGRAM: &str = "<?php\necho 7;\n";

const SCRIPT: &str = "attr idekey K\n\
    send step_into -i 1\n\
    attr status break\n\
    send run -i 2\n\
    attr status stopping\n";

/// The status where no link comes about.
const NO_LINK: u8 = 208;

/// How often the engine is run at most. The gate may not be there yet.
const MOST_RUNS: u32 = 100_000;

/// Plays the script on the engine that comes.
fn play<R: Threads + Wait + Sync + Send + Sockets<Listener = TcpListener, Stream = TcpStream>>(
    rt: &R,
    alloc: Global,
    port: &str,
) -> Result<Ended, Memory> {
    let mut shelf = shelf_with(alloc, "script", SCRIPT)?;
    call(rt, alloc, &["ide", port, "script"], &mut shelf)
}

/// Runs the engine, and again where no link comes about.
fn debug<R: Threads + Wait + Sync + Send + Sockets<Listener = TcpListener, Stream = TcpStream>>(
    rt: &R,
    alloc: Global,
    port: &str,
) -> Result<Ended, Memory> {
    let words = ["engine", "127.0.0.1", port, "K", "a.php"];
    let mut shelf = shelf_with(alloc, "a.php", PROGRAM)?;
    for _ in 0..MOST_RUNS {
        let ended = call(rt, alloc, &words, &mut shelf)?;
        if ended.status != NO_LINK {
            return Ok(ended);
        }
        thread::yield_now();
    }
    Err(Memory)
}

/// An engine and a scripted IDE meet over loopback: both end with 0, and the program writes `7`.
#[test]
fn an_engine_and_a_script_meet(rt: HostRuntime) -> Result<(), Fail> {
    let alloc = rt.alloc();
    let port = format!(in alloc; "{}", free_port(&rt)?)?;
    let port = port.as_str();
    let (played, debugged) = join(&rt, || play(&rt, alloc, port), || debug(&rt, alloc, port));
    assert!(rt; has_written(&played, b"".as_slice()));
    assert!(rt; has_written(&debugged, b"7".as_slice()));
    Ok(())
}
