//! Calls of the top call over the network of the system and its threads, with files and outputs in memory.

use dp_adapters::{TcpNet, ThreadSpawner};
use dp_outside::{ByteSink, ByteSource, MapShelf, Memory};
use dp_top::top;
use std::alloc::Global;
use std::io;
use std::net::{Net as Sockets, TcpListener, TcpStream};
use std::sync::Wait;
use std::thread::Threads;
use std::time::Duration;

/// How many bytes each output takes.
const ROOM: usize = 4096;

/// How many seconds a dial and a link wait at most.
pub(crate) const WAIT_SECONDS: u64 = 30;

/// What came of a call.
#[derive(Drop)]
pub(crate) struct Ended {
    pub(crate) status: u8,
    pub(crate) out: ByteSink,
    pub(crate) err: ByteSink,
}

/// An input that is empty, and two outputs.
#[derive(Drop)]
struct Streams {
    input: ByteSource,
    out: ByteSink,
    err: ByteSink,
}

/// Streams of nothing yet.
fn new_streams(alloc: Global) -> Result<Streams, Memory> {
    Ok(Streams {
        input: ByteSource::new(Vec::new(alloc), Vec::new(alloc), Vec::new(alloc))?,
        out: ByteSink::new(alloc, ROOM, Vec::new(alloc))?,
        err: ByteSink::new(alloc, ROOM, Vec::new(alloc))?,
    })
}

/// The words of a call, copied.
fn texts(alloc: Global, words: &[&str]) -> Result<Vec<String>, Memory> {
    let mut texts = Vec::new(alloc);
    for word in words {
        texts.push(String::from_str(alloc, word)?)?;
    }
    Ok(texts)
}

/// A shelf with one file.
pub(crate) fn shelf_with(alloc: Global, name: &str, content: &str) -> Result<MapShelf, Memory> {
    let mut files = Vec::new(alloc);
    let content = content.as_bytes().to_vec(alloc)?;
    files.push((String::from_str(alloc, name)?, content))?;
    MapShelf::new(files, Vec::new(alloc))
}

/// Makes the call over these streams.
fn call_over<R: Threads + Wait + Sync + Send + Sockets<Listener = TcpListener, Stream = TcpStream>>(
    rt: &R,
    alloc: Global,
    words: &[String],
    shelf: &mut MapShelf,
    streams: Streams,
) -> Ended {
    let Streams {
        mut input,
        mut out,
        mut err,
    } = streams;
    let mut net = TcpNet::new(rt, Duration::from_secs(WAIT_SECONDS));
    let mut spawner = ThreadSpawner::new(rt);
    let status = top(
        rt,
        alloc,
        words,
        shelf,
        &mut input,
        &mut out,
        &mut err,
        &mut net,
        &mut spawner,
    );
    Ended { status, out, err }
}

/// Makes the call of these words.
pub(crate) fn call<
    R: Threads + Wait + Sync + Send + Sockets<Listener = TcpListener, Stream = TcpStream>,
>(rt: &R, alloc: Global, words: &[&str], shelf: &mut MapShelf) -> Result<Ended, Memory> {
    let words = texts(alloc, words)?;
    let streams = new_streams(alloc)?;
    Ok(call_over(rt, alloc, words.as_slice(), shelf, streams))
}

/// Whether a call ended with status 0, with this output and nothing said.
pub(crate) fn has_written(ended: &Result<Ended, Memory>, out: &[u8]) -> bool {
    match ended {
        Ok(ended) => {
            ended.status == 0 && ended.err.taken().is_empty() && ended.out.taken() == out
        }
        Err(_) => false,
    }
}

/// A port that nothing listens at.
pub(crate) fn free_port<R: Sockets<Listener = TcpListener, Stream = TcpStream>>(
    rt: &R,
) -> io::Result<u16> {
    let listener = TcpListener::bind(rt, "127.0.0.1:0")?;
    Ok(listener.local_addr()?.port())
}
