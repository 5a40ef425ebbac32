//! The program `dbgp`: hands its words, files, standard streams and network to the top call, and ends with its answer.
#![tactic(auto)]

use dp_adapters::{FileShelf, ReaderSource, TcpNet, ThreadSpawner, WriterSink};
use dp_outside::Sink;
use dp_top::top;
use std::alloc::{AllocError, Global};
use std::fs::{Files, OpenOptions};
use std::io::{ErrorKind, Read, Write};
use std::net::{Net as Sockets, TcpListener, TcpStream};
use std::process::ExitCode;
use std::rt::Env;
use std::sync::Wait;
use std::thread::{Builder, Threads};
use std::time::Duration;
use std::{env, io, thread};

/// How large the stack is on which the top call runs.
const STACK_SIZE: usize = 8 << 30;

/// What is enough for a value of any depth: it is nested at most 1,048,576 deep, since each level weighs 1, and a call
/// takes less than 2 KiB of the stack for a level.
const DEEP_SIZE: usize = 2 << 30;

/// How many seconds a link that an engine makes may be silent before its first byte.
const FIRST_BYTE_SECONDS: u64 = 30;

/// How many smaller sizes are tried, down to some 66 MiB: each is a thirty-second less than the one before.
const SMALLER_SIZES: u32 = 152;

/// The words of the command line, without the program's name. Where the system does not give them as text there are
/// none, and none ask for anything.
fn words(rt: &(impl Env + AllocGlobal)) -> Result<Vec<String>, AllocError> {
    let alloc: Global = rt.alloc();
    let mut words = Vec::new(alloc);
    match env::args(rt) {
        Ok(args) => {
            for word in args.skip(1) {
                words.push(word)?;
            }
            Ok(words)
        }
        Err(e) if e.kind() == ErrorKind::OutOfMemory => Err(AllocError),
        Err(_) => Ok(words),
    }
}

/// One handle of the null device, for reading and writing. The system gives it the lowest number that is free.
fn null_device<F: Files>(files: &F) -> io::Result<F::File> {
    let mut how = OpenOptions::new();
    how.read(true).write(true);
    how.open(files, "/dev/null")
}

/// Says that memory ran out, and answers the status of that. Takes no memory.
fn out_of_memory(stderr: impl Write + Drop) -> u8 {
    let _ = WriterSink::new(stderr).put(b"out of memory\n");
    209
}

/// Makes the real objects, and calls the top call.
fn call<
    R: Threads
        + Wait
        + Sync
        + Send
        + Env
        + AllocGlobal
        + Files
        + Sockets<Listener = TcpListener, Stream = TcpStream>,
    I: Read + Drop,
    O: Write + Drop,
    E: Write + Drop,
>(rt: &R, stdin: I, stdout: O, stderr: E) -> u8 {
    let Ok(words) = words(rt) else {
        return out_of_memory(stderr);
    };
    let mut shelf = FileShelf::new(rt);
    let mut input = ReaderSource::new(stdin);
    let mut out = WriterSink::new(stdout);
    let mut err = WriterSink::new(stderr);
    let mut net = TcpNet::new(rt, Duration::from_secs(FIRST_BYTE_SECONDS));
    let mut spawner = ThreadSpawner::new(rt);
    top(
        rt,
        rt.alloc(),
        words.as_slice(),
        &mut shelf,
        &mut input,
        &mut out,
        &mut err,
        &mut net,
        &mut spawner,
    )
}

/// The answer of the top call, in a thread of its own with a large stack. Where the system does not give `STACK_SIZE`,
/// the top call gets seven eighths of the largest that it gives, and at most `DEEP_SIZE`: what is left for values is
/// then so little that memory runs out before a value is too deep for the stack. Where it does not give the last of
/// these sizes, the program is out of memory.
///
/// Before all that, each standard stream that is closed is opened on the null device, so that no file and no link takes
/// its number: three handles of that device take the numbers that are free, and are kept to the end.
fn main(rt: HostRuntime) -> ExitCode {
    let streams = (null_device(&rt), null_device(&rt), null_device(&rt));
    let status = thread::scope(thread::scope_env(), &rt, |scope| {
        let whole = Builder::new()
            .stack_size(STACK_SIZE)
            .spawn_scoped(scope, || call(&rt, rt.stdin(), rt.stdout(), rt.stderr()));
        if let Ok(thread) = whole {
            return thread.join(&rt);
        }
        let mut size = STACK_SIZE;
        for _ in 0..SMALLER_SIZES {
            size -= size / 32;
            let Ok(tried) = Builder::new().stack_size(size).spawn_scoped(scope, || ()) else {
                continue;
            };
            tried.join(&rt);
            let part = Builder::new()
                .stack_size(DEEP_SIZE.min(size - size / 8))
                .spawn_scoped(scope, || call(&rt, rt.stdin(), rt.stdout(), rt.stderr()));
            return match part {
                Ok(thread) => thread.join(&rt),
                Err(_) => out_of_memory(rt.stderr()),
            };
        }
        out_of_memory(rt.stderr())
    });
    drop(streams);
    ExitCode::from(status)
}
