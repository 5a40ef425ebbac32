//! The objects in memory and the adapters, called as a program calls them.

use dp_adapters::{FileShelf, ReaderSource, TcpNet, ThreadSpawner, WriterSink};
use dp_outside::{
    ByteSink, ByteSource, Dialer, Failed, Faults, Gate, Hook, Host, ItemJob, Job, MapShelf, Memory,
    Net, NoGate, NoNet, NoSpawner, Shelf, ShelfError, Sink, Source, Spawner, SureByteSink,
    SureByteSource, SureMapShelf, TurnSpawner,
};
use std::alloc::Global;
use std::fs::Files;
use std::io::{ErrorKind, Read, Write};
use std::net::{Net as Sockets, TcpListener, TcpStream};
use std::sync::Wait;
use std::sync::atomic::AtomicBool;
use std::sync::atomic::Ordering::SeqCst;
use std::test::Fail;
use std::thread::{Threads, join};
use std::time::Duration;
use std::{fs, io, thread};

/// The pieces of so many takes, each ended by '|', and '!' for a take that failed.
fn takes<S: Source>(
    alloc: Global,
    source: &mut S,
    size: usize,
    count: usize,
) -> Result<Vec<u8>, Memory> {
    let mut buf = [0; 8];
    let mut seen = Vec::new(alloc);
    for _ in 0..count {
        let Ok(taken) = source.take(&mut buf[..size.min(8)]) else {
            seen.push(b'!')?;
            continue;
        };
        seen.extend_from_slice(&buf[..taken])?;
        seen.push(b'|')?;
    }
    Ok(seen)
}

/// '+' for each put that went, '!' for each that failed.
fn puts<K: Sink>(alloc: Global, sink: &mut K, texts: &[&str]) -> Result<Vec<u8>, Memory> {
    let mut seen = Vec::new(alloc);
    for text in texts {
        let answer = if sink.put(text.as_bytes()).is_ok() {
            b'+'
        } else {
            b'!'
        };
        seen.push(answer)?;
    }
    sink.finish();
    Ok(seen)
}

/// The bytes of the file, or a word for the refusal.
fn fetched<H: Shelf>(
    alloc: Global,
    shelf: &mut H,
    name: &str,
    limit: usize,
) -> Result<Vec<u8>, Memory> {
    match shelf.fetch(alloc, name, limit) {
        Ok(bytes) => Ok(bytes.into_vec()),
        Err(ShelfError::Missing) => Vec::from_slice(alloc, b"missing"),
        Err(ShelfError::Failed) => Vec::from_slice(alloc, b"failed"),
        Err(ShelfError::Memory) => Err(Memory),
    }
}

/// Three files under two names: the first under `a.php` is `hello`, and the one under `b.php` is empty.
fn two_files(alloc: Global) -> Result<Vec<(String, Vec<u8>)>, Memory> {
    let mut files = Vec::new(alloc);
    files.push((String::from_str(alloc, "a.php")?, b"hello".to_vec(alloc)?))?;
    files.push((String::from_str(alloc, "b.php")?, Vec::new(alloc)))?;
    files.push((String::from_str(alloc, "a.php")?, b"second".to_vec(alloc)?))?;
    Ok(files)
}

/// What a source gives in so many takes, and what it has left.
fn source_gives(
    alloc: Global,
    bytes: &str,
    cuts: &[usize],
    fails: &[u64],
    size: usize,
    count: usize,
) -> Result<(Vec<u8>, Vec<u8>), Memory> {
    let bytes = bytes.as_bytes().to_vec(alloc)?;
    let mut source = ByteSource::new(bytes, cuts.to_vec(alloc)?, fails.to_vec(alloc)?)?;
    let seen = takes(alloc, &mut source, size, count)?;
    let left = source.left().to_vec(alloc)?;
    Ok((seen, left))
}

/// A source gives its bytes as they are cut, and fails at the takes that it is told to without losing any.
#[test]
fn sources_give_pieces(rt: HostRuntime) -> Result<(), Fail> {
    let rows = [
        ("hello", [].as_slice(), [].as_slice(), 8, 2, "hello||", ""),
        (
            "hello",
            [2, 0].as_slice(),
            [].as_slice(),
            8,
            4,
            "he|l|lo||",
            "",
        ),
        ("hello", [9].as_slice(), [].as_slice(), 4, 3, "hell|o||", ""),
        (
            "hello",
            [2, 2].as_slice(),
            [2, 3].as_slice(),
            8,
            4,
            "he|!!ll|",
            "o",
        ),
        ("", [].as_slice(), [1].as_slice(), 8, 3, "!||", ""),
        ("hi", [].as_slice(), [2].as_slice(), 0, 3, "|!|", "hi"),
    ];
    for (bytes, cuts, fails, size, count, wanted, left) in rows {
        let seen = source_gives(rt.alloc(), bytes, cuts, fails, size, count)?;
        assert_eq!(rt; seen.0.as_slice(), wanted.as_bytes());
        assert_eq!(rt; seen.1.as_slice(), left.as_bytes(), "after {wanted}");
    }
    Ok(())
}

/// What puts a sink takes, and the bytes that it has then.
fn sink_takes(
    alloc: Global,
    room: usize,
    fails: &[u64],
    texts: &[&str],
) -> Result<(Vec<u8>, Vec<u8>), Memory> {
    let mut sink = ByteSink::new(alloc, room, fails.to_vec(alloc)?)?;
    let seen = puts(alloc, &mut sink, texts)?;
    let taken = sink.taken().to_vec(alloc)?;
    Ok((seen, taken))
}

/// A sink takes each text whole or not at all, and fails where it has no room or is told to.
#[test]
fn sinks_take_what_fits(rt: HostRuntime) -> Result<(), Fail> {
    let rows = [
        (8, [].as_slice(), ["ab", "", "cd"].as_slice(), "+++", "abcd"),
        (
            3,
            [].as_slice(),
            ["ab", "cd", "e", "f", ""].as_slice(),
            "+!+!+",
            "abe",
        ),
        (
            8,
            [1, 3].as_slice(),
            ["ab", "cd", "ef", "gh"].as_slice(),
            "!+!+",
            "cdgh",
        ),
        (0, [].as_slice(), ["", "a"].as_slice(), "+!", ""),
    ];
    for (room, fails, texts, wanted, taken) in rows {
        let seen = sink_takes(rt.alloc(), room, fails, texts)?;
        assert_eq!(rt; seen.0.as_slice(), wanted.as_bytes());
        assert_eq!(rt; seen.1.as_slice(), taken.as_bytes(), "after {wanted}");
    }
    Ok(())
}

/// A shelf fetches the first file of a name, at most one byte more than the limit, or says why not.
#[test]
fn shelves_fetch_by_name(rt: HostRuntime) -> Result<(), Fail> {
    let alloc = rt.alloc();
    let rows = [
        ("a.php", 5, "hello"),
        ("a.php", 4, "hello"),
        ("a.php", 1, "he"),
        ("b.php", 0, ""),
        ("a", 9, "failed"),
        ("a", 9, "missing"),
        ("a.php", usize::MAX, "hello"),
    ];
    let mut shelf = MapShelf::new(two_files(alloc)?, Vec::from_slice(alloc, &[5, 9])?)?;
    for (name, limit, wanted) in rows {
        let seen = fetched(alloc, &mut shelf, name, limit)?;
        assert_eq!(rt; seen.as_slice(), wanted.as_bytes());
    }
    Ok(())
}

/// What a source that never fails gives in three takes of at most 4 bytes.
fn sure_source_gives(alloc: Global) -> Result<Vec<u8>, Memory> {
    let mut source = SureByteSource::new(b"hello".to_vec(alloc)?, Vec::new(alloc))?;
    takes(alloc, &mut source, 4, 3)
}

/// What a sink that never fails answers to two puts.
fn sure_sink_takes(alloc: Global) -> Result<Vec<u8>, Memory> {
    puts(alloc, &mut SureByteSink::new()?, &["ab", "cd"])
}

/// What a shelf that never fails fetches under a name, with a limit of 1.
fn sure_shelf_fetches(alloc: Global, name: &str) -> Result<Vec<u8>, Memory> {
    let mut shelf = SureMapShelf::new(two_files(alloc)?)?;
    fetched(alloc, &mut shelf, name, 1)
}

/// The answers of a source, a sink and a shelf that never fail, one behind another.
fn sure_answers(alloc: Global) -> Result<Vec<u8>, Memory> {
    let mut seen = sure_source_gives(alloc)?;
    seen.extend_from_slice(&sure_sink_takes(alloc)?)?;
    seen.extend_from_slice(&sure_shelf_fetches(alloc, "a.php")?)?;
    seen.extend_from_slice(&sure_shelf_fetches(alloc, "c.php")?)?;
    Ok(seen)
}

/// What never fails gives and takes all bytes, and fetches a file, or says that it is missing.
#[test]
fn the_sure_never_fail(rt: HostRuntime) -> Result<(), Fail> {
    let seen = sure_answers(rt.alloc())?;
    assert_eq!(rt; seen.as_slice(), b"hell|o||++hemissing".as_slice());
    Ok(())
}

/// Hosts are 1 to 64 bytes from `!` to `~`; an absent net and an absent gate refuse what they are asked.
#[test]
fn hosts_are_read_and_the_absent_refuse(rt: HostRuntime) -> Result<(), Fail> {
    let long = [b'a'; 65];
    let hosts = [
        (b"!".as_slice(), true),
        (b"a.example~".as_slice(), true),
        (&long[..64], true),
        (b"".as_slice(), false),
        (&long[..], false),
        (b"a b".as_slice(), false),
        (b"a\x7f".as_slice(), false),
    ];
    for (bytes, is_host) in hosts {
        let read = Host::of(bytes);
        assert_eq!(rt; read.is_some(), is_host);
        if let Some(host) = &read {
            assert_eq!(rt; host.text(), bytes);
        }
    }
    let host = Host::of(b"127.0.0.1").ok_or("a host")?;
    let mut net = NoNet::new();
    assert!(rt; net.dial(&host, 9003).is_err());
    assert!(rt; net.gate(9003).is_err());
    assert!(rt; net.twin().is_err());
    let mut gate = NoGate::new();
    assert!(rt; gate.accept().is_err());
    assert!(rt; gate.twin().is_err());
    gate.retire(
        SureByteSource::new(Vec::new(rt.alloc()), Vec::new(rt.alloc()))?,
        SureByteSink::new()?,
    );
    net.retire(
        SureByteSource::new(Vec::new(rt.alloc()), Vec::new(rt.alloc()))?,
        SureByteSink::new()?,
    );
    net.shut(gate);
    Ok(())
}

/// A reader or writer that is interrupted, works, and fails at its third call. Its first flush fails.
#[derive(Drop)]
struct Shaky {
    calls: u8,
    flushes: u8,
    taken: Vec<u8>,
}

impl Shaky {
    /// Counts a call, and says how it goes: the first is interrupted, the third fails, and the others work.
    fn turn(&mut self) -> io::Result<()> {
        self.calls = self.calls.saturating_add(1);
        match self.calls {
            1 => Err(io::Error::from(ErrorKind::Interrupted)),
            3 => Err(io::Error::from(ErrorKind::Other)),
            _ => Ok(()),
        }
    }
}

impl Read for Shaky {
    fn read(&mut self, buf: &mut [u8]) -> io::Result<usize> {
        self.turn()?;
        match buf {
            [] => Ok(0),
            [first, ..] => {
                *first = b'x';
                Ok(1)
            }
        }
    }
}

impl Write for Shaky {
    fn write(&mut self, buf: &[u8]) -> io::Result<usize> {
        self.turn()?;
        let count = buf.len().min(2);
        self.taken.extend_from_slice(&buf[..count])?;
        Ok(count)
    }

    fn flush(&mut self) -> io::Result<()> {
        self.flushes = self.flushes.saturating_add(1);
        match self.flushes {
            1 => Err(io::Error::from(ErrorKind::Other)),
            _ => Ok(()),
        }
    }
}

/// Writes the file `a.php`, and makes the folder `folder`.
fn write_files<F: Files>(files: &F) -> io::Result<()> {
    fs::write(files, "a.php", b"hello")?;
    fs::create_dir(files, "folder")
}

/// A shelf over files fetches the front of a file, and counts each failure but a missing file.
#[test]
fn file_shelves_fetch_files(rt: HostRuntime) -> Result<(), Fail> {
    write_files(&rt)?;
    let rows = [
        ("a.php", 9, "hello", 0),
        ("a.php", 1, "he", 0),
        ("b.php", 9, "missing", 0),
        ("folder", 9, "failed", 1),
        ("a.php/x", 9, "failed", 2),
        ("a.php", 4, "hello", 2),
    ];
    let mut shelf = FileShelf::new(&rt);
    for (name, limit, wanted, faults) in rows {
        let seen = fetched(rt.alloc(), &mut shelf, name, limit)?;
        assert_eq!(rt; seen.as_slice(), wanted.as_bytes());
        assert_eq!(rt; shelf.faults(), faults);
    }
    Ok(())
}

/// A reader and writer of this sort that was not called yet.
fn untried(alloc: Global) -> Shaky {
    Shaky {
        calls: 0,
        flushes: 0,
        taken: Vec::new(alloc),
    }
}

/// A reader is a source: an interrupted read is made again, and one that fails is a take that fails.
#[test]
fn readers_are_sources(rt: HostRuntime) -> Result<(), Fail> {
    let mut steady = ReaderSource::new(b"hello".as_slice());
    assert_eq!(rt;
        takes(rt.alloc(), &mut steady, 4, 3)?.as_slice(),
        b"hell|o||".as_slice()
    );
    let mut source = ReaderSource::new(untried(rt.alloc()));
    assert_eq!(rt;
        takes(rt.alloc(), &mut source, 4, 3)?.as_slice(),
        b"x|!x|".as_slice()
    );
    assert_eq!(rt; source.faults(), 1);
    let taken = ReaderSource::new(rt.stdin()).take(&mut [0; 8]);
    assert!(rt; matches!(taken, Ok(0) | Err(Failed)));
    Ok(())
}

/// A writer is a sink: an interrupted write is made again, and a put fails where a write or the flush does.
#[test]
fn writers_are_sinks(rt: HostRuntime) -> Result<(), Fail> {
    let mut sink = WriterSink::new(untried(rt.alloc()));
    assert_eq!(rt;
        puts(rt.alloc(), &mut sink, &["hello", "ab", "cd"])?.as_slice(),
        b"!!+".as_slice()
    );
    assert_eq!(rt; sink.faults(), 2);
    assert_eq!(rt; sink.into_inner().taken.as_slice(), b"heabcd".as_slice());
    assert!(rt; WriterSink::new(rt.stdout()).put(b"written\n").is_ok());
    Ok(())
}

#[derive(Drop)]
struct Doubles(u32);

impl Job for Doubles {
    ghost use Rattle.std.specs.Prelude.{◌≡◌, ◌*◌, ⊤};

    type Done = u64;

    ghost may_run = { λ _. ⊤ };

    ghost may_give = { λ job done. done ≡ job.0 * 2 };

    fn run(self) -> u64 {
        self.0 as u64 * 2
    }
}

/// Threads, or none, and each second start is refused.
#[derive(Drop)]
struct Halves<'a, R> {
    rt: Option<&'a R>,
    starts: u64,
    faults: Faults,
}

impl<'a, R: Threads + Wait + Sync> Spawner for Halves<'a, R> {
    ghost use Rattle.std.specs.Prelude.{None};

    type Runtime = R;

    ghost faults = { λ spawner. spawner.faults };

    ghost starts = { λ _. None };

    fn twin(&self) -> Self {
        Halves {
            rt: self.rt,
            starts: 0,
            faults: Faults::new(),
        }
    }

    fn start(&mut self, _hook: &Hook) -> Result<(), Failed> {
        self.starts = self.starts.saturating_add(1);
        if self.starts % 2 == 0 {
            self.faults.raise();
            return Err(Failed);
        }
        Ok(())
    }

    fn note(&mut self, _hook: &Hook) {
        self.faults.raise();
    }

    fn runtime(&self, _hook: &Hook) -> Option<&R> {
        self.rt
    }

    fn stack_size(&self, _hook: &Hook) -> Option<usize> {
        None
    }
}

/// Each result of the jobs, and 0 for each that came back.
fn results<P: Spawner>(alloc: Global, spawner: &mut P, count: u32) -> Result<Vec<u64>, Memory> {
    let mut jobs = Vec::new(alloc);
    for number in 0..count {
        jobs.push(Doubles(number + 1))?;
    }
    let mut results = Vec::new(alloc);
    for answer in spawner.crew(alloc, jobs)? {
        results.push(answer.unwrap_or(0))?;
    }
    Ok(results)
}

/// Two jobs and a crew of them run with threads and without, and a job whose start is refused comes back.
#[test]
fn jobs_run_or_come_back(rt: HostRuntime) -> Result<(), Fail> {
    let alloc = rt.alloc();
    for threads in [None, Some(&rt)] {
        let mut spawner = Halves {
            rt: threads,
            starts: 0,
            faults: Faults::new(),
        };
        assert_eq!(rt; spawner.beside(Doubles(3), Doubles(4)).ok(), Some((6, 8)));
        assert!(rt; spawner.beside(Doubles(3), Doubles(4)).is_err());
        assert_eq!(rt; spawner.faults.count(), 1);
        assert_eq!(rt;
            results(alloc, &mut spawner, 3)?.as_slice(),
            [2, 0, 6].as_slice()
        );
        assert_eq!(rt; spawner.faults.count(), 2);
        assert_eq!(rt; results(alloc, &mut spawner, 0)?.as_slice(), [].as_slice());
        assert_eq!(rt; spawner.twin().faults.count(), 0);
    }
    let mut none: NoSpawner<HostRuntime> = NoSpawner::new();
    assert!(rt; none.beside(Doubles(3), Doubles(4)).is_err());
    assert_eq!(rt; results(alloc, &mut none, 2)?.as_slice(), [0, 0].as_slice());
    assert!(rt; none.twin().beside(Doubles(3), Doubles(4)).is_err());
    Ok(())
}

/// A spawner refuses the starts whose numbers it was given, and its twin refuses none.
#[test]
fn starts_are_refused_where_they_are_told_to_be(rt: HostRuntime) -> Result<(), Fail> {
    let alloc = rt.alloc();
    let refused = Vec::from_slice(alloc, &[2, 4])?;
    let mut spawner: TurnSpawner<HostRuntime> = TurnSpawner::new(alloc, refused)?;
    assert_eq!(rt; spawner.beside(Doubles(3), Doubles(4)).ok(), Some((6, 8)));
    assert!(rt; spawner.beside(Doubles(3), Doubles(4)).is_err());
    assert_eq!(rt;
        results(alloc, &mut spawner, 3)?.as_slice(),
        [2, 0, 6].as_slice()
    );
    assert_eq!(rt; spawner.faults(), 2);
    let mut twin = spawner.twin();
    assert_eq!(rt;
        results(alloc, &mut twin, 4)?.as_slice(),
        [2, 4, 6, 8].as_slice()
    );
    assert_eq!(rt; twin.faults(), 0);
    Ok(())
}

/// Raises a flag, and tells whether another one was raised while it waited.
#[derive(Drop)]
struct Meets<'a> {
    raises: &'a AtomicBool,
    awaits: &'a AtomicBool,
}

impl<'a> Job for Meets<'a> {
    ghost use Rattle.std.specs.Prelude.{⊤};

    type Done = bool;

    ghost may_run = { λ _. ⊤ };

    ghost may_give = { λ _ _. ⊤ };

    fn run(self) -> bool {
        self.raises.store(true, SeqCst);
        for _ in 0..1_000_000_000 {
            if self.awaits.load(SeqCst) {
                return true;
            }
            thread::yield_now();
        }
        false
    }
}

/// How many of two jobs of a crew met, each of which waits for the other.
fn crew_meets<P: Spawner>(alloc: Global, spawner: &mut P) -> Result<usize, Memory> {
    let (first, last) = (AtomicBool::new(false), AtomicBool::new(false));
    let mut jobs = Vec::new(alloc);
    jobs.push(Meets {
        raises: &first,
        awaits: &last,
    })?;
    jobs.push(Meets {
        raises: &last,
        awaits: &first,
    })?;
    let answers = spawner.crew(alloc, jobs)?;
    Ok(
        answers
            .iter()
            .filter(|answer| matches!(answer, Ok(true)))
            .count(),
    )
}

/// Jobs that wait for each other meet in threads, as two jobs and as a crew, and with a stack size given.
#[test]
fn jobs_meet_in_threads(rt: HostRuntime) -> Result<(), Fail> {
    let alloc = rt.alloc();
    let mut spawner = ThreadSpawner::new(&rt);
    let (near, far) = (AtomicBool::new(false), AtomicBool::new(false));
    let met = spawner.beside(
        Meets {
            raises: &near,
            awaits: &far,
        },
        Meets {
            raises: &far,
            awaits: &near,
        },
    );
    assert_eq!(rt; met.ok(), Some((true, true)));
    assert_eq!(rt; crew_meets(alloc, &mut spawner)?, 2);
    let mut sized = ThreadSpawner::with_stack_size(&rt, 1 << 20);
    assert_eq!(rt; crew_meets(alloc, &mut sized.twin())?, 2);
    assert_eq!(rt; crew_meets(alloc, &mut sized)?, 2);
    assert_eq!(rt; spawner.faults(), 0);
    assert_eq!(rt; sized.faults(), 0);
    Ok(())
}

/// A start that the system refuses is counted as a fault, and its job comes back without having run.
#[test]
fn a_start_that_the_system_refuses_hands_the_job_back(rt: HostRuntime) -> Result<(), Fail> {
    let alloc = rt.alloc();
    let mut spawner = ThreadSpawner::with_stack_size(&rt, 1 << 62);
    let (near, far) = (AtomicBool::new(false), AtomicBool::new(false));
    let back = spawner.beside(
        Meets {
            raises: &near,
            awaits: &far,
        },
        Meets {
            raises: &far,
            awaits: &near,
        },
    );
    assert!(rt; back.is_err());
    assert!(rt; !near.load(SeqCst) && !far.load(SeqCst), "neither has run");
    assert_eq!(rt; spawner.faults(), 1);
    assert_eq!(rt;
        results(alloc, &mut spawner, 3)?.as_slice(),
        [0, 0, 0].as_slice()
    );
    assert_eq!(rt; spawner.faults(), 4);
    assert_eq!(rt; crew_meets(alloc, &mut spawner)?, 0);
    Ok(())
}

/// What a closure makes of each number, in a crew; a number whose start was refused comes back as it was.
fn worked<P: Spawner>(alloc: Global, spawner: &mut P, count: u32) -> Result<Vec<u64>, Memory> {
    let work = |number: u32| -> u64 { number as u64 * 10 };
    let mut jobs = Vec::new(alloc);
    for number in 0..count {
        jobs.push(ItemJob::new(number, &work))?;
    }
    let mut done = Vec::new(alloc);
    for answer in spawner.crew(alloc, jobs)? {
        done.push(match answer {
            Ok(ten) => ten,
            Err(job) => job.item() as u64,
        })?;
    }
    Ok(done)
}

/// A closure with an item is a job, which has the item where its start is refused.
#[test]
fn closures_are_jobs(rt: HostRuntime) -> Result<(), Fail> {
    let alloc = rt.alloc();
    let mut threads = ThreadSpawner::new(&rt);
    assert_eq!(rt;
        worked(alloc, &mut threads, 3)?.as_slice(),
        [0, 10, 20].as_slice()
    );
    let refused = Vec::from_slice(alloc, &[2])?;
    let mut turns: TurnSpawner<HostRuntime> = TurnSpawner::new(alloc, refused)?;
    assert_eq!(rt;
        worked(alloc, &mut turns, 3)?.as_slice(),
        [0, 1, 20].as_slice()
    );
    Ok(())
}

/// A port that nothing listens at.
fn free_port<R: Sockets<Listener = TcpListener, Stream = TcpStream>>(rt: &R) -> io::Result<u16> {
    let listener = TcpListener::bind(rt, "127.0.0.1:0")?;
    Ok(listener.local_addr()?.port())
}

/// What comes over a link of this net to its own gate, with '|' for each end of a take and '!' for each refusal.
fn links_to_itself<N: Net>(alloc: Global, net: &mut N, port: u16) -> Result<Vec<u8>, Fail> {
    let host = Host::of(b"127.0.0.1").ok_or("a host")?;
    let mut first = net.gate(port).ok().ok_or("a gate")?;
    let mut gate = first.twin().ok().ok_or("its twin")?;
    let (mut near, mut near_out) = net.dial(&host, port).ok().ok_or("a link")?;
    let (mut far, mut far_out, peer) = gate.accept().ok().ok_or("its other end")?;
    let mut seen = Vec::from_slice(alloc, peer.text())?;
    seen.extend_from_slice(&puts(alloc, &mut near_out, &["ab", "c"])?)?;
    seen.extend_from_slice(&takes(alloc, &mut far, 1, 4)?)?;
    seen.extend_from_slice(&takes(alloc, &mut near, 1, 1)?)?;
    seen.extend_from_slice(&puts(alloc, &mut near_out, &["d"])?)?;
    far_out.finish();
    gate.retire(far, far_out);
    net.retire(near, near_out);
    net.shut(gate);
    net.shut(first);
    if net.dial(&host, port).is_err() {
        seen.push(b'!')?;
    }
    Ok(seen)
}

/// A link carries bytes over loopback; a put behind its end fails, and so does a dial where the gate is shut.
#[test]
fn links_go_over_loopback(rt: HostRuntime) -> Result<(), Fail> {
    let port = free_port(&rt)?;
    let mut net = TcpNet::new(&rt, Duration::from_secs(30));
    let seen = links_to_itself(rt.alloc(), &mut net, port)?;
    assert_eq!(rt; seen.as_slice(), b"127.0.0.1++a|b|c|||!!".as_slice());
    assert_eq!(rt; net.faults(), 1);
    assert_eq!(rt; net.returned(), 1);
    Ok(())
}

/// What comes over the links of a gate, of which the first is gone before its turn, the second says nothing, and the
/// third says something and then nothing for as long as the second one is waited for three times: '|' for each end of a
/// take and '!' for each that failed.
fn quiet_links<R: Threads, N: Net>(
    rt: &R,
    alloc: Global,
    net: &mut N,
    port: u16,
) -> Result<Vec<u8>, Fail> {
    let host = Host::of(b"127.0.0.1").ok_or("a host")?;
    let mut gate = net.gate(port).ok().ok_or("a gate")?;
    let (gone, mut gone_out) = net.dial(&host, port).ok().ok_or("a link")?;
    gone_out.finish();
    net.retire(gone, gone_out);
    let silent = net.dial(&host, port).ok().ok_or("a link")?;
    let (near, mut near_out) = net.dial(&host, port).ok().ok_or("a link")?;
    let (mut first, first_out, _) = gate.accept().ok().ok_or("its other end")?;
    let (mut second, second_out, _) = gate.accept().ok().ok_or("its other end")?;
    let (mut third, third_out, _) = gate.accept().ok().ok_or("its other end")?;
    let mut seen = takes(alloc, &mut first, 1, 1)?;
    near_out.put(b"a").ok().ok_or("a put")?;
    seen.extend_from_slice(&takes(alloc, &mut third, 1, 1)?)?;
    let (late, waited) = join(
        rt,
        || takes(alloc, &mut third, 1, 1),
        || {
            let waited = takes(alloc, &mut second, 1, 3);
            let _ = near_out.put(b"b");
            waited
        },
    );
    seen.extend_from_slice(&waited?)?;
    seen.extend_from_slice(&late?)?;
    gate.retire(first, first_out);
    gate.retire(second, second_out);
    gate.retire(third, third_out);
    net.retire(silent.0, silent.1);
    net.retire(near, near_out);
    net.shut(gate);
    Ok(seen)
}

/// A take from a link that has given nothing fails at the limit; one from a link that gave a byte waits on.
#[test]
fn a_silent_link_is_given_up(rt: HostRuntime) -> Result<(), Fail> {
    let port = free_port(&rt)?;
    let mut net = TcpNet::new(&rt, Duration::from_millis(100));
    let seen = quiet_links(&rt, rt.alloc(), &mut net, port)?;
    assert_eq!(rt; seen.as_slice(), b"|a|!!!b|".as_slice());
    assert_eq!(rt; net.faults(), 0);
    assert_eq!(rt; net.returned(), 1);
    Ok(())
}
