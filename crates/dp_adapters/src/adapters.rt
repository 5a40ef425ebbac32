//! Readers, writers and files as objects of the outside. They tell nothing.
ghost use Rattle.std.specs.Prelude.{◌≡◌, ◌+◌, ◌≤◌, length, IfOk, IsErrOf, None, OnOk};
ghost use Rattle.std.specs.Io.KnownBytes.{ReadConsumes};
ghost use Rattle.dp_outside.specs.Causes.{HasCause, Rose};
ghost use Rattle.dp_outside.specs.Streams.{PutAppends};

use crate::transfers::{read_front, read_some, write_whole};
use dp_outside::{Bytes1, Failed, Faults, Shelf, ShelfError, Sink, Source};
use std::alloc::Global;
use std::fs;
use std::fs::Files;
use std::io::{ErrorKind, Read, Write};

/// A source over a reader. It tells no bytes, and its count rises where a take fails: at each error of the reader but
/// an interruption, after which it reads again.
#[derive(Drop)]
pub struct ReaderSource<R> {
    inner: R,
    faults: Faults,
}

impl<R> ReaderSource<R> {
    /// A source over this reader, which has not failed yet.
    pub fn new(inner: R) -> Self
        ensures inner { result.inner ≡ inner }
        ensures faults { result.faults ≡ 0 }
    {
        ReaderSource {
            inner,
            faults: Faults::new(),
        }
    }

    /// How often it has failed.
    pub fn faults(&self) -> u64
        ensures { result ≡ self.now.faults }
    {
        self.faults.count()
    }
}

impl<R: Read> Source for ReaderSource<R> {
    ghost left = { λ _. None };

    ghost given = { λ _. None };

    ghost faults = { λ s. s.faults };

    ghost tells_both = { λ _ told. told };

    fn take(&mut self, buf: &mut [u8]) -> Result<usize, Failed>
        ensures bound { IfOk result (λ count. count ≤ length buf.new) }
        ensures held { OnOk result (self.new.faults ≡ self.old.faults) }
        ensures cause { HasCause self.old.faults self.new.faults result }

        // What it gives are the reader's bytes.
        ensures bytes { ReadConsumes (R.remaining self.old.inner) (R.remaining self.new.inner)
            result buf.new }
    {
        let taken = read_some(&mut self.inner, buf);
        if taken.is_err() {
            self.faults.raise();
        }
        taken
    }
}

/// A sink over a writer, which it flushes after each put, so that a peer or a terminal sees each packet. It tells no
/// bytes, and its count rises where a put fails: at each error of the writer but an interruption, after which it writes
/// again.
///
/// It is for a stream that nobody waits on at its other end, and is no link: its `finish` does nothing, so the stream
/// ends when its owner drops it. A link's sink ends the link in both directions.
#[derive(Drop)]
pub struct WriterSink<W> {
    inner: W,
    faults: Faults,
}

impl<W> WriterSink<W> {
    /// A sink over this writer, which has not failed yet.
    pub fn new(inner: W) -> Self
        ensures inner { result.inner ≡ inner }
        ensures faults { result.faults ≡ 0 }
    {
        WriterSink {
            inner,
            faults: Faults::new(),
        }
    }

    /// How often it has failed.
    pub fn faults(&self) -> u64
        ensures { result ≡ self.now.faults }
    {
        self.faults.count()
    }

    /// The writer.
    pub fn into_inner(self) -> W
        ensures { result ≡ self.inner }
    {
        let WriterSink { inner, faults: _ } = self;
        inner
    }
}

impl<W: Write> Sink for WriterSink<W> {
    ghost taken = { λ _. None };

    ghost faults = { λ s. s.faults };

    fn put(&mut self, bytes: &[u8]) -> Result<(), Failed>
        ensures held { OnOk result (self.new.faults ≡ self.old.faults) }
        ensures cause { HasCause self.old.faults self.new.faults result }

        // What it takes goes to the writer.
        ensures bytes { PutAppends (W.contents self.old.inner) (W.contents self.new.inner)
            result bytes.now }
    {
        let put = write_whole(&mut self.inner, bytes);
        if put.is_err() {
            self.faults.raise();
        }
        put
    }

    fn finish(&mut self)
        ensures taken { self.new ≡ self.old }
    {}
}

/// A shelf over files, whose names are paths. It tells no files, and its count rises at each error but that no file has
/// the name and that there is no memory.
#[derive(Drop)]
pub struct FileShelf<F> {
    files: F,
    faults: Faults,
}

impl<F> FileShelf<F> {
    /// A shelf over these files, which has not failed yet.
    pub fn new(files: F) -> Self
        ensures files { result.files ≡ files }
        ensures faults { result.faults ≡ 0 }
    {
        FileShelf {
            files,
            faults: Faults::new(),
        }
    }

    /// How often it has failed.
    pub fn faults(&self) -> u64
        ensures { result ≡ self.now.faults }
    {
        self.faults.count()
    }
}

/// The front of a file. A file that is not there is `Missing`, and nothing else is.
fn front_of<F: Files>(
    files: &F,
    alloc: Global,
    name: &str,
    limit: usize,
) -> Result<Bytes1, ShelfError>
    ensures { IfOk result (λ bytes. length bytes ≤ limit + 1) }
{
    match fs::open(files, name) {
        Ok(mut file) => Ok(Bytes1::of(read_front(alloc, &mut file, limit)?)),
        Err(e) => match e.kind() {
            ErrorKind::NotFound => Err(ShelfError::Missing),
            ErrorKind::OutOfMemory => Err(ShelfError::Memory),
            _ => Err(ShelfError::Failed),
        },
    }
}

impl<F: Files> Shelf for FileShelf<F> {
    ghost files = { λ _. None };

    ghost fetched = { λ _. None };

    ghost faults = { λ s. s.faults };

    fn fetch(&mut self, alloc: Global, name: &str, limit: usize) -> Result<Bytes1, ShelfError>
        ensures length { IfOk result (λ bytes. length bytes ≤ limit + 1) }
        ensures failed { IsErrOf result ShelfError.Failed → Rose self.old.faults self.new.faults }
        ensures later { self.old.faults ≤ self.new.faults }
    {
        let fetched = front_of(&self.files, alloc, name, limit);
        if matches!(fetched, Err(ShelfError::Failed)) {
            self.faults.raise();
        }
        fetched
    }
}
