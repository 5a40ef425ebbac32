//! Links that wait for one another: a source gives its last bytes once some sink has taken enough.
ghost use Rattle.std.specs.Prelude.{None};

use dp_outside::{Failed, Sink, Source};
use std::sync::atomic::AtomicUsize;
use std::sync::atomic::Ordering::SeqCst;
use std::thread;

/// How often a source looks for what it waits for. It ends where that did not come.
const MOST_TURNS: u32 = 1_000_000;

/// Waits until a sink has taken so many bytes. Whether it has.
pub(crate) fn has_taken(seen: &AtomicUsize, count: usize) -> bool {
    for _ in 0..MOST_TURNS {
        if seen.load(SeqCst) >= count {
            return true;
        }
        thread::yield_now();
    }
    false
}

/// A source of two texts, the last of which it gives once some sink has taken so many bytes. It never fails, and counts
/// where it was read to its end. Where it waits in vain it ends without being counted.
#[derive(Drop)]
pub struct StagedSource<'a> {
    pub first: &'a [u8],
    pub last: &'a [u8],
    pub after: usize,
    pub seen: &'a AtomicUsize,
    pub ends: &'a AtomicUsize,
}

impl<'a> StagedSource<'a> {
    /// Waits for the last text where the first was given. Whether there may be more to give.
    fn goes_on(&mut self) -> bool {
        if !self.first.is_empty() {
            return true;
        }
        if self.last.is_empty() {
            self.ends.fetch_add(1, SeqCst);
            return false;
        }
        if !has_taken(self.seen, self.after) {
            return false;
        }
        self.first = self.last;
        self.last = &[];
        true
    }
}

impl<'a> Source for StagedSource<'a> {
    ghost left = { λ _. None };

    ghost given = { λ _. None };

    ghost faults = { λ _. 0 };

    ghost tells_both = { λ _ told. told };

    fn take(&mut self, buf: &mut [u8]) -> Result<usize, Failed> {
        if !self.goes_on() {
            return Ok(0);
        }
        let count = self.first.len().min(buf.len());
        buf[..count].copy_from_slice(&self.first[..count]);
        self.first = &self.first[count..];
        Ok(count)
    }
}

/// A sink that takes whatever comes, and says how many of the bytes that are wanted of it came: none, where others did.
#[derive(Drop)]
pub struct SeenSink<'a> {
    pub wanted: &'a [u8],
    pub count: usize,
    pub seen: &'a AtomicUsize,
}

impl<'a> Sink for SeenSink<'a> {
    ghost taken = { λ _. None };

    ghost faults = { λ _. 0 };

    fn put(&mut self, bytes: &[u8]) -> Result<(), Failed> {
        if self.wanted.starts_with(bytes) {
            self.wanted = &self.wanted[bytes.len()..];
            self.count = self.count.saturating_add(bytes.len());
        } else {
            self.wanted = &[];
            self.count = 0;
        }
        self.seen.store(self.count, SeqCst);
        Ok(())
    }

    fn finish(&mut self) {}
}

/// A link of these two.
pub type Link<'a> = (StagedSource<'a>, SeenSink<'a>);

/// At most two links, in order.
#[derive(Drop)]
pub struct Links<'a> {
    pub near: Option<Link<'a>>,
    pub far: Option<Link<'a>>,
}

impl<'a> Links<'a> {
    /// The next link, where one is left.
    pub(crate) fn next(&mut self) -> Option<Link<'a>> {
        match self.near.take() {
            Some(link) => Some(link),
            None => self.far.take(),
        }
    }
}
