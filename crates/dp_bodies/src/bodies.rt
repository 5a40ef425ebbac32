//! A stream split into bodies.

ghost use Rattle.std.specs.Prelude.{◌≡◌, ◌↔◌, ◌+◌, ◌≤◌, [], ◌++◌, List, ℕ, min, length, drop};
ghost use Rattle.std.specs.Prelude.{slice_range, IsErr, IfOk, IfErr, IfSome, OnOk, OnErr};
ghost use Rattle.dp_wire.specs.Received.{place_of, last_place};
ghost use Rattle.dp_bodies.specs.Frames.{BeginsBody, IsPartialBody, BeginsNoBody, body_frame, body_limit};
ghost use Rattle.dp_bodies.specs.Received.{IsCause};

use crate::BodyError;
use crate::heads::{Head, read_head};
use dp_bytes::Memory;
use dp_wire::Held;
use std::alloc::Global;
use std::marker::Model;
use std::ops::Range;

/// Splits a stream into bodies. Contracts see the bytes that are held, and how many were dropped before them.
///
/// Debug Adapter Protocol, "Base protocol". `next` looks at 29 bytes at most, however many are held.
#[derive(Debug, Drop)]
pub struct Bodies {
    /// What was fed and not dropped.
    bytes: Held,
    /// How many bytes of the stream were dropped, or the largest number where they are more.
    dropped: u64,
}

impl Model for Bodies {
    ghost use Rattle.dp_wire.specs.Received.{Received};

    ghost Value = { Received };

    ghost view = { λ b. record { held = b.bytes; dropped = b.dropped } };
}

impl Bodies {
    /// A splitter that holds no byte. Takes no memory.
    pub fn new(alloc: Global) -> Self
        ensures held { result.held ≡ [] }
        ensures dropped { result.dropped ≡ 0 }
    {
        Bodies {
            bytes: Held::new(alloc),
            dropped: 0,
        }
    }

    /// The bytes held. Takes no memory.
    pub fn bytes(&self) -> &[u8]
        ensures { result.now ≡ self.now.held }
    {
        self.bytes.as_slice()
    }

    /// How many bytes of the stream were dropped: the place of the first byte held. Stays at 2^64 - 1. Takes no memory.
    pub fn dropped(&self) -> u64
        ensures { result ≡ self.now.dropped }
    {
        self.dropped
    }

    /// Appends a piece of the stream. If memory runs out all stays as before.
    pub fn feed(&mut self, piece: &[u8]) -> Result<(), Memory>
        ensures ok { OnOk result (self.new.held ≡ self.old.held ++ piece.now) }
        ensures dropped { self.new.dropped ≡ self.old.dropped }
        ensures err { OnErr result (self.new ≡ self.old) }
    {
        self.bytes.append(piece)?;
        Ok(())
    }

    /// The range of the first body among the bytes held. `None` where more has to come.
    ///
    /// A refusal where no frame begins the bytes held. Its offset counts from the first byte of the stream; it is
    /// exact below 2^64 - 1, and stays at that value. Takes no memory.
    pub fn next(&self) -> Result<Option<Range<usize>>, BodyError>
        ensures within { IfOk result (λ found. IfSome found (λ range.
            (range.start ≤ range.end) × (range.end ≤ length self.now.held))) }
        ensures whole { IfOk result (λ found. IfSome found (λ range.
            BeginsBody self.now.held (slice_range self.now.held range.start range.end)
            (drop range.end self.now.held))) }
        ensures partial { (result ≡ Ok None) ↔ IsPartialBody self.now.held }
        ensures refused { IsErr result ↔ BeginsNoBody self.now.held }
        ensures cause { IfErr result (IsCause self.now) }

        // Where more has to come, no more than a longest head and a longest body but for one byte are held.
        ensures held { result ≡ Ok None → length self.now.held ≤ body_limit + 27 }
    {
        let held = self.bytes();
        match read_head(held) {
            Head::Unfinished => Ok(None),
            Head::Bad { index } => Err(BodyError::BadHead {
                offset: self.place(index),
            }),
            Head::Passed { length } => Err(BodyError::TooLong { length }),
            Head::Known { start, length } => {
                let end = start + length;
                if held.len() < end {
                    Ok(None)
                } else {
                    Ok(Some(start..end))
                }
            }
        }
    }

    /// The place in the stream of the byte held at this index.
    fn place(&self, index: usize) -> u64
        ensures { result ≡ place_of self.now index }
    {
        self.dropped.saturating_add(index as u64)
    }

    /// Drops the first body with its head. Takes no memory.
    pub fn drop_front(&mut self)
        requires { (text rest : List ℕ) × BeginsBody self.old.held text rest }
        ensures held { (text rest : List ℕ) → BeginsBody self.old.held text rest → self.new.held ≡ rest }
        ensures dropped { (text rest : List ℕ) → BeginsBody self.old.held text rest
            → self.new.dropped ≡ min (self.old.dropped + length (body_frame text)) last_place }
    {
        match self.next() {
            Ok(Some(range)) => {
                let count = self.bytes()[..range.end].len();
                self.bytes.advance(count);
                self.dropped = self.dropped.saturating_add(count as u64);
            }
            Ok(None) => unreachable!(),
            Err(_) => unreachable!(),
        }
    }
}
